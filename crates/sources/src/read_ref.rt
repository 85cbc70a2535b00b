//! Where bytes come from.
ghost use Rattle.std.specs.Prelude.{◌≡◌, ℕ, ◌+◌, ◌^◌, ◌<◌, ◌≤◌, List, length, MatchResult, IsTrue, ◌↔◌};
ghost use Rattle.faults.specs.Numbers.{numbers, direct};
ghost use Rattle.sources.specs.Held.{window_bytes};
ghost use Rattle.sources.specs.Source.{part, Lies, Outside};

use faults::{Fault, FaultKind};

/// A fixed list of bytes that hands out parts of itself.
pub trait ReadRef<'a>: Copy {
    ghost bytes: { Self → List ℕ };

    fn len(self) -> u64
        ensures { result ≡ length (bytes self) };

    /// The part of `size` bytes from `offset` on; a part of size 0 is empty wherever it stands.
    fn read_bytes_at(self, offset: u64, size: u64) -> Result<&'a [u8], ()>
        ensures { MatchResult result
            (λ s. (s.now ≡ part (bytes self) offset size) × Lies (length (bytes self)) offset size)
            (λ _. Outside (length (bytes self)) offset size) };
}

impl<'a> ReadRef<'a> for &'a [u8] {
    ghost bytes = { λ s. s.now };

    fn len(self) -> u64 {
        let slice: &[u8] = self;
        slice.len() as u64
    }

    fn read_bytes_at(self, offset: u64, size: u64) -> Result<&'a [u8], ()> {
        if size == 0 {
            return Ok(&[]);
        }
        if !is_within(self.len() as u64, offset, size) {
            return Err(());
        }
        Ok(&self[offset as usize..(offset + size) as usize])
    }
}

// Whether `size` bytes from `offset` on lie in `len` bytes, also where `size` is 0. No sum is made that could overflow.
fn is_within(len: u64, offset: u64, size: u64) -> bool
    ensures { IsTrue result ↔ (offset + size ≤ len) }
{
    offset <= len && size <= len - offset
}

/// A part of another source, as a source of its own.
#[derive(Clone, Copy)]
pub struct Window<R> {
    source: R,
    start: u64,
    size: u64,
}

impl<'a, R: ReadRef<'a>> Window<R> {
    /// The window of `size` bytes from `start` on. Unlike a part, an empty window has to lie in its source.
    pub fn new(source: R, start: u64, size: u64) -> Result<Window<R>, Fault>
        ensures { MatchResult result
            (λ w. (window_bytes R.ReadRef.bytes w ≡ part (R.ReadRef.bytes source) start size) × (start + size ≤ length (R.ReadRef.bytes source)))
            (λ e. (numbers e ≡ direct 8) × (length (R.ReadRef.bytes source) < start + size)) }
    {
        if !is_within(source.len(), start, size) {
            return Err(Fault::direct(FaultKind::WindowOutside));
        }
        Ok(Window {
            source,
            start,
            size,
        })
    }

    // How many bytes the source has for it: all of them, for a window that `new` made.
    fn held(self) -> u64
        ensures len { result ≡ length (window_bytes R.ReadRef.bytes self) }
        ensures fits { length (R.ReadRef.bytes self.source) < 2 ^ 64 }
    {
        self.size.min(self.source.len().saturating_sub(self.start))
    }
}

impl<'a, R: ReadRef<'a>> ReadRef<'a> for Window<R> {
    ghost bytes = { window_bytes R.ReadRef.bytes };

    fn len(self) -> u64 {
        self.held()
    }

    #[tactic(auto, using(crate::proofs::Source::parts))]
    fn read_bytes_at(self, offset: u64, size: u64) -> Result<&'a [u8], ()> {
        if size == 0 {
            return Ok(&[]);
        }
        if !is_within(self.held(), offset, size) {
            return Err(());
        }
        self.source.read_bytes_at(self.start + offset, size)
    }
}
