//! Fixed records, read from bytes.
ghost use Rattle.std.specs.Prelude.{◌≡◌, ℕ, ◌+◌, ◌*◌, ◌/◌, ◌%◌, ◌<◌, ◌≤◌, List, length, take, drop, replicate, MatchOption, MatchResult, ◌==◌, ◌≢◌};
ghost use Rattle.sources.specs.Held.{records_bytes};
ghost use Rattle.sources.specs.Record.{records, record_at};
ghost use Rattle.sources.specs.Source.{part, Lies, Outside};

use crate::read_ref::ReadRef;
use std::marker::PhantomData;

/// A record of a fixed number of bytes, at least one; every string of that many bytes is exactly one value.
pub trait Pod: Copy {
    ghost width: { ℕ };

    // the bytes of a value
    ghost stored: { Self → List ℕ };

    fn size_of() -> usize
        ensures { result ≡ width };

    /// The record at the front of bytes, if they are enough.
    fn cast(bytes: &[u8]) -> Option<Self>
        ensures { MatchOption result
            (length bytes.now < width)
            (λ v. (stored v ≡ take width bytes.now) × (width ≤ length bytes.now)) };

    ghost some: { 0 < width };

    ghost one: { (v w : Self) → stored v ≡ stored w → v ≡ w };
}

/// Records that hand out their bytes.
pub trait PodBytes: Pod {
    /// The bytes of a record: as many as every other has.
    fn bytes_of(&self) -> &[u8]
        ensures { (result.now ≡ Self.Pod.stored self.now) × (length result.now ≡ Self.Pod.width) };
}

/// The `N` bytes of a record from a place on; zeros where it does not have so many.
pub fn field<const N: usize>(bytes: &[u8], at: usize) -> [u8; N]
    ensures { (at + N ≤ length bytes.now → result ≡ part bytes.now at N) × (length bytes.now < at + N → result ≡ replicate N 0) }
{
    let rest = bytes.get(at..).unwrap_or(&[]);
    rest.first_chunk().copied().unwrap_or([0; N])
}

/// The record at the front of bytes, and what follows it.
pub fn from_bytes<T: Pod>(bytes: &[u8]) -> Result<(T, &[u8]), ()>
    ensures { MatchResult result
        (λ p. (T.Pod.stored p.0 ≡ take T.Pod.width bytes.now) × (p.1.now ≡ drop T.Pod.width bytes.now) × (T.Pod.width ≤ length bytes.now))
        (λ _. length bytes.now < T.Pod.width) }
{
    let record = T::cast(bytes).ok_or(())?;
    Ok((record, &bytes[T::size_of()..]))
}

/// Records that stand one after another.
#[derive(Clone, Copy)]
pub struct Records<'a, T> {
    bytes: &'a [u8],
    of: PhantomData<T>,
}

impl<'a, T> Records<'a, T> {
    fn new(bytes: &'a [u8]) -> Self
        ensures { records_bytes result ≡ bytes.now }
    {
        Records {
            bytes,
            of: PhantomData,
        }
    }
}

impl<'a, T: Pod> Records<'a, T> {
    pub fn len(&self) -> usize
        ensures { result ≡ records T.Pod.width (records_bytes self.now) }
    {
        self.bytes.len() / T::size_of()
    }

    pub fn is_empty(&self) -> bool
        ensures { result ≡ (records T.Pod.width (records_bytes self.now) == 0) }
    {
        self.len() == 0
    }

    /// The record at an index, none past the last.
    pub fn get(&self, index: usize) -> Option<T>
        ensures { MatchOption result
            (records T.Pod.width (records_bytes self.now) ≤ index)
            (λ v. (T.Pod.stored v ≡ record_at T.Pod.width (records_bytes self.now) index) × (index < records T.Pod.width (records_bytes self.now))) }
    {
        let start = index.checked_mul(T::size_of())?;
        T::cast(self.bytes.get(start..)?)
    }
}

/// The first `count` records, and what follows them.
pub fn slice_from_bytes<T: Pod>(bytes: &[u8], count: usize) -> Result<(Records<'_, T>, &[u8]), ()>
    ensures { MatchResult result
        (λ p. (records_bytes p.0 ≡ take (count * T.Pod.width) bytes.now) × (p.1.now ≡ drop (count * T.Pod.width) bytes.now) × (count * T.Pod.width ≤ length bytes.now))
        (λ _. length bytes.now < count * T.Pod.width) }
{
    let size = count.checked_mul(T::size_of()).ok_or(())?;
    let (stored, rest) = bytes.split_at_checked(size).ok_or(())?;
    Ok((Records::new(stored), rest))
}

/// All of the bytes as records, refused if they are not whole records.
pub fn slice_from_all_bytes<T: Pod>(bytes: &[u8]) -> Result<Records<'_, T>, ()>
    ensures { MatchResult result
        (λ s. (records_bytes s ≡ bytes.now) × (length bytes.now % T.Pod.width ≡ 0))
        (λ _. (length bytes.now % T.Pod.width ≢ 0)) }
{
    if bytes.len() % T::size_of() != 0 {
        return Err(());
    }
    Ok(Records::new(bytes))
}

/// The record at an offset of a source.
pub fn read_at<'a, T: Pod, R: ReadRef<'a>>(source: R, offset: u64) -> Result<T, ()>
    ensures { MatchResult result
        (λ v. (T.Pod.stored v ≡ part (R.ReadRef.bytes source) offset T.Pod.width) × (offset + T.Pod.width ≤ length (R.ReadRef.bytes source)))
        (λ _. length (R.ReadRef.bytes source) < offset + T.Pod.width) }
{
    let bytes = source.read_bytes_at(offset, T::size_of() as u64)?;
    T::cast(bytes).ok_or(())
}

/// `count` records from an offset of a source on.
pub fn read_slice_at<'a, T: Pod, R: ReadRef<'a>>(
    source: R,
    offset: u64,
    count: u64,
) -> Result<Records<'a, T>, ()>
    ensures { MatchResult result
        (λ s. (records_bytes s ≡ part (R.ReadRef.bytes source) offset (count * T.Pod.width)) × Lies (length (R.ReadRef.bytes source)) offset (count * T.Pod.width))
        (λ _. Outside (length (R.ReadRef.bytes source)) offset (count * T.Pod.width)) }
{
    // A product that overflows is larger than any source: the source's own length says so.
    let room = source.len();
    let size = count
        .checked_mul(T::size_of() as u64)
        .filter(|size| *size <= room)
        .ok_or(())?;
    let bytes = source.read_bytes_at(offset, size)?;
    Ok(Records::new(bytes))
}
