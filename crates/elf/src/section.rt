//! Section headers, and the payloads that they describe.
ghost use Rattle.std.specs.Prelude.{◌≡◌, MatchResult};
ghost use Rattle.faults.specs.Numbers.{Gives};
ghost use Rattle.elf.specs.Coverage.{Covered, Uncovered};
ghost use Rattle.elf.specs.Object.{Object, relocates, header_at, section, payload, payload_of};

use classes::Header;
use faults::{Fault, FaultKind, SectionIndex};
use sources::read_ref::ReadRef;

pub const SHT_RELA: u32 = 4;

pub const SHT_NOBITS: u32 = 8;

pub const SHT_REL: u32 = 9;

pub const SHT_CREL: u32 = 1073741844;

/// Whether a section type is that of relocations.
pub fn is_relocation(sh_type: u32) -> bool
    ensures { result ≡ relocates sh_type }
{
    matches!(sh_type, SHT_REL | SHT_RELA | SHT_CREL)
}

/// The payload that a header describes.
pub fn data<'a, R: ReadRef<'a>>(header: &Header, source: R) -> Result<&'a [u8], Fault>
    ensures { Gives (λ x. x.now) result (payload_of (R.ReadRef.bytes source) header.now) }
{
    if header.sh_type == SHT_NOBITS {
        return Ok(&[]);
    }
    source
        .read_bytes_at(header.sh_offset, header.sh_size)
        .map_err(|()| Fault::direct(FaultKind::PayloadOutside))
}

/// The section headers and payloads of an object.
pub trait Sections<'a>: Copy {
    ghost object: { Self → Object };

    /// How many headers there are.
    fn count(&self) -> SectionIndex
        ensures { result ≡ (object self.now).count };

    /// The header at an index of the table, of which 0 is reserved.
    fn header(&self, index: u32) -> Result<Header, Fault>
        ensures { Gives (λ h. h) result (header_at (object self.now) index) };

    /// The header of a section.
    fn section(&self, index: u32) -> Result<Header, Fault>
        ensures { Gives (λ h. h) result (section (object self.now) index) };

    /// The payload of a section.
    fn payload(&self, index: u32) -> Result<&'a [u8], Fault>
        ensures result { Gives (λ x. x.now) result (payload (object self.now) index) }
        ensures covered { MatchResult result (λ s. Covered (object self.now) index s.now) (λ _. Uncovered (object self.now) index) };
}
