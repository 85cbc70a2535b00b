//! An object over any source, class and byte order.
ghost use Rattle.std.specs.Prelude.{IfOk};
ghost use Rattle.faults.specs.Numbers.{Gives};
ghost use Rattle.elf.specs.Coverage.{TableCovered};
ghost use Rattle.elf.specs.Object.{opening};
ghost use Rattle.elf.specs.Opened.{meaning, stated, Looks, Sound};

use super::section::{Sections, data, is_relocation};
use classes::{Class, Header};
use endian::Endian;
use faults::{Fault, FaultKind, SectionIndex};
use sources::pod::read_slice_at;
use sources::read_ref::ReadRef;

/// The longest source that is opened.
pub const MAX_SOURCE: u64 = 4294967295;

/// The most headers that an object has.
pub const MAX_HEADERS: u64 = 65535;

/// What has to be told of a table of section headers: its object's class and byte order, where it starts, and how many headers it has.
#[derive(Clone, Copy, PartialEq, Eq, Debug)]
pub struct HeaderTable<C, E> {
    pub class: C,
    pub endian: E,
    pub start: u64,
    pub count: u64,
}

/// An opened object, whose headers a `SectionIndex` counts.
#[derive(Clone, Copy)]
pub struct ElfFile<R, C, E> {
    source: R,
    class: C,
    endian: E,
    start: u64,
    count: SectionIndex,
}

impl<'a, R: ReadRef<'a>, C: Class, E: Endian> ElfFile<R, C, E> {
    // The header at an index of the table, none past the last. Refused if the table does not lie in the source.
    fn look(&self, index: usize) -> Result<Option<Header>, Fault>
        ensures { Looks (meaning R.ReadRef.bytes C.Class.column E.Endian.big self.now) index result }
    {
        let count = u64::from(self.count);
        let headers = read_slice_at::<C::SectionHeader, R>(self.source, self.start, count).map_err(
            |()| Fault::direct(FaultKind::HeaderTableOutside),
        )?;
        let endian = self.endian;
        Ok(headers.get(index).map(|stored| Header::of(&stored, endian)))
    }

    /// Opens the object whose table of section headers is told.
    #[tactic(auto, using(crate::proofs::Covering::table_covered))]
    pub fn open(source: R, table: HeaderTable<C, E>) -> Result<ElfFile<R, C, E>, Fault>
        ensures result { Gives (meaning R.ReadRef.bytes C.Class.column E.Endian.big) result
            (opening (stated (R.ReadRef.bytes source) C.Class.column E.Endian.big table)) }
        ensures sound { IfOk result (λ f. Sound (meaning R.ReadRef.bytes C.Class.column E.Endian.big f)) }
        ensures table { IfOk result (λ f. TableCovered (meaning R.ReadRef.bytes C.Class.column E.Endian.big f)) }
    {
        if source.len() > MAX_SOURCE {
            return Err(Fault::direct(FaultKind::SourceTooLong));
        }
        if table.count > MAX_HEADERS {
            return Err(Fault::direct(FaultKind::TooManyHeaders));
        }
        let file = ElfFile {
            source,
            class: table.class,
            endian: table.endian,
            start: table.start,
            count: table.count as SectionIndex,
        };
        let first = file.look(0)?;
        if first.is_some_and(|header| is_relocation(header.sh_type)) {
            return Err(Fault::direct(FaultKind::FirstHeaderRelocates));
        }
        Ok(file)
    }
}

impl<'a, R: ReadRef<'a>, C: Class, E: Endian> Sections<'a> for ElfFile<R, C, E> {
    ghost object = { meaning R.ReadRef.bytes C.Class.column E.Endian.big };

    fn count(&self) -> SectionIndex {
        self.count
    }

    fn header(&self, index: u32) -> Result<Header, Fault> {
        if index >= u32::from(self.count) {
            return Err(Fault::direct(FaultKind::NoSuchSection));
        }
        self.look(index as usize)?
            .ok_or(Fault::direct(FaultKind::HeaderTableOutside))
    }

    fn section(&self, index: u32) -> Result<Header, Fault> {
        if index == 0 {
            return Err(Fault::direct(FaultKind::NoSuchSection));
        }
        self.header(index)
    }

    #[tactic(auto, using(crate::proofs::Covering::covered))]
    fn payload(&self, index: u32) -> Result<&'a [u8], Fault> {
        let header = self.section(index)?;
        data(&header, self.source)
    }
}
