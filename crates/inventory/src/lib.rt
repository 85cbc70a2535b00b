//! The inventory of an object: a row for each section header, with the state of its payload.
#![tactic(auto)]

ghost use Rattle.std.specs.Prelude.{◌≡◌, map, Some, MatchResult};
ghost use Rattle.faults.specs.Numbers.{Gives};
ghost use Rattle.endian.specs.Chosen.{is_big};
ghost use Rattle.elf.specs.Opened.{stated};
ghost use Rattle.inventory.specs.ClassWords.{class_word, NoClass};
ghost use Rattle.inventory.specs.Rows.{rows, row_at, seen, state, state_at, Fails, Takes, column_of, asked};
ghost use Rattle.inventory.specs.Summary.{Sums, is_readable, is_damaged};
ghost use Rattle.inventory.specs.declared.Failure.TheVariants.{Memory, Refused};

use class32::Class32;
use class64::Class64;
use classes::{Class, Header};
use elf::file::{ElfFile, HeaderTable};
use elf::section::Sections;
use endian::Endianness;
use faults::{Fault, SectionIndex};
use std::alloc::{AllocFailed as Unplaced, Global};
use std::fmt;
use std::str::FromStr;

/// What a section's payload came to.
#[derive(Clone, Copy, PartialEq, Eq, Debug)]
pub enum State {
    /// Header 0 is no section's.
    Reserved,
    /// It was read, and has so many bytes.
    Read(u64),
    Damaged(Fault),
}

impl State {
    fn is_readable(&self) -> bool
        ensures { result ≡ is_readable self.now }
    {
        matches!(self, State::Read(_))
    }

    fn is_damaged(&self) -> bool
        ensures { result ≡ is_damaged self.now }
    {
        matches!(self, State::Damaged(_))
    }
}

/// A section header, and the state of its payload.
#[derive(Clone, Copy, PartialEq, Eq, Debug)]
pub struct Row {
    pub index: SectionIndex,
    pub header: Header,
    pub payload: State,
}

/// Why there is no inventory.
#[derive(Clone, Copy, PartialEq, Eq, Debug)]
pub enum Failure {
    Memory,
    Refused(Fault),
}

impl<T: Drop> From<Unplaced<T>> for Failure {
    ghost from_gives = { λ _ r. r ≡ Memory };

    fn from(_e: Unplaced<T>) -> Failure {
        Failure::Memory
    }
}

impl From<Fault> for Failure {
    ghost from_gives = { λ f r. r ≡ Refused f };

    fn from(fault: Fault) -> Failure {
        Failure::Refused(fault)
    }
}

// The state of the payload at an index of the table.
fn state_at<'a, O: Sections<'a>>(object: &O, index: SectionIndex) -> State
    ensures { state result ≡ state_at (O.Sections.object object.now) index }
{
    if index == 0 {
        return State::Reserved;
    }
    match object.payload(u32::from(index)) {
        Ok(payload) => State::Read(payload.len() as u64),
        Err(fault) => State::Damaged(fault),
    }
}

impl Row {
    /// The row at an index of the table.
    pub fn of<'a, O: Sections<'a>>(object: &O, index: SectionIndex) -> Result<Row, Fault>
        ensures { Gives seen result (row_at (O.Sections.object object.now) index) }
    {
        let header = object.header(u32::from(index))?;
        let payload = state_at(object, index);
        Ok(Row {
            index,
            header,
            payload,
        })
    }
}

/// A row for each header, in the order of the table.
#[tactic(auto, using(crate::proofs::Listing::one_more))]
pub fn rows<'a, O: Sections<'a>>(object: &O, heap: Global) -> Result<Vec<Row>, Failure>
    ensures { MatchResult result
        (λ v. map seen v.items ≡ rows (O.Sections.object object.now))
        (Fails (O.Sections.object object.now)) }
{
    let mut rows = Vec::new(heap);
    for index in 0..object.count() {
        rows.push(Row::of(object, index)?)?;
    }
    Ok(rows)
}

/// The classes by their names.
#[derive(Clone, Copy, PartialEq, Eq, Debug)]
pub enum ClassName {
    Class32,
    Class64,
}

impl ClassName {
    /// How many bytes a section header has.
    pub fn header_size(self) -> usize
        ensures { result ≡ (column_of self).header }
    {
        match self {
            ClassName::Class32 => <Class32 as Class>::header_size(),
            ClassName::Class64 => <Class64 as Class>::header_size(),
        }
    }
}

impl fmt::Display for ClassName {
    ghost output = { λ c. Some (class_word c) };

    fn fmt<W: fmt::Write>(&self, f: &mut fmt::Formatter<W>) -> fmt::Result {
        f.write_str(match self {
            ClassName::Class32 => "32",
            ClassName::Class64 => "64",
        })
    }
}

/// A word that names no class.
#[derive(Clone, Copy, PartialEq, Eq, Debug)]
pub struct UnknownClass;

impl FromStr for ClassName {
    type Err = UnknownClass;

    ghost from_str_gives = { λ word r. MatchResult r (λ c. word ≡ class_word c) (λ _. NoClass word) };

    fn from_str(word: &str) -> Result<ClassName, UnknownClass> {
        match word {
            "32" => Ok(ClassName::Class32),
            "64" => Ok(ClassName::Class64),
            _ => Err(UnknownClass),
        }
    }
}

// The inventory of an object of one class, whatever class the table tells.
fn list<C: Class>(
    bytes: &[u8],
    class: C,
    table: HeaderTable<ClassName, Endianness>,
    heap: Global,
) -> Result<Vec<Row>, Failure>
    ensures { Takes (stated bytes.now C.Class.column is_big table) result }
{
    let table = HeaderTable {
        class,
        endian: table.endian,
        start: table.start,
        count: table.count,
    };
    rows(&ElfFile::open(bytes, table)?, heap)
}

/// The inventory of the object in `bytes` whose table of section headers is told.
pub fn take(
    bytes: &[u8],
    table: HeaderTable<ClassName, Endianness>,
    heap: Global,
) -> Result<Vec<Row>, Failure>
    ensures { Takes (asked bytes.now table) result }
{
    match table.class {
        ClassName::Class32 => list(bytes, Class32, table, heap),
        ClassName::Class64 => list(bytes, Class64, table, heap),
    }
}

/// How many sections there are, and how many of their payloads are readable and damaged.
#[derive(Clone, Copy, PartialEq, Eq, Debug)]
pub struct Summary {
    pub sections: usize,
    pub readable: usize,
    pub damaged: usize,
}

impl Summary {
    pub fn of(rows: &[Row]) -> Summary
        ensures { Sums rows.now result }
    {
        let mut readable = 0usize;
        let mut damaged = 0usize;
        for row in rows {
            readable += usize::from(row.payload.is_readable());
            damaged += usize::from(row.payload.is_damaged());
        }
        Summary {
            sections: readable + damaged,
            readable,
            damaged,
        }
    }
}
