//! What can be wrong with an object, or with what a caller asks of it.
#![tactic(auto)]

ghost use Rattle.std.specs.Prelude.{◌≡◌, ◌<◌, ◌≤◌, ◌==◌, Some};
ghost use Rattle.faults.specs.Numbers.{number, numbers, direct};
ghost use Rattle.faults.specs.Texts.{happened, why, place, whereabouts, text};
ghost use Rattle.faults.specs.declared.FaultKind.{FaultKind};

use std::fmt;

/// The number of a section that is there, and how many section headers there are.
pub type SectionIndex = u16;

/// What happened, each with its number.
#[derive(Clone, Copy, PartialEq, Eq, Debug)]
pub enum FaultKind {
    HeaderTableOutside = 1,
    TooManyHeaders = 2,
    FirstHeaderRelocates = 3,
    ChainTableWrongLength = 4,
    NoSuchSection = 5,
    TargetRelocates = 6,
    ChainOfOtherCount = 7,
    WindowOutside = 8,
    SourceTooLong = 9,
    InfoOutside = 10,
    InfoRelocates = 11,
    PayloadOutside = 12,
    PayloadNotWholeRecords = 13,
    GroupNotWholeWords = 14,
    CrelHeaderUnreadable = 15,
    CrelOffsetUnreadable = 16,
    CrelSymbolUnreadable = 17,
    CrelTypeUnreadable = 18,
    CrelAddendUnreadable = 19,
    AttributesVersionUnknown = 20,
    SubsectionTooShort = 21,
    SubsectionLengthWrong = 22,
    VendorUnended = 23,
    BlockTooShort = 24,
    BlockLengthWrong = 25,
    IndexListUnended = 26,
    BlockTagUnknown = 27,
    IndexTooWide = 28,
    AttributeTagUnreadable = 29,
    AttributeIntegerUnreadable = 30,
    AttributeStringUnended = 31,
    ForeignChain = 32,
}

impl FaultKind {
    /// The fault's number, 1 to 32: kinds are equal where their numbers are.
    pub fn number(self) -> u8
        ensures value { result ≡ number self }
        ensures bound { (0 < result) × (result ≤ 32) }
        ensures tells_apart { (k : FaultKind) → ⟦<FaultKind as PartialEq>⟧.eq self k ≡ (result == number k) }
    {
        self as u8
    }

    /// What happened, in words.
    pub fn what(self) -> &'static str
        ensures { result.now ≡ happened self }
    {
        match self {
            FaultKind::HeaderTableOutside => "the section header table lies outside the source",
            FaultKind::TooManyHeaders => "more than 65535 section headers",
            FaultKind::FirstHeaderRelocates => "the first section header is a relocation section's",
            FaultKind::ChainTableWrongLength =>
                "the chain's table has not one number for each section header",
            FaultKind::NoSuchSection => "no section has that number",
            FaultKind::TargetRelocates => "the target is a relocation section itself",
            FaultKind::ChainOfOtherCount =>
                "the chain was made for another number of section headers",
            FaultKind::WindowOutside => "the window reaches past its source",
            FaultKind::SourceTooLong => "the source is longer than 4294967295 bytes",
            FaultKind::InfoOutside => "sh_info is past the last section header",
            FaultKind::InfoRelocates => "sh_info names a relocation section",
            FaultKind::PayloadOutside => "the payload lies outside the source",
            FaultKind::PayloadNotWholeRecords =>
                "the payload is not made of whole relocation records",
            FaultKind::GroupNotWholeWords => "the group's length is 0 or no multiple of 4",
            FaultKind::CrelHeaderUnreadable => "the CREL header is unreadable",
            FaultKind::CrelOffsetUnreadable => "a CREL record's offset and flags are unreadable",
            FaultKind::CrelSymbolUnreadable => "a CREL record's symbol is unreadable",
            FaultKind::CrelTypeUnreadable => "a CREL record's type is unreadable",
            FaultKind::CrelAddendUnreadable => "a CREL record's addend is unreadable",
            FaultKind::AttributesVersionUnknown => "build attributes of an unknown version",
            FaultKind::SubsectionTooShort => "too few bytes for a subsection's length",
            FaultKind::SubsectionLengthWrong =>
                "a subsection's length is under 4 or past the payload's end",
            FaultKind::VendorUnended => "a subsection's vendor name has no end",
            FaultKind::BlockTooShort => "too few bytes for a block's tag and length",
            FaultKind::BlockLengthWrong =>
                "a block's length is under 5 or past its subsection's end",
            FaultKind::IndexListUnended => "a block's index list has no end",
            FaultKind::BlockTagUnknown => "a block's tag is none of 1, 2 and 3",
            FaultKind::IndexTooWide => "an index of a block is wider than 32 bits",
            FaultKind::AttributeTagUnreadable => "an attribute's tag is unreadable",
            FaultKind::AttributeIntegerUnreadable => "an attribute's integer is unreadable",
            FaultKind::AttributeStringUnended => "an attribute's text has no end",
            FaultKind::ForeignChain => "the chain belongs to another object",
        }
    }
}

/// Why a number could not be read.
#[derive(Clone, Copy, PartialEq, Eq, Debug)]
pub enum Cause {
    Short,
    Wide,
}

/// A fault: what happened, why, and where.
#[derive(Clone, Copy, PartialEq, Eq, Debug)]
pub struct Fault {
    pub kind: FaultKind,
    pub cause: Option<Cause>,
    pub section: SectionIndex,
    pub ordinals: (u64, u64),
}

impl Fault {
    /// A fault with neither cause nor place.
    pub fn direct(kind: FaultKind) -> Fault
        ensures { numbers result ≡ direct (number kind) }
    {
        Fault {
            kind,
            cause: None,
            section: 0,
            ordinals: (0, 0),
        }
    }

    /// Where it happened, by what the ordinals count, if it names a section.
    pub fn place(self) -> Option<Place>
        ensures { result ≡ place self }
    {
        let section = self.section;
        if section == 0 {
            return None;
        }
        let (first, second) = self.ordinals;
        Some(match self.kind {
            FaultKind::CrelOffsetUnreadable
            | FaultKind::CrelSymbolUnreadable
            | FaultKind::CrelTypeUnreadable
            | FaultKind::CrelAddendUnreadable => Place::Record(section, first),
            FaultKind::SubsectionTooShort
            | FaultKind::SubsectionLengthWrong
            | FaultKind::VendorUnended => Place::Subsection(section, first),
            FaultKind::BlockTooShort
            | FaultKind::BlockLengthWrong
            | FaultKind::IndexListUnended
            | FaultKind::BlockTagUnknown
            | FaultKind::IndexTooWide => Place::Block(section, first, second),
            _ => Place::Section(section),
        })
    }
}

/// Where a fault is: a section, and a record, or a subsection and a block, in it.
#[derive(Clone, Copy, PartialEq, Eq, Debug)]
pub enum Place {
    Section(SectionIndex),
    Record(SectionIndex, u64),
    Subsection(SectionIndex, u64),
    Block(SectionIndex, u64, u64),
}

fn why(cause: Option<Cause>) -> &'static str
    ensures { result.now ≡ why cause }
{
    match cause {
        None => "",
        Some(Cause::Short) => " (a number ran out of bytes)",
        Some(Cause::Wide) => " (a number is too wide)",
    }
}

impl fmt::Display for Place {
    ghost output = { λ p. Some (whereabouts p) };

    fn fmt<W: fmt::Write>(&self, f: &mut fmt::Formatter<W>) -> fmt::Result {
        match *self {
            Place::Section(section) => write!(f, ", in section {section}"),
            Place::Record(section, record) => write!(f, ", in section {section}, record {record}"),
            Place::Subsection(section, subsection) => write!(
                f,
                ", in section {section}, subsection {subsection}"
            ),
            Place::Block(section, subsection, block) => write!(
                f,
                ", in section {section}, subsection {subsection}, block {block}"
            ),
        }
    }
}

/// The number, what happened, and where.
impl fmt::Display for Fault {
    ghost output = { λ f. Some (text f) };

    fn fmt<W: fmt::Write>(&self, f: &mut fmt::Formatter<W>) -> fmt::Result {
        let number = self.kind.number();
        let what = self.kind.what();
        let why = why(self.cause);
        write!(f, "fault {number}: {what}{why}")?;
        match self.place() {
            Some(place) => write!(f, "{place}"),
            None => Ok(()),
        }
    }
}
