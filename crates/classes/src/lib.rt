//! What differs between 32-bit and 64-bit objects: words, section headers and relocation records.
#![tactic(auto)]

ghost use Rattle.std.specs.Prelude.{◌≡◌, ℕ, Bool, ℤ, pos};
ghost use Rattle.classes.specs.Column.{Column, field, signed_field, stands, decoded, nonzero};

use endian::Endian;
use sources::pod::Pod;

pub mod words32;
pub mod words64;

/// An unsigned word of a class.
pub trait Word: Copy {
    ghost value: { Self → ℕ };

    fn to_u64(self) -> u64
        ensures { result ≡ value self };
}

/// A signed word of a class.
pub trait Sword: Copy {
    ghost value: { Self → ℤ };

    fn to_i64(self) -> i64
        ensures { result ≡ value self };
}

/// What a section header says, in numbers that are wide enough for every class.
#[derive(Clone, Copy, PartialEq, Eq, Debug)]
pub struct Header {
    pub sh_type: u32,
    pub sh_offset: u64,
    pub sh_size: u64,
    pub sh_link: u32,
    pub sh_info: u32,
}

/// A section header as it is stored.
pub trait SectionHeader<W: Word>: Pod {
    ghost column: { Column };

    fn sh_type<E: Endian>(&self, endian: E) -> u32
        ensures { result ≡ field (E.Endian.big endian) column.sh_type (Self.Pod.stored self.now) };

    fn sh_offset<E: Endian>(&self, endian: E) -> W
        ensures { W.Word.value result ≡ field (E.Endian.big endian) column.sh_offset (Self.Pod.stored self.now) };

    fn sh_size<E: Endian>(&self, endian: E) -> W
        ensures { W.Word.value result ≡ field (E.Endian.big endian) column.sh_size (Self.Pod.stored self.now) };

    fn sh_link<E: Endian>(&self, endian: E) -> u32
        ensures { result ≡ field (E.Endian.big endian) column.sh_link (Self.Pod.stored self.now) };

    fn sh_info<E: Endian>(&self, endian: E) -> u32
        ensures { result ≡ field (E.Endian.big endian) column.sh_info (Self.Pod.stored self.now) };

    ghost size: { Self.Pod.width ≡ column.header };
}

/// A relocation record as it is stored.
pub trait Relocation<W: Word, S: Sword>: Pod {
    ghost column: { Column };

    ghost addend: { Bool → Self → ℤ };

    fn r_offset<E: Endian>(&self, endian: E) -> W
        ensures { W.Word.value result ≡ field (E.Endian.big endian) column.r_offset (Self.Pod.stored self.now) };

    fn r_sym<E: Endian>(&self, endian: E) -> u32
        ensures { result ≡ column.symbol (E.Endian.big endian) (stands column.r_info (Self.Pod.stored self.now)) };

    fn r_type<E: Endian>(&self, endian: E) -> u32
        ensures { result ≡ column.type (E.Endian.big endian) (stands column.r_info (Self.Pod.stored self.now)) };

    fn r_addend<E: Endian>(&self, endian: E) -> S
        ensures { S.Sword.value result ≡ addend (E.Endian.big endian) self.now };
}

/// A relocation record without an addend, which is 0 then.
pub trait Rel<W: Word, S: Sword>: Relocation<W, S> {
    ghost size: { Self.Pod.width ≡ Self.Relocation.column.rel };

    ghost none: { (big : Bool) (v : Self) → Self.Relocation.addend big v ≡ pos 0 };
}

/// A relocation record with an addend.
pub trait Rela<W: Word, S: Sword>: Relocation<W, S> {
    ghost size: { Self.Pod.width ≡ Self.Relocation.column.rela };

    ghost some: { (big : Bool) (v : Self) → Self.Relocation.addend big v ≡ signed_field big Self.Relocation.column.r_addend (Self.Pod.stored v) };
}

/// A class, by its column of sizes and places.
pub trait Class: Copy {
    type Word: Word;

    type Sword: Sword;

    type SectionHeader: SectionHeader<Self::Word>;

    type Rel: Rel<Self::Word, Self::Sword>;

    type Rela: Rela<Self::Word, Self::Sword>;

    ghost column: { Column };

    /// How many bytes a section header has.
    fn header_size() -> usize
        ensures { result ≡ column.header }
    {
        Self::SectionHeader::size_of()
    }

    /// How many bytes a REL record has.
    fn rel_size() -> usize
        ensures { result ≡ column.rel }
    {
        Self::Rel::size_of()
    }

    /// How many bytes a RELA record has.
    fn rela_size() -> usize
        ensures { result ≡ column.rela }
    {
        Self::Rela::size_of()
    }

    ghost header: { Self.SectionHeader.SectionHeader.column ≡ column };

    ghost rel: { Self.Rel.Relocation.column ≡ column };

    ghost rela: { Self.Rela.Relocation.column ≡ column };
}

impl Header {
    /// All that a stored header says.
    pub fn of<W: Word, H: SectionHeader<W>, E: Endian>(section: &H, endian: E) -> Header
        ensures { result ≡ decoded H.SectionHeader.column (E.Endian.big endian) (H.Pod.stored section.now) }
    {
        Header {
            sh_type: section.sh_type(endian),
            sh_offset: section.sh_offset(endian).to_u64(),
            sh_size: section.sh_size(endian).to_u64(),
            sh_link: section.sh_link(endian),
            sh_info: section.sh_info(endian),
        }
    }

    /// `sh_link` as the number of a section. Whether there is such a section is not looked at.
    pub fn link(&self) -> u32
        ensures { result ≡ self.now.sh_link }
    {
        self.sh_link
    }

    /// `sh_info` as the number of a section. Whether there is such a section is not looked at.
    pub fn info_link(&self) -> u32
        ensures { result ≡ self.now.sh_info }
    {
        self.sh_info
    }
}

/// The symbol of a relocation, none for 0.
pub fn symbol<W: Word, S: Sword, T: Relocation<W, S>, E: Endian>(
    relocation: &T,
    endian: E,
) -> Option<u32>
    ensures { result ≡ nonzero (T.Relocation.column.symbol (E.Endian.big endian) (stands T.Relocation.column.r_info (T.Pod.stored relocation.now))) }
{
    match relocation.r_sym(endian) {
        0 => None,
        index => Some(index),
    }
}
