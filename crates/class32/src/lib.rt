//! 32-bit objects: the layout of their section headers and relocation records.
#![tactic(auto)]

ghost use Rattle.classes.specs.Column.{class32};
ghost use Rattle.std.proofs.Common.{rules};

use classes::Class;
use endian::Endian;
use records::{Headers, Layout, Places, Record, Relas, Rels, Stores};
use sources::pod::field;

/// The class of 32-bit objects.
#[derive(Clone, Copy)]
pub struct Class32;

/// A section header of a 32-bit object.
pub type SectionHeader32 = Record<Headers, Class32, 40>;

/// REL of 32-bit objects.
pub type Rel32 = Record<Rels, Class32, 8>;

/// RELA of 32-bit objects.
pub type Rela32 = Record<Relas, Class32, 12>;

impl Stores<Headers, 40> for Class32 {
    ghost size = { Prim.search rules };

    ghost some = { Prim.search rules };
}

impl Stores<Rels, 8> for Class32 {
    ghost size = { Prim.search rules };

    ghost some = { Prim.search rules };
}

impl Stores<Relas, 12> for Class32 {
    ghost size = { Prim.search rules };

    ghost some = { Prim.search rules };
}

impl Layout for Class32 {
    type Word = u32;

    type Sword = i32;

    ghost column = { class32 };

    ghost regular = { Prim.search rules };

    fn places() -> Places {
        Places {
            sh_type: 4,
            sh_offset: 16,
            sh_size: 20,
            sh_link: 24,
            sh_info: 28,
            r_offset: 0,
            r_info: 4,
            r_addend: 8,
        }
    }

    fn word<E: Endian>(bytes: &[u8], at: usize, endian: E) -> u32 {
        endian.read_u32(field(bytes, at))
    }

    fn sword<E: Endian>(bytes: &[u8], at: usize, endian: E) -> i32 {
        endian.read_i32(field(bytes, at))
    }

    fn no_addend() -> i32 {
        0i32
    }

    fn r_sym<E: Endian>(bytes: &[u8], endian: E) -> u32 {
        endian.read_u32(field(bytes, Self::places().r_info)) / 256
    }

    fn r_type<E: Endian>(bytes: &[u8], endian: E) -> u32 {
        endian.read_u32(field(bytes, Self::places().r_info)) % 256
    }
}

impl Class for Class32 {
    type Word = u32;

    type Sword = i32;

    type SectionHeader = SectionHeader32;

    type Rel = Rel32;

    type Rela = Rela32;

    ghost column = { class32 };

    ghost header = { Prim.search rules };

    ghost rel = { Prim.search rules };

    ghost rela = { Prim.search rules };
}
