//! 64-bit objects: the layout of their section headers and relocation records.
#![tactic(auto)]

ghost use Rattle.classes.specs.Column.{class64};
ghost use Rattle.std.proofs.Common.{rules};

use classes::Class;
use endian::Endian;
use records::{Headers, Layout, Places, Record, Relas, Rels, Stores};
use sources::pod::field;

/// The class of 64-bit objects.
#[derive(Clone, Copy)]
pub struct Class64;

/// A section header of a 64-bit object.
pub type SectionHeader64 = Record<Headers, Class64, 64>;

/// REL of 64-bit objects.
pub type Rel64 = Record<Rels, Class64, 16>;

/// RELA of 64-bit objects.
pub type Rela64 = Record<Relas, Class64, 24>;

impl Stores<Headers, 64> for Class64 {
    ghost size = { Prim.search rules };

    ghost some = { Prim.search rules };
}

impl Stores<Rels, 16> for Class64 {
    ghost size = { Prim.search rules };

    ghost some = { Prim.search rules };
}

impl Stores<Relas, 24> for Class64 {
    ghost size = { Prim.search rules };

    ghost some = { Prim.search rules };
}

impl Layout for Class64 {
    type Word = u64;

    type Sword = i64;

    ghost column = { class64 };

    ghost regular = { Prim.search rules };

    fn places() -> Places {
        Places {
            sh_type: 4,
            sh_offset: 24,
            sh_size: 32,
            sh_link: 40,
            sh_info: 44,
            r_offset: 0,
            r_info: 8,
            r_addend: 16,
        }
    }

    fn word<E: Endian>(bytes: &[u8], at: usize, endian: E) -> u64 {
        endian.read_u64(field(bytes, at))
    }

    fn sword<E: Endian>(bytes: &[u8], at: usize, endian: E) -> i64 {
        endian.read_i64(field(bytes, at))
    }

    fn no_addend() -> i64 {
        0i64
    }

    fn r_sym<E: Endian>(bytes: &[u8], endian: E) -> u32 {
        (endian.read_u64(field(bytes, Self::places().r_info)) / 4294967296) as u32
    }

    fn r_type<E: Endian>(bytes: &[u8], endian: E) -> u32 {
        (endian.read_u64(field(bytes, Self::places().r_info)) % 4294967296) as u32
    }
}

impl Class for Class64 {
    type Word = u64;

    type Sword = i64;

    type SectionHeader = SectionHeader64;

    type Rel = Rel64;

    type Rela = Rela64;

    ghost column = { class64 };

    ghost header = { Prim.search rules };

    ghost rel = { Prim.search rules };

    ghost rela = { Prim.search rules };
}
