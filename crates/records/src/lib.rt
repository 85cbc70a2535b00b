//! Section headers and relocation records of every class, by the layout of the class.
#![tactic(auto)]

ghost use Rattle.std.specs.Prelude.{◌≡◌, ℕ, ◌*◌, ◌<◌, ◌≤◌, Bool, ℤ, pos, List, length};
ghost use Rattle.endian.specs.Order.{number, signed};
ghost use Rattle.classes.specs.Column.{Column, signed_field};
ghost use Rattle.records.specs.Layout.{starts, word_size, IsRegular, stands_or_zeros};
ghost use Rattle.std.proofs.Common.{rules};

use classes::{Rel, Rela, Relocation, SectionHeader, Sword, Word};
use endian::Endian;
use sources::pod::{Pod, PodBytes, field};
use std::marker::PhantomData;

/// Where the fields of a class's records start.
#[derive(Clone, Copy)]
pub struct Places {
    pub sh_type: usize,
    pub sh_offset: usize,
    pub sh_size: usize,
    pub sh_link: usize,
    pub sh_info: usize,
    pub r_offset: usize,
    pub r_info: usize,
    pub r_addend: usize,
}

/// How a class lays out its records.
pub trait Layout: Copy {
    type Word: Word;

    type Sword: Sword;

    ghost column: { Column };

    /// Where the fields start.
    fn places() -> Places
        ensures { result ≡ starts column };

    /// The word that starts at a place.
    fn word<E: Endian>(bytes: &[u8], at: usize, endian: E) -> Self::Word
        ensures { Self.Word.value result ≡ number (E.Endian.big endian) (stands_or_zeros bytes.now at (word_size column)) };

    /// The same, read as signed.
    fn sword<E: Endian>(bytes: &[u8], at: usize, endian: E) -> Self::Sword
        ensures { Self.Sword.value result ≡ signed (8 * word_size column) (number (E.Endian.big endian) (stands_or_zeros bytes.now at (word_size column))) };

    /// The addend of a record that has none.
    fn no_addend() -> Self::Sword
        ensures { Self.Sword.value result ≡ pos 0 };

    /// The symbol of a relocation record.
    fn r_sym<E: Endian>(bytes: &[u8], endian: E) -> u32
        ensures { result ≡ column.symbol (E.Endian.big endian) (stands_or_zeros bytes.now column.r_info.at column.r_info.size) };

    /// The type of a relocation record.
    fn r_type<E: Endian>(bytes: &[u8], endian: E) -> u32
        ensures { result ≡ column.type (E.Endian.big endian) (stands_or_zeros bytes.now column.r_info.at column.r_info.size) };

    // fields lie in their records
    ghost regular: { IsRegular column };
}

/// A kind of record that each class has.
pub trait Kind: Copy {
    // how many bytes it has in a column
    ghost size: { Column → ℕ };
}

/// Section headers.
#[derive(Clone, Copy)]
pub struct Headers;

impl Kind for Headers {
    ghost size = { λ c. c.header };
}

/// Relocation records without an addend.
#[derive(Clone, Copy)]
pub struct Rels;

impl Kind for Rels {
    ghost size = { λ c. c.rel };
}

/// Relocation records with an addend.
#[derive(Clone, Copy)]
pub struct Relas;

impl Kind for Relas {
    ghost size = { λ c. c.rela };
}

/// A class that stores a record of a kind in `N` bytes.
pub trait Stores<K: Kind, const N: usize>: Layout {
    // `N` is the size that the column has
    ghost size: { N ≡ K.Kind.size Self.Layout.column };

    ghost some: { 0 < K.Kind.size Self.Layout.column };
}

/// A record of a kind and a class: its `N` bytes, as they are stored.
#[derive(Clone, Copy)]
pub struct Record<K, C, const N: usize> {
    stored: [u8; N],
    of: PhantomData<(K, C)>,
}

impl<K: Kind, C: Stores<K, N>, const N: usize> Pod for Record<K, C, N> {
    ghost width = { N };

    ghost stored = { λ v. v.stored };

    ghost some = { Prim.search (C.Stores.size, C.Stores.some, rules) };

    ghost one = { Prim.search rules };

    fn size_of() -> usize {
        N
    }

    fn cast(bytes: &[u8]) -> Option<Record<K, C, N>> {
        let stored = *bytes.first_chunk::<N>()?;
        Some(Record {
            stored,
            of: PhantomData,
        })
    }
}

impl<K: Kind, C: Stores<K, N>, const N: usize> PodBytes for Record<K, C, N> {
    fn bytes_of(&self) -> &[u8] {
        &self.stored
    }
}

impl<C: Stores<Headers, N>, const N: usize> SectionHeader<C::Word> for Record<Headers, C, N> {
    ghost column = { C.Layout.column };

    ghost size = { C.Stores.size };

    fn sh_type<E: Endian>(&self, endian: E) -> u32 {
        endian.read_u32(field(&self.stored, C::places().sh_type))
    }

    fn sh_offset<E: Endian>(&self, endian: E) -> C::Word {
        C::word(&self.stored, C::places().sh_offset, endian)
    }

    fn sh_size<E: Endian>(&self, endian: E) -> C::Word {
        C::word(&self.stored, C::places().sh_size, endian)
    }

    fn sh_link<E: Endian>(&self, endian: E) -> u32 {
        endian.read_u32(field(&self.stored, C::places().sh_link))
    }

    fn sh_info<E: Endian>(&self, endian: E) -> u32 {
        endian.read_u32(field(&self.stored, C::places().sh_info))
    }
}

/// A kind of relocation record, by its addend.
pub trait RelocationKind: Kind {
    // the addend of a record
    ghost addend: { Column → Bool → List ℕ → ℤ };

    // what is read as the addend of any bytes: zeros stand for a field that they do not hold
    ghost read: { Column → Bool → List ℕ → ℤ };

    /// The addend of a record, by its bytes.
    fn addend<C: Layout, E: Endian>(bytes: &[u8], endian: E) -> C::Sword
        ensures { C.Sword.value result ≡ read C.Layout.column (E.Endian.big endian) bytes.now };

    // of a whole record that is its addend
    ghost whole: { (c : Column) (big : Bool) (bytes : List ℕ) → IsRegular c → Self.Kind.size c ≤ length bytes → read c big bytes ≡ addend c big bytes };

    // a record of the kind holds the fields of REL
    ghost enough: { (c : Column) → IsRegular c → c.rel ≤ Self.Kind.size c };
}

impl RelocationKind for Rels {
    ghost addend = { λ _ _ _. pos 0 };

    ghost read = { λ _ _ _. pos 0 };

    ghost whole = { Prim.search rules };

    ghost enough = { Prim.search rules };

    fn addend<C: Layout, E: Endian>(_bytes: &[u8], _endian: E) -> C::Sword {
        C::no_addend()
    }
}

impl RelocationKind for Relas {
    ghost addend = { λ c big bytes. signed_field big c.r_addend bytes };

    ghost read = { λ c big bytes. signed (8 * word_size c) (number big (stands_or_zeros bytes c.r_addend.at (word_size c))) };

    ghost whole = { Prim.search rules };

    ghost enough = { λ c regular. regular.longer };

    fn addend<C: Layout, E: Endian>(bytes: &[u8], endian: E) -> C::Sword {
        C::sword(bytes, C::places().r_addend, endian)
    }
}

impl<K: RelocationKind, C: Stores<K, N>, const N: usize> Relocation<C::Word, C::Sword>
    for Record<K, C, N> {
    ghost column = { C.Layout.column };

    ghost addend = { λ big v. K.RelocationKind.addend C.Layout.column big v.stored };

    fn r_offset<E: Endian>(&self, endian: E) -> C::Word {
        C::word(&self.stored, C::places().r_offset, endian)
    }

    fn r_sym<E: Endian>(&self, endian: E) -> u32 {
        C::r_sym(&self.stored, endian)
    }

    fn r_type<E: Endian>(&self, endian: E) -> u32 {
        C::r_type(&self.stored, endian)
    }

    fn r_addend<E: Endian>(&self, endian: E) -> C::Sword {
        K::addend::<C, E>(&self.stored, endian)
    }
}

impl<C: Stores<Rels, N>, const N: usize> Rel<C::Word, C::Sword> for Record<Rels, C, N> {
    ghost size = { C.Stores.size };

    ghost none = { Prim.search rules };
}

impl<C: Stores<Relas, N>, const N: usize> Rela<C::Word, C::Sword> for Record<Relas, C, N> {
    ghost size = { C.Stores.size };

    ghost some = { Prim.search rules };
}
