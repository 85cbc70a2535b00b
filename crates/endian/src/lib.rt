//! The order of the bytes of a number.
#![tactic(auto)]

ghost use Rattle.std.specs.Prelude.{◌≡◌, Bool, true, false, not, Some, MatchResult};
ghost use Rattle.endian.specs.Chosen.{is_big, order_word, NoOrder};
ghost use Rattle.endian.specs.Order.{little, number, signed};

use std::fmt;
use std::str::FromStr;

/// A byte order, by whether it is big-endian.
pub trait Endian: Copy {
    ghost big: { Self → Bool };

    fn is_big_endian(self) -> bool
        ensures { result ≡ big self };

    fn is_little_endian(self) -> bool
        ensures { result ≡ not (big self) }
    {
        !self.is_big_endian()
    }

    fn read_u16(self, n: [u8; 2]) -> u16
        ensures { result ≡ number (big self) n }
    {
        u16::from_le_bytes(lowest_first(self.is_big_endian(), n))
    }

    fn read_u32(self, n: [u8; 4]) -> u32
        ensures { result ≡ number (big self) n }
    {
        u32::from_le_bytes(lowest_first(self.is_big_endian(), n))
    }

    #[tactic(auto, using(crate::proofs::Order::little_of_eight))]
    fn read_u64(self, n: [u8; 8]) -> u64
        ensures { result ≡ number (big self) n }
    {
        u64::from_le_bytes(lowest_first(self.is_big_endian(), n))
    }

    fn read_i16(self, n: [u8; 2]) -> i16
        ensures { result ≡ signed 16 (number (big self) n) }
    {
        self.read_u16(n).cast_signed()
    }

    fn read_i32(self, n: [u8; 4]) -> i32
        ensures { result ≡ signed 32 (number (big self) n) }
    {
        self.read_u32(n).cast_signed()
    }

    fn read_i64(self, n: [u8; 8]) -> i64
        ensures { result ≡ signed 64 (number (big self) n) }
    {
        self.read_u64(n).cast_signed()
    }
}

// The bytes of a number with the lowest first, whichever stands first in them.
// They are turned before the order is asked: a choice between two numbers costs less than a jump round the turning.
fn lowest_first<const N: usize>(big: bool, bytes: [u8; N]) -> [u8; N]
    ensures { little result ≡ number big bytes.entry }
{
    let mut turned = bytes;
    turned.reverse();
    if big { turned } else { bytes }
}

/// The lowest byte first.
#[derive(Clone, Copy)]
pub struct LittleEndian;

impl Endian for LittleEndian {
    ghost big = { λ _. false };

    fn is_big_endian(self) -> bool {
        false
    }
}

/// The highest byte first.
#[derive(Clone, Copy)]
pub struct BigEndian;

impl Endian for BigEndian {
    ghost big = { λ _. true };

    fn is_big_endian(self) -> bool {
        true
    }
}

/// An order chosen at run time.
#[derive(Clone, Copy, PartialEq, Eq, Debug)]
pub enum Endianness {
    Little,
    Big,
}

impl Endian for Endianness {
    ghost big = { is_big };

    fn is_big_endian(self) -> bool {
        match self {
            Endianness::Little => false,
            Endianness::Big => true,
        }
    }
}

impl fmt::Display for Endianness {
    ghost output = { λ o. Some (order_word o) };

    fn fmt<W: fmt::Write>(&self, f: &mut fmt::Formatter<W>) -> fmt::Result {
        f.write_str(match self {
            Endianness::Little => "little",
            Endianness::Big => "big",
        })
    }
}

/// A word that names no order.
#[derive(Clone, Copy, PartialEq, Eq, Debug)]
pub struct UnknownOrder;

impl FromStr for Endianness {
    type Err = UnknownOrder;

    ghost from_str_gives = { λ word r. MatchResult r (λ o. word ≡ order_word o) (λ _. NoOrder word) };

    fn from_str(word: &str) -> Result<Endianness, UnknownOrder> {
        match word {
            "little" => Ok(Endianness::Little),
            "big" => Ok(Endianness::Big),
            _ => Err(UnknownOrder),
        }
    }
}
