//! Words of 64 bits.
use super::{Sword, Word};

impl Word for u64 {
    ghost value = { λ n. n };

    fn to_u64(self) -> u64 {
        u64::from(self)
    }
}

impl Sword for i64 {
    ghost value = { λ n. n };

    fn to_i64(self) -> i64 {
        i64::from(self)
    }
}
