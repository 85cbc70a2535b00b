//! Words of 32 bits.
use super::{Sword, Word};

impl Word for u32 {
    ghost value = { λ n. n };

    fn to_u64(self) -> u64 {
        u64::from(self)
    }
}

impl Sword for i32 {
    ghost value = { λ n. n };

    fn to_i64(self) -> i64 {
        i64::from(self)
    }
}
