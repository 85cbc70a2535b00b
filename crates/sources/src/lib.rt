//! Byte sources and fixed records.
#![tactic(auto)]

pub mod pod;
pub mod read_ref;
