//! Objects: section headers and payloads.
#![tactic(auto)]

pub mod file;
pub mod section;
