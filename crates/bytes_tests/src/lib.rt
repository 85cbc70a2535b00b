//! Tests of faults, byte orders, sources, windows and fixed records.
#![tactic(auto)]

#[cfg(test)]
mod tests;
