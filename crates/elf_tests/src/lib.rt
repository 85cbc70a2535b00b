//! Tests of classes, opening, headers, payloads and the inventory.
#![tactic(auto)]

#[cfg(test)]
mod tests;
