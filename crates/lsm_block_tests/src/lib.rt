//! Tests of `lsm_block` by its public calls: the faults of bytes by name, and the calls that no table makes. Look-ups are in tests/bytes.
//!
//! They are a crate of their own, so that `lsm_block` is proved once. It has no code beside them.
#![tactic(auto)]

#[cfg(test)]
mod tests;
