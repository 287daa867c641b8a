//! Tests of `lsm_io` by its public calls: what it asks of the runtime's own streams.
//!
//! They are a crate of their own, so that `lsm_io` is proved once. It has no code beside them.
#![tactic(auto)]

#[cfg(test)]
mod tests;
