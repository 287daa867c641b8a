//! Tests of `lsm_cache` by its public calls: look-ups through a cache that holds fewer blocks than they ask for; and of other crates of its shelf
//! the calls that no program makes, since those crates have no tests of their own.
//!
//! They are a crate of their own, so that `lsm_cache` is proved once. It has no code beside them.
#![tactic(auto)]

#[cfg(test)]
mod tests;
