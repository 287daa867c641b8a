//! Tests of `lsm_key` by its public calls: fields of a format, batches, the order of entries, and limits.
//!
//! They are a crate of their own, so that `lsm_key` is proved once. It has no code beside them.
#![tactic(auto)]

#[cfg(test)]
mod tests;
