//! Tests of `lsm_readers` by its public calls: a publisher and its readers, on one thread and on two.
//!
//! They are a crate of their own, so that `lsm_readers` is proved once. It has no code beside them.
#![tactic(auto)]

#[cfg(test)]
mod tests;
