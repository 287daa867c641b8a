//! Tests of the world by its public calls: worked schedules, each event with its reply, both as the lines of `lsm_script`.
//!
//! They are a crate of their own, so that the world is proved once. It has no code beside them.
#![tactic(auto)]

#[cfg(test)]
mod tests;
