//! Tests of `lsm_claim` by its public calls: conflicts at the ends of hulls and levels, a fifth claim, a stale one, the counts, and the texts of refusals.
//!
//! They are a crate of their own, so that `lsm_claim` is proved once. It has no code beside them.
#![tactic(auto)]

#[cfg(test)]
mod tests;
