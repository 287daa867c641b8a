//! Tests of node threads by their public calls: what a thread wrote, two merges that are away at once, a claim that outlives its
//! hub, calls that find no memory, and the texts of a merge's refusals.
//!
//! They are a crate of their own, so that the loops are proved once. It has no code beside them.
#![tactic(auto)]

#[cfg(test)]
mod tests;
