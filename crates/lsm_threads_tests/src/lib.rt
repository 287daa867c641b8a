//! Tests of the loops of node threads by their public calls: what they send for what comes, as bytes, and how they end.
//!
//! They are a crate of their own, so that the loops are proved once. It has no code beside them.
#![tactic(auto)]

#[cfg(test)]
mod tests;
