//! Nodes, which send and receive messages.

use lsm_key::MAX_NODES;
use std::marker::Model;

/// Which worker or follower it is.
///
/// Invariant: its number is 1 to `MAX_NODES`.
#[derive(Clone, Copy, Debug, PartialEq, Eq)]
pub struct NodeIndex {
    number: u8,
}

impl Model for NodeIndex {
    ghost use Rattle.std.specs.Prelude.{ℕ, ◌≤◌};
    ghost use Rattle.lsm_key.specs.declared.limits.TheConstants.{MAX_NODES};

    ghost Value = { ℕ };

    ghost view = { λ i. i.number };

    ghost invariant = { λ i. (1 ≤ i.number) × (i.number ≤ MAX_NODES) };

    ghost inverse = { λ n. record { number = n } };
}

impl NodeIndex {
    ghost use Rattle.std.specs.Prelude.{◌≡◌, ◌≤◌, ◌↔◌, IfSome, IsSome};

    /// The index of this number, or `None` if it is out of range.
    pub fn new(number: u8) -> Option<NodeIndex>
        ensures within { IsSome result ↔ ((1 ≤ number) × (number ≤ MAX_NODES)) }
        ensures kept { IfSome result (λ index. index ≡ number) }
    {
        if number < 1 || number > MAX_NODES {
            return None;
        }
        Some(NodeIndex { number })
    }

    /// Its number.
    pub fn number(self) -> u8
        ensures value { result ≡ self }
        ensures bound { (1 ≤ result) × (result ≤ MAX_NODES) }
    {
        self.number
    }
}

/// A node of the store.
#[derive(Clone, Copy, Debug, PartialEq, Eq)]
pub enum Node {
    /// The one that takes writes and installs results.
    Coordinator,
    /// One that merges.
    Worker(NodeIndex),
    /// One that follows the versions and answers reads.
    Follower(NodeIndex),
}
