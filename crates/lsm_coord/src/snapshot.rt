//! Snapshots: points of the past that reads can name.

use lsm_key::Seq;
use std::fmt;

/// The name of a snapshot: the epoch that made it, and its number there, from 1.
#[derive(Clone, Copy, Debug, PartialEq, Eq)]
pub struct SnapId {
    pub epoch: u64,
    pub number: u64,
}

/// `E.N`: the epoch and the number.
impl fmt::Display for SnapId {
    fn fmt<W: fmt::Write>(&self, f: &mut fmt::Formatter<W>) -> fmt::Result {
        write!(f, "{}.{}", self.epoch, self.number)
    }
}

/// A live snapshot, and the sequence that it reads at.
#[derive(Clone, Copy, Debug)]
pub(crate) struct Snapshot {
    pub id: SnapId,
    pub at: Seq,
}
