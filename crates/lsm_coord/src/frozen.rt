//! The frozen memtable: what a freeze leaves for the next flush.

use lsm_key::Seq;
use lsm_mem::Memtable;

/// A memtable that accepts no more writes and waits for its flush.
#[derive(Debug, Drop)]
pub(crate) struct Frozen {
    pub memtable: Memtable,
    /// The last sequence when it was frozen.
    pub end: Seq,
}
