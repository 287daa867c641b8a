//! The calls of a store that lines ask for.

use bytes::Bytes;
use lsm_coord::{ScanRange, SnapId};
use lsm_key::{Items, Op};

/// A call of a store.
#[derive(Debug, Drop)]
pub enum Call {
    /// Write these operations as one batch.
    Write(Items<Op>),
    /// Bring all operations into tables.
    Flush,
    /// Make a snapshot of the latest state.
    Snap,
    /// Release a snapshot.
    Release(SnapId),
    /// Read a key, latest or at a snapshot.
    Get(Bytes, Option<SnapId>),
    /// Read a range of keys, latest or at a snapshot.
    Scan(ScanRange),
    /// List the current version.
    Show,
}
