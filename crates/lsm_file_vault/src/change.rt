//! Changes of a folder: what a call leaves, as a value that clauses read, since no clause tells of a file.

use bytes::Bytes;
use lsm_key::FileNumber;
use std::snapshot::Snapshot;

/// A change of a folder. The bytes are not kept: only clauses see them.
#[derive(Drop)]
pub enum Change {
    TablePut(FileNumber, Snapshot<Bytes>),
    TableRemoved(FileNumber),
    EditAppended(Snapshot<Bytes>),
    LogAppended(Snapshot<Bytes>),
    /// This many of the first records are gone, or all if there are fewer.
    LogCut(usize),
}
