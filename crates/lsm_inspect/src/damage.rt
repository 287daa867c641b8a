//! What may be wrong with the table of a file, or with the log.

use lsm_edit::FormatFault;
use lsm_key::FileNumber;
use lsm_table::TableFault;
use std::fmt;
use thiserror::Error;

/// What is wrong with a file's table: the first that holds. An opening is refused for each: go back to a copy of the
/// folder.
#[derive(Clone, Copy, Debug, PartialEq, Eq, Error)]
pub enum Damage {
    /// The folder has a file under its number that does not hold what was written.
    #[error("its bytes are not those that were written")]
    NotWhole,
    /// The folder has no table under the file's number.
    #[error("its table is missing")]
    Missing,
    /// The length that the file's record gives, and that of the table, in bytes.
    #[error("its record says {0} bytes, and its table has {1}")]
    WrongLength(u32, usize),
    /// Its bytes are those that were written, and are no table for this reason.
    #[error("its bytes are not a table: {0:?}")]
    NotATable(TableFault),
    /// The count of entries that the file's record gives, and that of the table.
    #[error("its record says {0} entries, and its table has {1}")]
    WrongCount(u32, usize),
    /// The least or the greatest key of the table is not the one that the file's record gives.
    #[error("its table does not have the least and the greatest key that its record says")]
    WrongKeys,
}

/// A file of the version, and what is wrong with its table.
#[derive(Clone, Copy, Debug, PartialEq, Eq)]
pub struct Finding {
    pub file: FileNumber,
    pub damage: Damage,
}

impl fmt::Display for Finding {
    fn fmt<W: fmt::Write>(&self, f: &mut fmt::Formatter<W>) -> fmt::Result {
        let file = self.file.number();
        let damage = self.damage;
        write!(f, "file {file}: {damage}")
    }
}

/// What is wrong with the log over the flushed sequence: the first that a reading of it meets. An opening is refused
/// for each: go back to a copy of the folder.
#[derive(Clone, Copy, Debug, PartialEq, Eq, Error)]
pub enum LogDamage {
    /// The bytes of a record are no record for this reason.
    #[error("the bytes of a record are none: {0:?}")]
    NoRecord(FormatFault),
    /// A write that is first begins later than right after the flushed sequence, or a freeze is first.
    #[error("it does not begin with the writes after what is flushed")]
    BeginsLate,
    /// The last sequence of a write, and the first one of the next.
    #[error("a write ends at {0}, and the next one begins at {1}")]
    LeavesGap(u64, u64),
    /// The first sequence of a write that has some up to the flushed one, and some above it.
    #[error("the write at {0} is flushed in part")]
    Straddles(u64),
    /// The last sequence of a write, and that of a freeze behind it.
    #[error("a write ends at {0}, and the freeze behind it is at {1}")]
    FreezesElsewhere(u64, u64),
    /// Two freezes are above the flushed sequence, and a store has one frozen memtable at most.
    #[error("two freezes are above what is flushed")]
    FreezesTwice,
    /// The last sequence of the last write.
    #[error("it ends at {0}, before what is flushed does")]
    EndsEarly(u64),
    /// A memtable that a replay makes would weigh more than `MAX_MEMTABLE_WEIGHT`.
    #[error("a memtable of it is too heavy")]
    IsHeavy,
}
