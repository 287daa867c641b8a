//! What neither a clause nor a script says: the texts of refusals.

mod copies;
mod devices;
mod restarts;
mod results;
mod table;

use lsm_coord::{CoordError, InstallError};
use std::test::Fail;

const REFUSALS: [(CoordError, &str); 14] = [
    (CoordError::Device, "the vault failed"),
    (CoordError::SequenceExhausted, "the sequences are exhausted"),
    (CoordError::FrozenWaiting, "a frozen memtable waits"),
    (CoordError::NothingToFreeze, "there is nothing to freeze"),
    (CoordError::NothingToFlush, "there is nothing to flush"),
    (CoordError::TooManySnapshots, "too many snapshots are live"),
    (CoordError::NoSnapshot, "no such snapshot is live"),
    (CoordError::MemtableFull, "the memtable is full"),
    (CoordError::EmptyBatch, "the batch is empty"),
    (CoordError::BookFull, "four claims are live"),
    (
        CoordError::TooWide,
        "every compaction that no running job blocks exceeds a job size limit",
    ),
    (
        CoordError::BadFloor,
        "the floor is above the current version",
    ),
    (
        CoordError::NumbersExhausted,
        "the version, file, snapshot or job numbers are exhausted",
    ),
    (CoordError::OutOfMemory, "out of memory"),
];

const RESULTS: [(InstallError, &str); 5] = [
    (InstallError::WrongJob, "the result is of another job"),
    (
        InstallError::BadResult,
        "the tables are no outputs of the job",
    ),
    (
        InstallError::NumbersExhausted,
        "the version or file numbers are exhausted",
    ),
    (InstallError::OutOfMemory, "out of memory"),
    (InstallError::Device, "the vault failed"),
];

#[test]
fn a_refusal_says_why(rt: HostRuntime) -> Result<(), Fail> {
    for (error, wanted) in REFUSALS {
        let text = format!(in rt.alloc(); "{error}")?;
        assert!(rt; text.as_str() == wanted);
    }
    Ok(())
}

#[test]
fn a_refusal_of_a_result_says_why(rt: HostRuntime) -> Result<(), Fail> {
    for (error, wanted) in RESULTS {
        let text = format!(in rt.alloc(); "{error}")?;
        assert!(rt; text.as_str() == wanted);
    }
    Ok(())
}
