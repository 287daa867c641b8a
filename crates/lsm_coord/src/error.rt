//! Why the coordinator refuses a call: each reason with its cause and with what the caller can do. An opening and an
//! install have errors of their own, whose reasons are all among these.

use crate::InstallError;
use lsm_vault::VaultError;
use std::alloc::{AllocError, AllocFailed};
use std::fmt;
use thiserror::Error;

/// Why the coordinator refuses a call, the first reason that holds; a device failure comes last. The numbers stay as they are.
/// `BadManifest`, `MissingTable` and `BadLog` are reasons of an opening, which reports them as an `OpenError`. What a
/// refusal leaves is said at each call.
#[derive(Clone, Copy, Debug, PartialEq, Eq, Error)]
pub enum CoordError {
    /// Memory ran out. The call may be made again once there is more.
    OutOfMemory = 0,
    /// An edit of the manifest is damaged, or does not apply to the version before it. No call mends the vault: go back
    /// to a copy of it.
    BadManifest = 1,
    /// The vault lacks the table of a file, or has another one than the file's record says. Go back to a copy of the
    /// vault.
    MissingTable = 2,
    /// The vault's device failed. The call may be made again; if it goes on failing, close the store and open its vault
    /// again.
    Device = 3,
    /// The batch has more operations than there are sequences left, of 2^56 - 1. A store that has none left can be
    /// read, and what it has can be written to a new one.
    SequenceExhausted = 4,
    /// A memtable is frozen and not flushed yet. Flush it, and freeze again.
    FrozenWaiting = 5,
    /// The active memtable is empty. A freeze is of use after the next write.
    NothingToFreeze = 6,
    /// No memtable is frozen, and the active one is empty: every write is in a table. A flush is of use after the next
    /// write.
    NothingToFlush = 7,
    /// `MAX_SNAPSHOTS` snapshots are live. Release one of them first.
    TooManySnapshots = 8,
    /// No snapshot of this name is live: it was released, or the store was opened again since. Make another one, or
    /// read the latest.
    NoSnapshot = 9,
    /// The result names another job than the claim does. Install the one of the claim's own job, or give the claim
    /// back.
    WrongJob = 10,
    /// A table of the result is damaged, has another block target than the store, or has a key that is outside of the
    /// job's or not after those of the table before it. Have the job done again, or give the claim back.
    BadResult = 11,
    /// The active memtable would weigh more than `MAX_MEMTABLE_WEIGHT` with the batch. Flush it, which takes a frozen one
    /// first, or freeze it, and write the batch again.
    MemtableFull = 12,
    /// The batch has no operation. There is nothing to write.
    EmptyBatch = 13,
    /// `MAX_LIVE_CLAIMS` claims are live. Install the result of one of them, or give one back, and pick again.
    BookFull = 14,
    /// A level needs compaction, but each one that no running job blocks exceeds `MAX_INPUTS`, `MAX_INPUT_BYTES` or
    /// `MAX_DEEPER`. Pick again once a running job has ended: it may block one that does not.
    TooWide = 15,
    /// The floor would be above the current version. Trim to that one, or to an earlier one.
    BadFloor = 16,
    /// The next version, file, snapshot or job would have a number above `MAX_NUMBER`. Snapshots and jobs are numbered
    /// anew once the store is opened again; versions and files never are, and what the store has can be written to a
    /// new one.
    NumbersExhausted = 17,
    /// A record of the log is damaged, does not follow on those before it, or makes a memtable too heavy. Go back to a
    /// copy of the vault.
    BadLog = 18,
}

impl CoordError {
    // The same in words.
    fn text(self) -> &'static str {
        match self {
            CoordError::OutOfMemory => "out of memory",
            CoordError::BadManifest => "an edit of the manifest is not valid",
            CoordError::MissingTable => "a file's table is missing or not as recorded",
            CoordError::Device => "the vault failed",
            CoordError::SequenceExhausted => "the sequences are exhausted",
            CoordError::FrozenWaiting => "a frozen memtable waits",
            CoordError::NothingToFreeze => "there is nothing to freeze",
            CoordError::NothingToFlush => "there is nothing to flush",
            CoordError::TooManySnapshots => "too many snapshots are live",
            CoordError::NoSnapshot => "no such snapshot is live",
            CoordError::WrongJob => "the result is of another job",
            CoordError::BadResult => "the tables are no outputs of the job",
            CoordError::MemtableFull => "the memtable is full",
            CoordError::EmptyBatch => "the batch is empty",
            CoordError::BookFull => "four claims are live",
            CoordError::TooWide =>
                "every compaction that no running job blocks exceeds a job size limit",
            CoordError::BadFloor => "the floor is above the current version",
            CoordError::NumbersExhausted =>
                "the version, file, snapshot or job numbers are exhausted",
            CoordError::BadLog => "a record of the log is not valid or not in its place",
        }
    }
}

impl fmt::Display for CoordError {
    fn fmt<W: fmt::Write>(&self, f: &mut fmt::Formatter<W>) -> fmt::Result {
        f.write_str(self.text())
    }
}

impl From<AllocError> for CoordError {
    ghost use Rattle.std.specs.Prelude.{◌≡◌};
    ghost use Rattle.lsm_coord.specs.declared.error.CoordError.TheVariants.{OutOfMemory};

    ghost from_gives = { λ _ e. e ≡ OutOfMemory };

    fn from(_e: AllocError) -> CoordError {
        CoordError::OutOfMemory
    }
}

impl<T: Drop> From<AllocFailed<T>> for CoordError {
    ghost use Rattle.std.specs.Prelude.{◌≡◌};
    ghost use Rattle.lsm_coord.specs.declared.error.CoordError.TheVariants.{OutOfMemory};

    ghost from_gives = { λ _ e. e ≡ OutOfMemory };

    fn from(_e: AllocFailed<T>) -> CoordError {
        CoordError::OutOfMemory
    }
}

impl From<InstallError> for CoordError {
    ghost use Rattle.std.specs.Prelude.{◌≡◌};
    ghost use Rattle.lsm_coord.specs.Contract.Replies.{error_of};

    ghost from_gives = { λ why e. e ≡ error_of why };

    fn from(why: InstallError) -> CoordError {
        match why {
            InstallError::WrongJob => CoordError::WrongJob,
            InstallError::BadResult => CoordError::BadResult,
            InstallError::NumbersExhausted => CoordError::NumbersExhausted,
            InstallError::OutOfMemory => CoordError::OutOfMemory,
            InstallError::Device => CoordError::Device,
        }
    }
}

impl From<VaultError> for CoordError {
    ghost use Rattle.std.specs.Prelude.{◌≡◌};
    ghost use Rattle.lsm_coord.specs.Contract.Replies.{call_error};

    ghost from_gives = { λ why e. e ≡ call_error why };

    fn from(why: VaultError) -> CoordError {
        match why {
            VaultError::OutOfMemory => CoordError::OutOfMemory,
            VaultError::Device => CoordError::Device,
        }
    }
}
