//! Why tables are not merged: the error of `merge` and of a walk.

use std::alloc::{AllocError, AllocFailed};
use thiserror::Error;

/// Why tables are not merged: the first reason that holds.
#[derive(Clone, Copy, Debug, PartialEq, Eq, Error)]
pub enum MergeError {
    /// There is not one table for each input of the job, or a table is not as the file record at its position says: by
    /// its least and greatest key, its length in bytes or its number of entries.
    #[error("the tables are not the inputs of the job")]
    WrongInputs,
    /// A read could not tell the two apart.
    #[error("two inputs share an entry's key and sequence")]
    SameEntry,
    #[error("out of memory")]
    OutOfMemory,
}

impl From<AllocError> for MergeError {
    ghost use Rattle.std.specs.Prelude.{◌≡◌};
    ghost use Rattle.lsm_merge.specs.declared.error.MergeError.TheVariants.{OutOfMemory};

    ghost from_gives = { λ _ e. e ≡ OutOfMemory };

    fn from(_e: AllocError) -> MergeError {
        MergeError::OutOfMemory
    }
}

impl<T: Drop> From<AllocFailed<T>> for MergeError {
    ghost use Rattle.std.specs.Prelude.{◌≡◌};
    ghost use Rattle.lsm_merge.specs.declared.error.MergeError.TheVariants.{OutOfMemory};

    ghost from_gives = { λ _ e. e ≡ OutOfMemory };

    fn from(_e: AllocFailed<T>) -> MergeError {
        MergeError::OutOfMemory
    }
}
