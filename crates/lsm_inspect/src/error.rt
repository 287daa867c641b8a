//! Why the data of a store is not checked or dumped.

use std::alloc::{AllocError, AllocFailed};
use std::io;
use thiserror::Error;

/// Why the data of a store is not checked or dumped.
#[derive(Debug, Drop, Error)]
pub enum InspectError {
    /// Memory ran out. A part of the dump may have been written. Read the folder again once there is more.
    #[error("out of memory")]
    OutOfMemory,
    /// The bytes of an edit are no edit, or it does not apply to the version before it. So it is not known which files
    /// there are: go back to a copy of the folder.
    #[error("an edit of the manifest is not valid")]
    BadManifest,
    /// The output of a dump failed. A part of the dump may have been written: dump to another output.
    #[error("the dump could not be written: {0}")]
    Write(io::Error),
}

impl From<AllocError> for InspectError {
    ghost use Rattle.std.specs.Prelude.{◌≡◌};
    ghost use Rattle.lsm_inspect.specs.declared.error.InspectError.TheVariants.{OutOfMemory};

    ghost from_gives = { λ _ e. e ≡ OutOfMemory };

    fn from(_e: AllocError) -> InspectError {
        InspectError::OutOfMemory
    }
}

impl<T: Drop> From<AllocFailed<T>> for InspectError {
    ghost use Rattle.std.specs.Prelude.{◌≡◌};
    ghost use Rattle.lsm_inspect.specs.declared.error.InspectError.TheVariants.{OutOfMemory};

    ghost from_gives = { λ _ e. e ≡ OutOfMemory };

    fn from(_e: AllocFailed<T>) -> InspectError {
        InspectError::OutOfMemory
    }
}

impl From<io::Error> for InspectError {
    ghost use Rattle.lsm_inspect.specs.Check.{IsWriteError};

    ghost from_gives = { λ _ e. IsWriteError e };

    fn from(why: io::Error) -> InspectError {
        if why.kind() == io::ErrorKind::OutOfMemory {
            InspectError::OutOfMemory
        } else {
            InspectError::Write(why)
        }
    }
}
