//! Why no more is read or written: one error for both, since programs do both and end on either.

use std::alloc::{AllocError, AllocFailed};
use thiserror::Error;

/// Why no more is read or written.
#[derive(Clone, Copy, Debug, PartialEq, Eq, Error)]
pub enum StreamError {
    /// The reader failed.
    #[error("the input could not be read")]
    ReadFault,
    /// The writer failed, or takes nothing.
    #[error("the output could not be written")]
    WriteFault,
    #[error("out of memory")]
    OutOfMemory,
}

impl From<AllocError> for StreamError {
    ghost use Rattle.std.specs.Prelude.{◌≡◌};
    ghost use Rattle.lsm_io.specs.declared.error.StreamError.TheVariants.{OutOfMemory};

    ghost from_gives = { λ _ e. e ≡ OutOfMemory };

    fn from(_e: AllocError) -> StreamError {
        StreamError::OutOfMemory
    }
}

impl<T: Drop> From<AllocFailed<T>> for StreamError {
    ghost use Rattle.std.specs.Prelude.{◌≡◌};
    ghost use Rattle.lsm_io.specs.declared.error.StreamError.TheVariants.{OutOfMemory};

    ghost from_gives = { λ _ e. e ≡ OutOfMemory };

    fn from(_e: AllocFailed<T>) -> StreamError {
        StreamError::OutOfMemory
    }
}
