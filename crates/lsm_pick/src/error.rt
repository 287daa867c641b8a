//! Why nothing can be picked though a level is due: the error of `pick`.

use std::alloc::{AllocError, AllocFailed};
use thiserror::Error;

/// Why nothing can be picked though a level needs compaction.
#[derive(Clone, Copy, Debug, PartialEq, Eq, Error)]
pub enum PickError {
    /// A running job may block one that does not exceed it: pick again once one has ended.
    #[error("every compaction that no running job blocks exceeds a job size limit")]
    TooWide,
    #[error("out of memory")]
    OutOfMemory,
}

impl From<AllocError> for PickError {
    ghost use Rattle.std.specs.Prelude.{◌≡◌};
    ghost use Rattle.lsm_pick.specs.declared.error.PickError.TheVariants.{OutOfMemory};

    ghost from_gives = { λ _ e. e ≡ OutOfMemory };

    fn from(_e: AllocError) -> PickError {
        PickError::OutOfMemory
    }
}

impl<T: Drop> From<AllocFailed<T>> for PickError {
    ghost use Rattle.std.specs.Prelude.{◌≡◌};
    ghost use Rattle.lsm_pick.specs.declared.error.PickError.TheVariants.{OutOfMemory};

    ghost from_gives = { λ _ e. e ≡ OutOfMemory };

    fn from(_e: AllocFailed<T>) -> PickError {
        PickError::OutOfMemory
    }
}
