//! Why a vault is not opened: each reason says which part of it is bad, or what failed or ran out.

use lsm_vault::VaultError;
use std::alloc::{AllocError, AllocFailed};
use thiserror::Error;

/// Why a vault is not opened, the first reason that holds; out of memory and a device failure may come in any place.
#[derive(Clone, Copy, Debug, PartialEq, Eq, Error)]
pub enum OpenError {
    #[error("out of memory")]
    OutOfMemory,
    #[error("an edit of the manifest is not valid")]
    BadManifest,
    #[error("a file's table is missing or not as recorded")]
    MissingTable,
    #[error("a record of the log is not valid or not in its place")]
    BadLog,
    #[error("the device failed")]
    Device,
    #[error("the version or epoch numbers are exhausted")]
    NumbersExhausted,
}

impl From<AllocError> for OpenError {
    ghost use Rattle.std.specs.Prelude.{◌≡◌};
    ghost use Rattle.lsm_versions.specs.declared.error.OpenError.TheVariants.{OutOfMemory};

    ghost from_gives = { λ _ e. e ≡ OutOfMemory };

    fn from(_e: AllocError) -> OpenError {
        OpenError::OutOfMemory
    }
}

impl<T: Drop> From<AllocFailed<T>> for OpenError {
    ghost use Rattle.std.specs.Prelude.{◌≡◌};
    ghost use Rattle.lsm_versions.specs.declared.error.OpenError.TheVariants.{OutOfMemory};

    ghost from_gives = { λ _ e. e ≡ OutOfMemory };

    fn from(_e: AllocFailed<T>) -> OpenError {
        OpenError::OutOfMemory
    }
}

impl From<VaultError> for OpenError {
    ghost use Rattle.std.specs.Prelude.{◌≡◌};
    ghost use Rattle.lsm_versions.specs.Opening.{open_error};

    ghost from_gives = { λ why e. e ≡ open_error why };

    fn from(why: VaultError) -> OpenError {
        match why {
            VaultError::OutOfMemory => OpenError::OutOfMemory,
            VaultError::Device => OpenError::Device,
        }
    }
}
