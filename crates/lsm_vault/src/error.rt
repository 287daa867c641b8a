//! Why a vault refuses a call: the two reasons that a store tells apart.

use std::alloc::{AllocError, AllocFailed};
use thiserror::Error;

/// Why a vault refuses a call, which then stored and removed nothing.
#[derive(Clone, Copy, Debug, PartialEq, Eq, Error)]
pub enum VaultError {
    #[error("out of memory")]
    OutOfMemory,
    #[error("the device failed")]
    Device,
}

impl From<AllocError> for VaultError {
    ghost use Rattle.std.specs.Prelude.{◌≡◌};
    ghost use Rattle.lsm_vault.specs.declared.error.VaultError.TheVariants.{OutOfMemory};

    ghost from_gives = { λ _ e. e ≡ OutOfMemory };

    fn from(_e: AllocError) -> VaultError {
        VaultError::OutOfMemory
    }
}

impl<T: Drop> From<AllocFailed<T>> for VaultError {
    ghost use Rattle.std.specs.Prelude.{◌≡◌};
    ghost use Rattle.lsm_vault.specs.declared.error.VaultError.TheVariants.{OutOfMemory};

    ghost from_gives = { λ _ e. e ≡ OutOfMemory };

    fn from(_e: AllocFailed<T>) -> VaultError {
        VaultError::OutOfMemory
    }
}
