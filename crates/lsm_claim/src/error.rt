//! Why a claim is refused: the error of `ClaimBook::claim`, which names the job in the way.

use crate::JobId;
use std::alloc::{AllocError, AllocFailed};
use thiserror::Error;

/// Why a claim is refused: the first reason that holds.
#[derive(Clone, Copy, Debug, PartialEq, Eq, Error)]
pub enum ClaimError {
    /// This live job shares a level and a key with the one that is asked for. Claim that one once this one has ended.
    #[error("the live job {0} shares a level, and has a key in common")]
    Overlaps(JobId),
    /// `MAX_LIVE_CLAIMS` claims are live. Settle one of them first.
    #[error("four claims are live")]
    BookFull,
    /// The epoch has issued `MAX_NUMBER` claims. The next epoch numbers its jobs from 1.
    #[error("the job numbers are exhausted")]
    NumbersExhausted,
    #[error("out of memory")]
    OutOfMemory,
}

impl From<AllocError> for ClaimError {
    ghost use Rattle.std.specs.Prelude.{◌≡◌};
    ghost use Rattle.lsm_claim.specs.declared.error.ClaimError.TheVariants.{OutOfMemory};

    ghost from_gives = { λ _ e. e ≡ OutOfMemory };

    fn from(_e: AllocError) -> ClaimError {
        ClaimError::OutOfMemory
    }
}

impl<T: Drop> From<AllocFailed<T>> for ClaimError {
    ghost use Rattle.std.specs.Prelude.{◌≡◌};
    ghost use Rattle.lsm_claim.specs.declared.error.ClaimError.TheVariants.{OutOfMemory};

    ghost from_gives = { λ _ e. e ≡ OutOfMemory };

    fn from(_e: AllocFailed<T>) -> ClaimError {
        ClaimError::OutOfMemory
    }
}
