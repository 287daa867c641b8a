//! Why a store refuses a call: the key or the value, or the reason of its coordinator.

use lsm_coord::CoordError;
use lsm_key::KeyError;
use std::alloc::{AllocError, AllocFailed};
use thiserror::Error;

/// Why a store refuses a call. It holds what it held before, and the call can be tried again; after a refused sync a
/// vault may refuse each further one.
#[derive(Clone, Copy, Debug, PartialEq, Eq, Error)]
pub enum StoreError {
    /// A key or a value is outside its limits, or a batch is full; never that memory ran out. Write a shorter one, a
    /// key that is not empty, or fewer operations at once.
    #[error("{0}")]
    Key(KeyError),
    /// The coordinator refuses the call, for a reason of its own or since memory ran out. What helps is said at the
    /// reason.
    #[error("{0}")]
    Coord(CoordError),
}

impl From<CoordError> for StoreError {
    ghost use Rattle.std.specs.Prelude.{◌≡◌};
    ghost use Rattle.lsm_store.specs.declared.error.StoreError.TheVariants.{Coord};

    ghost from_gives = { λ why e. e ≡ Coord why };

    fn from(why: CoordError) -> StoreError {
        StoreError::Coord(why)
    }
}

impl From<KeyError> for StoreError {
    ghost use Rattle.std.specs.Prelude.{◌≡◌};
    ghost use Rattle.lsm_store.specs.Errors.{error_of_key};

    ghost from_gives = { λ why e. e ≡ error_of_key why };

    fn from(why: KeyError) -> StoreError {
        match why {
            KeyError::OutOfMemory => StoreError::Coord(CoordError::OutOfMemory),
            _ => StoreError::Key(why),
        }
    }
}

impl From<AllocError> for StoreError {
    ghost use Rattle.std.specs.Prelude.{◌≡◌};
    ghost use Rattle.lsm_coord.specs.declared.error.CoordError.TheVariants.{OutOfMemory};
    ghost use Rattle.lsm_store.specs.declared.error.StoreError.TheVariants.{Coord};

    ghost from_gives = { λ _ e. e ≡ Coord OutOfMemory };

    fn from(_e: AllocError) -> StoreError {
        StoreError::Coord(CoordError::OutOfMemory)
    }
}
