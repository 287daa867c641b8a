//! Why serving ends before the input does: the error of `serve`. A request that is refused does not end it.

use crate::HttpWord;
use lsm_io::{SinkError, SourceError};
use lsm_resp::ProtocolFault;
use lsm_store::StoreError;
use std::alloc::{AllocError, AllocFailed};
use thiserror::Error;

/// Why serving ends before the input does, or at its end.
#[derive(Clone, Copy, Debug, PartialEq, Eq, Error)]
pub enum ServeError {
    /// The input is no request within the limits. That was answered, and nothing behind it is run: begin a new stream.
    #[error("protocol error: {0}")]
    Protocol(ProtocolFault),
    /// A request begins as one of HTTP does, so a web page may have sent it. Neither it nor what follows is run or
    /// answered: close the stream.
    #[error("a request begins with {0}, as one of HTTP does")]
    Http(HttpWord),
    /// The input ends within a request. Those before it were answered: send the last one again, in a new stream.
    #[error("the input ends within a request")]
    Truncated,
    /// The input could not be read. The whole requests that had come were answered: begin a new stream.
    #[error("the input could not be read")]
    ReadFault,
    /// The replies could not be written, or only in part. What was run is in the store: begin a new stream, and read
    /// what the store has.
    #[error("the output could not be written")]
    WriteFault,
    /// A stream was read or written as often as is counted, 2^64 - 1 times. Begin a new one.
    #[error("the input does not end")]
    NoEnd,
    /// The store could not be synced. No reply was written that answers a write since the last sync, and such a write
    /// may be lost: open the store again, and read what it has.
    #[error("not synced: {0}")]
    NotSynced(StoreError),
    /// Memory ran out. The request that was being answered may have been run: begin a new stream once there is more,
    /// and read what the store has.
    #[error("out of memory")]
    OutOfMemory,
}

impl From<AllocError> for ServeError {
    ghost use Rattle.std.specs.Prelude.{◌≡◌};
    ghost use Rattle.lsm_serve.specs.declared.error.ServeError.TheVariants.{OutOfMemory};

    ghost from_gives = { λ _ e. e ≡ OutOfMemory };

    fn from(_e: AllocError) -> ServeError {
        ServeError::OutOfMemory
    }
}

impl<T: Drop> From<AllocFailed<T>> for ServeError {
    ghost use Rattle.std.specs.Prelude.{◌≡◌};
    ghost use Rattle.lsm_serve.specs.declared.error.ServeError.TheVariants.{OutOfMemory};

    ghost from_gives = { λ _ e. e ≡ OutOfMemory };

    fn from(_e: AllocFailed<T>) -> ServeError {
        ServeError::OutOfMemory
    }
}

impl From<SourceError> for ServeError {
    ghost use Rattle.std.specs.Prelude.{◌≡◌};
    ghost use Rattle.lsm_serve.specs.Errors.{error_of_source};

    ghost from_gives = { λ why e. e ≡ error_of_source why };

    fn from(why: SourceError) -> ServeError {
        match why {
            SourceError::ReadFault => ServeError::ReadFault,
            SourceError::NoEnd => ServeError::NoEnd,
            SourceError::OutOfMemory => ServeError::OutOfMemory,
        }
    }
}

impl From<SinkError> for ServeError {
    ghost use Rattle.std.specs.Prelude.{◌≡◌};
    ghost use Rattle.lsm_serve.specs.Errors.{error_of_sink};

    ghost from_gives = { λ why e. e ≡ error_of_sink why };

    fn from(why: SinkError) -> ServeError {
        match why {
            SinkError::WriteFault => ServeError::WriteFault,
            SinkError::NoEnd => ServeError::NoEnd,
        }
    }
}
