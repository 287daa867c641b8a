//! Why messages over a pipe end: one error for frames, for messages and for the worker.

ghost use Rattle.std.specs.Prelude.{◌≡◌};
ghost use Rattle.lsm_pipe.specs.declared.error.PipeError.TheVariants.{OutOfMemory};
ghost use Rattle.lsm_pipe.specs.Frames.{sink_error_of, source_error_of};

use lsm_io::{SinkError, SourceError};
use std::alloc::{AllocError, AllocFailed};
use thiserror::Error;

/// Why messages over a pipe end. After a refused read it is not known where the next frame begins, so what helps is a
/// new pipe.
#[derive(Clone, Copy, Debug, PartialEq, Eq, Error)]
pub enum PipeError {
    /// The input ends inside a frame: whoever wrote it has ended. Start it again, with a new pipe.
    #[error("the input ends inside a frame")]
    EndsInside,
    /// A frame announces more bytes than a message may have, `MAX_MESSAGE_BYTES`: what comes is not made of frames.
    /// Look at what writes to the pipe.
    #[error("a frame announces more bytes than a message may have")]
    TooLong,
    /// The bytes of a frame are no message, or are damaged. Look at what writes to the pipe.
    #[error("a frame has no message")]
    NotMessage,
    /// A message has too many bytes to be sent, and nothing of it was written. It is refused whenever it is sent.
    #[error("a message has too many bytes")]
    TooLarge,
    /// The worker gave its job up: one of its inputs is no longer served, or two inputs share an entry. Report it as
    /// gone, so that its job is free again, and start another one.
    #[error("the worker gave its job up")]
    GaveUp,
    /// A stream was read or written as often as is counted, 2^64 - 1 times. Start over with a new pipe.
    #[error("the input does not end")]
    NoEnd,
    /// The input could not be read. Start over with a new pipe.
    #[error("read fault")]
    ReadFault,
    /// The output could not be written, or only in part. Start over with a new pipe.
    #[error("write fault")]
    WriteFault,
    /// Memory ran out. Start over with a new pipe once there is more.
    #[error("out of memory")]
    OutOfMemory,
}

impl From<AllocError> for PipeError {
    ghost from_gives = { λ _ e. e ≡ OutOfMemory };

    fn from(_e: AllocError) -> PipeError {
        PipeError::OutOfMemory
    }
}

impl<T: Drop> From<AllocFailed<T>> for PipeError {
    ghost from_gives = { λ _ e. e ≡ OutOfMemory };

    fn from(_e: AllocFailed<T>) -> PipeError {
        PipeError::OutOfMemory
    }
}

impl From<SourceError> for PipeError {
    ghost from_gives = { λ why e. e ≡ source_error_of why };

    fn from(why: SourceError) -> PipeError {
        match why {
            SourceError::ReadFault => PipeError::ReadFault,
            SourceError::NoEnd => PipeError::NoEnd,
            SourceError::OutOfMemory => PipeError::OutOfMemory,
        }
    }
}

impl From<SinkError> for PipeError {
    ghost from_gives = { λ why e. e ≡ sink_error_of why };

    fn from(why: SinkError) -> PipeError {
        match why {
            SinkError::WriteFault => PipeError::WriteFault,
            SinkError::NoEnd => PipeError::NoEnd,
        }
    }
}
