//! Why a request is not read.

use std::alloc::{AllocError, AllocFailed};
use thiserror::Error;

/// Why bytes are no request within the limits.
#[derive(Clone, Copy, Debug, PartialEq, Eq, Error)]
pub enum ProtocolFault {
    /// The line behind `*` or `$` is too long, or no number of decimal digits.
    #[error("invalid length")]
    BadLength,
    /// More than `MAX_WORDS` words are announced.
    #[error("invalid multibulk length")]
    TooManyWords,
    /// A word of more than `MAX_WORD_BYTES` bytes is announced.
    #[error("invalid bulk length")]
    WordTooLong,
    /// The words have more than `MAX_REQUEST_BYTES` bytes together.
    #[error("too big request")]
    RequestTooLong,
    /// A word does not begin with `$`.
    #[error("expected '$'")]
    NoBulk,
    /// A word does not end with a carriage return and a line feed.
    #[error("expected a line end behind the bulk string")]
    NoLineEnd,
    /// An inline request has more than `MAX_LINE_BYTES` bytes.
    #[error("too big inline request")]
    LineTooLong,
}

/// Why a request is not read.
#[derive(Clone, Copy, Debug, PartialEq, Eq, Error)]
pub enum ParseError {
    /// The bytes are no request within the limits.
    #[error("{0}")]
    Protocol(ProtocolFault),
    #[error("out of memory")]
    OutOfMemory,
}

impl From<ProtocolFault> for ParseError {
    ghost use Rattle.std.specs.Prelude.{◌≡◌};
    ghost use Rattle.lsm_resp.specs.declared.fault.ParseError.TheVariants.{Protocol};

    ghost from_gives = { λ why e. e ≡ Protocol why };

    fn from(why: ProtocolFault) -> ParseError {
        ParseError::Protocol(why)
    }
}

impl From<AllocError> for ParseError {
    ghost use Rattle.std.specs.Prelude.{◌≡◌};
    ghost use Rattle.lsm_resp.specs.declared.fault.ParseError.TheVariants.{OutOfMemory};

    ghost from_gives = { λ _ e. e ≡ OutOfMemory };

    fn from(_e: AllocError) -> ParseError {
        ParseError::OutOfMemory
    }
}

impl<T: Drop> From<AllocFailed<T>> for ParseError {
    ghost use Rattle.std.specs.Prelude.{◌≡◌};
    ghost use Rattle.lsm_resp.specs.declared.fault.ParseError.TheVariants.{OutOfMemory};

    ghost from_gives = { λ _ e. e ≡ OutOfMemory };

    fn from(_e: AllocFailed<T>) -> ParseError {
        ParseError::OutOfMemory
    }
}
