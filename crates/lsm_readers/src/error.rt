//! Why nothing is read, published or made.

use thiserror::Error;

/// Why a reader does not answer.
#[derive(Clone, Copy, Debug, PartialEq, Eq, Error)]
pub enum ReadError {
    /// The writer is gone, or what was reached is older than what the reader has seen or was told. While the writer is
    /// there, a later read may reach what is published.
    #[error("the published version was not reached")]
    NotEntered,
    #[error("out of memory")]
    OutOfMemory,
}

/// Why a version is not shown to readers, which go on reading the one before.
#[derive(Clone, Copy, Debug, PartialEq, Eq, Error)]
pub enum PublishError {
    /// There is no memory for a copy of the version.
    #[error("the version was not taken: out of memory")]
    OutOfMemory,
    /// As many versions were published as a log has room for.
    #[error("the version was not taken: the log is full")]
    LogFull,
    /// Another writer published to the log.
    #[error("the version was not taken: another writer published to the log")]
    Overtaken,
    /// The version was taken, and is shown with the next one.
    #[error("the version waits for the next publication: out of memory")]
    Pending,
}

/// Why there are no readers.
#[derive(Clone, Copy, Debug, PartialEq, Eq, Error)]
pub enum ReadersError {
    #[error("a reader could not be made")]
    NoReader,
    #[error("out of memory")]
    OutOfMemory,
}
