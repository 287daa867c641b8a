//! Why a line is refused: one list of reasons for the lines of sessions, of imports and of scripts.

use thiserror::Error;

/// What is wrong with a line. Of several faults of a line the first from left to right counts, but the number of words
/// is tested before any of them is read. In a batch it is reported for an operation that lacks a word. What helps is to
/// write the line as its command takes it.
#[derive(Clone, Copy, Debug, PartialEq, Eq, Error)]
pub enum Reason {
    /// No command has the first word as its name.
    #[error("unknown command")]
    UnknownCommand,
    /// The command has too few or too many words behind its name.
    #[error("wrong number of words")]
    WrongWordCount,
    /// A word has to be a number below 2^64, the index of a node or a range of numbers, and is none.
    #[error("bad number")]
    BadNumber,
    /// A word has to name a snapshot, a node or an operation, and names none.
    #[error("bad name")]
    BadName,
    /// A key or a value has a byte outside `!` to `~`, or a `%` without two hexadecimal digits behind it.
    #[error("bad token")]
    BadToken,
}
