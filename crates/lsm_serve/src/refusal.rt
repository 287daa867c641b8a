//! Why a request is refused: what its error line says. The requests behind it are answered all the same.

use crate::Command;
use lsm_store::StoreError;
use thiserror::Error;

/// Why a request is refused. The store holds what it held before, but for a `DEL` of several keys: those before the
/// one that is refused are deleted.
#[derive(Clone, Copy, Debug, PartialEq, Eq, Error)]
pub enum CommandRefusal {
    /// No command has this name. Those that there are stand in `Command`.
    #[error("unknown command")]
    UnknownCommand,
    /// The command has too few or too many arguments. Send it with as many as it takes.
    #[error("wrong number of arguments for '{0}' command")]
    WrongCount(Command),
    /// There are options behind the key and the value of a `SET`, and none is taken. Send it without them.
    #[error("syntax error")]
    Syntax,
    /// The limit of a `RANGE` is no decimal number up to `MAX_RANGE_KEYS`. Ask for fewer keys, and then for the next
    /// ones.
    #[error("value is not an integer or out of range")]
    NoNumber,
    /// There is one database, of the index 0. Select that one.
    #[error("DB index is out of range")]
    NoDatabase,
    /// The store refuses it. What helps is said at the reason.
    #[error("{0}")]
    Store(StoreError),
}
