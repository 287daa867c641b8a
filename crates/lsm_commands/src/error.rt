//! Why a command fails: a word, the store or what its folder holds is refused, a standard stream fails, or memory runs
//! out.

use crate::Screen;
use lsm_file_vault::FolderError;
use lsm_inspect::InspectError;
use lsm_io::StreamError;
use lsm_options::{FAILED, REFUSED};
use lsm_store::StoreError;
use std::alloc::{AllocError, AllocFailed};
use std::process::ExitCode;
use std::{fmt, io};

/// Why a command fails.
#[derive(Drop)]
pub(crate) enum CommandError {
    /// The folder is not opened, or memory ran out. The reason names the file or the folder: mend it, or take another.
    Folder(FolderError),
    /// The folder is not there, or has no file, so that there is nothing to read. A put, an import or a session makes a
    /// store there.
    NoStore(String),
    /// The folder has no valid store, or its device failed, with what the system says of it. After a device failure try
    /// again; otherwise go back to a copy of the folder.
    Store(lsm_versions::OpenError, Option<io::Error>),
    /// The folder has no valid edits, or memory ran out, or its entries could not be written. What helps is said at the
    /// reason.
    Data(InspectError),
    /// An argument is no word, so that it spells no bytes. Write its bytes as the text says.
    NotAWord(String),
    /// The store refuses the call, and holds what it held. What helps is said at the reason.
    Refused(StoreError),
    /// The store could not be synced. What was written since the last sync is not answered, and may be lost: read what
    /// the store has, and write it again.
    NotSynced(StoreError),
    /// Standard input could not be read, or is not open. Some pairs of an import may be in the store. Run the command
    /// with another one.
    ReadFault,
    /// Standard output or standard error could not be written, only in part, or is not open. The call of an answer was
    /// made. Run the command with another one.
    WriteFault,
    /// Memory ran out outside of a call of the store. Some pairs of an import may be in the store: run the command again
    /// once there is more.
    OutOfMemory,
}

impl CommandError {
    /// Reports why a command of one call fails, and returns the exit status after it: 2 if a word, a key or a value is
    /// refused.
    pub(crate) fn end(&self, screen: &Screen<'_>) -> ExitCode {
        screen.report(self);
        match self {
            CommandError::NotAWord(_) | CommandError::Refused(StoreError::Key(_)) => {
                ExitCode::from(REFUSED)
            }
            _ => ExitCode::from(FAILED),
        }
    }
}

impl fmt::Display for CommandError {
    fn fmt<W: fmt::Write>(&self, f: &mut fmt::Formatter<W>) -> fmt::Result {
        match self {
            CommandError::Folder(why) => write!(f, "{why}"),
            CommandError::NoStore(folder) => write!(
                f,
                "{folder} has no store: 'put', 'import' or 'store' with '--dir {folder}' makes one"
            ),
            CommandError::Store(why, _) => write!(f, "the store is not opened: {why}"),
            CommandError::Data(why) => write!(f, "{why}"),
            CommandError::NotAWord(word) => write!(
                f,
                "error: '{word}' is not a word: a space in it is written %20, and any other byte % and two hexadecimal digits"
            ),
            CommandError::Refused(why) => write!(f, "error: {why}"),
            CommandError::NotSynced(why) => write!(f, "error: not synced: {why}"),
            CommandError::ReadFault => f.write_str("read fault"),
            CommandError::WriteFault => f.write_str("write fault"),
            CommandError::OutOfMemory => f.write_str("out of memory"),
        }
    }
}

impl From<FolderError> for CommandError {
    fn from(why: FolderError) -> CommandError {
        CommandError::Folder(why)
    }
}

impl From<InspectError> for CommandError {
    fn from(why: InspectError) -> CommandError {
        CommandError::Data(why)
    }
}

impl From<StoreError> for CommandError {
    fn from(why: StoreError) -> CommandError {
        CommandError::Refused(why)
    }
}

impl From<AllocError> for CommandError {
    fn from(_e: AllocError) -> CommandError {
        CommandError::OutOfMemory
    }
}

impl<T: Drop> From<AllocFailed<T>> for CommandError {
    fn from(_e: AllocFailed<T>) -> CommandError {
        CommandError::OutOfMemory
    }
}

impl From<StreamError> for CommandError {
    fn from(why: StreamError) -> CommandError {
        match why {
            StreamError::ReadFault => CommandError::ReadFault,
            StreamError::WriteFault => CommandError::WriteFault,
            StreamError::OutOfMemory => CommandError::OutOfMemory,
        }
    }
}
