//! Why a folder is not opened: each error names the file or the folder, so that its line says what to look at.

use lsm_key::FileNumber;
use std::alloc::{AllocError, AllocFailed, Global};
use std::{fmt, io};
use thiserror::Error;

/// Why a folder is not opened or read. Each names the file or the folder.
#[derive(Debug, Drop, Error)]
pub enum FolderError {
    #[error("out of memory")]
    OutOfMemory,
    /// A call on a file or on a folder failed.
    #[error("{path} could not be {call}: {error}")]
    Io {
        path: String,
        call: FileCall,
        error: io::Error,
    },
    #[error("the path {path} is not a folder")]
    NotAFolder {
        path: String,
    },
    /// Another process has the folder open.
    #[error("the folder {path} is in use by another process")]
    Busy {
        path: String,
    },
    /// The folder has a file that no vault writes.
    #[error("the file {file} does not belong to a store")]
    ForeignFile {
        file: String,
    },
    /// The folder has tables or a log that is not empty, and no file of edits: it was there before each of them.
    #[error("the file {file} is missing, and the folder has tables or a log")]
    MissingEdits {
        file: String,
    },
    /// The table of this number is not what was written.
    #[error("the file {file} is damaged: it does not hold the table {}", .number.number())]
    DamagedTable {
        file: String,
        number: FileNumber,
    },
    /// An edit is not what was written, and others may follow it. The edit begins at this offset.
    #[error("the file {file} is damaged: the edit at offset {offset} is not whole")]
    DamagedEdits {
        file: String,
        offset: u64,
    },
    /// A record of the log is not what was written, and others may follow it. The record begins at this offset.
    #[error("the file {file} is damaged: the log record at offset {offset} is not whole")]
    DamagedLog {
        file: String,
        offset: u64,
    },
}

/// A call on a file, or on a folder.
#[derive(Clone, Copy, Debug, PartialEq, Eq)]
pub enum FileCall {
    Create,
    List,
    Open,
    Read,
    Write,
    Sync,
    Lock,
}

impl fmt::Display for FileCall {
    fn fmt<W: fmt::Write>(&self, f: &mut fmt::Formatter<W>) -> fmt::Result {
        f.write_str(match self {
            FileCall::Create => "created",
            FileCall::List => "listed",
            FileCall::Open => "opened",
            FileCall::Read => "read",
            FileCall::Write => "written",
            FileCall::Sync => "synced",
            FileCall::Lock => "locked",
        })
    }
}

impl FolderError {
    /// Why a call on the file or folder at this path failed.
    pub(crate) fn io(alloc: Global, call: FileCall, path: &str, error: io::Error) -> FolderError {
        if error.kind() == io::ErrorKind::OutOfMemory {
            return FolderError::OutOfMemory;
        }
        match String::from_str(alloc, path) {
            Ok(path) => FolderError::Io { path, call, error },
            Err(_) => FolderError::OutOfMemory,
        }
    }
}

/// What a call on the file or folder at this path returned, its error as the one of an opening.
pub(crate) fn called<T>(
    alloc: Global,
    call: FileCall,
    path: &str,
    returned: io::Result<T>,
) -> Result<T, FolderError> {
    match returned {
        Ok(value) => Ok(value),
        Err(error) => Err(FolderError::io(alloc, call, path, error)),
    }
}

impl From<AllocError> for FolderError {
    fn from(_e: AllocError) -> FolderError {
        FolderError::OutOfMemory
    }
}

impl<T: Drop> From<AllocFailed<T>> for FolderError {
    fn from(_e: AllocFailed<T>) -> FolderError {
        FolderError::OutOfMemory
    }
}
