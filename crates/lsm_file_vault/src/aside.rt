//! Files that are set aside: under names that nobody reads, of which none is ever written over.

use crate::host_folder::{sync_folder, write_file};
use crate::names::{file_path, lost_bytes_name, lost_table_name};
use lsm_key::FileNumber;
use std::fs;
use std::io::{self, ErrorKind};
use std::rt::Files;

/// Writes the torn bytes of the file `of`, which begin there at this offset, to a file of their own, so that they outlive the process.
/// Returns its name.
pub(crate) fn write_lost_bytes<R: Files + AllocGlobal>(
    files: &R,
    path: &str,
    of: &str,
    offset: u64,
    torn: &[u8],
) -> io::Result<String> {
    let alloc = files.alloc();
    for copy in 1..u64::MAX {
        let name = lost_bytes_name(alloc, of, offset, copy)?;
        let file = file_path(alloc, path, name.as_str())?;
        if is_free(files, file.as_str())? {
            write_file(files, file.as_str(), &[], torn)?;
            sync_folder(files, path)?;
            return Ok(name);
        }
    }
    Err(ErrorKind::AlreadyExists.into())
}

/// Renames the file of a table, if there is one, and returns its new name.
pub(crate) fn rename_lost_table<R: Files + AllocGlobal>(
    files: &R,
    path: &str,
    number: FileNumber,
    table_file: &str,
) -> io::Result<Option<String>> {
    if is_free(files, table_file)? {
        return Ok(None);
    }
    let alloc = files.alloc();
    for copy in 1..u64::MAX {
        let name = lost_table_name(alloc, number, copy)?;
        let file = file_path(alloc, path, name.as_str())?;
        if is_free(files, file.as_str())? {
            fs::rename(files, table_file, file.as_str())?;
            return Ok(Some(name));
        }
    }
    Err(ErrorKind::AlreadyExists.into())
}

// Whether no file has this path.
fn is_free(files: &impl Files, file: &str) -> io::Result<bool> {
    match fs::symlink_metadata(files, file) {
        Ok(_) => Ok(false),
        Err(error) if error.kind() == ErrorKind::NotFound => Ok(true),
        Err(error) => Err(error),
    }
}
