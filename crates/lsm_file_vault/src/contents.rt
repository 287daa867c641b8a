//! What a folder holds, as it is read.

use crate::edits_file::{EditsFile, read_edits};
use crate::error::called;
use crate::frame::only_frame;
use crate::listing::{Listing, list};
use crate::names::{EDITS, LOG, file_path, table_path};
use crate::{FileCall, FolderError};
use bytes::Bytes;
use lsm_key::{FileNumber, Refused};
use lsm_vault::Tables;
use std::alloc::Global;
use std::fs;
use std::rt::Files;

/// What a folder holds.
#[derive(Drop)]
pub struct Contents {
    /// The tables whose files are whole.
    pub tables: Tables,
    /// The numbers of the tables whose files are damaged, in no order.
    pub damaged_tables: Vec<FileNumber>,
    /// The edits, in the order in which they were appended.
    pub edits: Vec<Bytes>,
    /// How many bytes the edits take in their file, with their frames.
    pub edits_bytes: u64,
    /// How many bytes are behind the last edit: what a stop has left of an append that was not synced, or a last edit that is damaged.
    pub torn_bytes: u64,
    /// These bytes.
    pub(crate) torn: Bytes,
    /// The records of the log, in the order in which they were appended.
    pub log: Vec<Bytes>,
    /// How many bytes the records take in their file, with their frames.
    pub log_bytes: u64,
    /// How many bytes are behind the last record: what a stop has left of appends that were not synced, or a last record that is damaged.
    pub torn_log_bytes: u64,
    /// These bytes.
    pub(crate) torn_log: Bytes,
    /// The names of the files that were set aside, in order.
    pub lost_files: Vec<String>,
    /// Whether there is a file that a table or a log was written to before it took its name.
    pub(crate) has_new: bool,
}

impl Contents {
    /// Reads the folder at `path`. It writes, cuts and locks nothing. A folder without a file of edits has none, no table and no log
    /// record, and one without a log an empty one.
    ///
    /// Damaged edits, a damaged log and a foreign file are errors. Damaged tables and torn bytes are reported.
    pub fn read<R: Files + AllocGlobal + Clone + Drop>(
        files: &R,
        path: &str,
    ) -> Result<Contents, FolderError> {
        let alloc = files.alloc();
        let mut tables = Tables::new(alloc);
        let mut damaged_tables = Vec::new(alloc);
        let Listing {
            numbers,
            lost_files,
            has_edits,
            has_log,
            has_new,
        } = list(files, path)?;
        let has_tables = !numbers.is_empty();
        for number in numbers {
            add_table(files, path, number, &mut tables, &mut damaged_tables)?;
        }
        let log_file = bytes_of(files, path, LOG, has_log)?;
        let needs_edits = has_tables || !log_file.is_empty();
        let found = edits_of(files, path, has_edits, needs_edits)?;
        let logged = log_of(alloc, path, log_file)?;
        Ok(Contents {
            tables,
            damaged_tables,
            edits: found.edits,
            edits_bytes: found.edits_bytes,
            torn_bytes: found.torn.len() as u64,
            torn: found.torn,
            log: logged.edits,
            log_bytes: logged.edits_bytes,
            torn_log_bytes: logged.torn.len() as u64,
            torn_log: logged.torn,
            lost_files,
            has_new,
        })
    }
}

// Reads the table of this number, and adds it to the tables, or its number to those of the damaged ones.
fn add_table<R: Files + AllocGlobal>(
    files: &R,
    path: &str,
    number: FileNumber,
    tables: &mut Tables,
    damaged_tables: &mut Vec<FileNumber>,
) -> Result<(), FolderError> {
    match table_of(files, path, number)? {
        Some(table) => {
            tables.insert(number, table)?;
        }
        None => damaged_tables.push(number)?,
    }
    Ok(())
}

// The table of this number, or none if its file is damaged.
fn table_of<R: Files + AllocGlobal>(
    files: &R,
    path: &str,
    number: FileNumber,
) -> Result<Option<Bytes>, FolderError> {
    let file = table_path(files.alloc(), path, number)?;
    let bytes = read_file(files, file.as_str())?;
    Ok(only_frame(bytes)?)
}

// The edits. A folder that needs a file of edits is refused without one.
fn edits_of<R: Files + AllocGlobal>(
    files: &R,
    path: &str,
    has_edits: bool,
    needs_edits: bool,
) -> Result<EditsFile, FolderError> {
    let alloc = files.alloc();
    let file = file_path(alloc, path, EDITS)?;
    if !has_edits && needs_edits {
        return Err(FolderError::MissingEdits { file });
    }
    let bytes = bytes_of(files, path, EDITS, has_edits)?;
    match read_edits(alloc, bytes) {
        Ok(found) => Ok(found),
        Err(Refused::Fault(offset)) => Err(FolderError::DamagedEdits { file, offset }),
        Err(Refused::OutOfMemory) => Err(FolderError::OutOfMemory),
    }
}

// The log, whose records stand in its bytes as edits do in theirs.
fn log_of(alloc: Global, path: &str, bytes: Bytes) -> Result<EditsFile, FolderError> {
    match read_edits(alloc, bytes) {
        Ok(found) => Ok(found),
        Err(Refused::Fault(offset)) => {
            let file = file_path(alloc, path, LOG)?;
            Err(FolderError::DamagedLog { file, offset })
        }
        Err(Refused::OutOfMemory) => Err(FolderError::OutOfMemory),
    }
}

// All bytes of the file of this name, or none if it is not there.
fn bytes_of<R: Files + AllocGlobal>(
    files: &R,
    path: &str,
    name: &str,
    is_there: bool,
) -> Result<Bytes, FolderError> {
    if !is_there {
        return Ok(Bytes::new());
    }
    let file = file_path(files.alloc(), path, name)?;
    read_file(files, file.as_str())
}

// All bytes of a file.
fn read_file<R: Files + AllocGlobal>(files: &R, file: &str) -> Result<Bytes, FolderError> {
    let alloc = files.alloc();
    let read = fs::read(files, file);
    let bytes = called(alloc, FileCall::Read, file, read)?;
    Ok(Bytes::from_vec(bytes)?)
}
