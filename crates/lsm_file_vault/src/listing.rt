//! The files of a folder, by their names.

use crate::error::called;
use crate::names::{FileKind, file_path, kind_of};
use crate::{FileCall, FolderError};
use lsm_key::FileNumber;
use std::alloc::Global;
use std::fs;
use std::rt::Files;

/// What files a folder has.
#[derive(Drop)]
pub(crate) struct Listing {
    /// The numbers of the tables, in no order.
    pub numbers: Vec<FileNumber>,
    /// The names of the files that were set aside, in order.
    pub lost_files: Vec<String>,
    pub has_edits: bool,
    pub has_log: bool,
    pub has_new: bool,
}

/// Lists the folder at `path`. A file of a name that no vault gives is refused. One that a file system or a desktop may put into any
/// folder is passed over if there is a file of edits, and refused if not, so that no store is made where other files are.
pub(crate) fn list<R: Files + AllocGlobal + Clone + Drop>(
    files: &R,
    path: &str,
) -> Result<Listing, FolderError> {
    let alloc = files.alloc();
    let mut found = Found::new(alloc);
    let listed = fs::read_dir(files, path);
    let entries = called(alloc, FileCall::List, path, listed)?;
    for entry in entries {
        let entry = called(alloc, FileCall::List, path, entry)?;
        found.add(alloc, path, entry.file_name())?;
    }
    found.listing()
}

// The files that were listed so far.
#[derive(Drop)]
struct Found {
    listing: Listing,
    // The path of one that is foreign if there is no file of edits.
    beside: Option<String>,
}

impl Found {
    fn new(alloc: Global) -> Found {
        Found {
            listing: Listing {
                numbers: Vec::new(alloc),
                lost_files: Vec::new(alloc),
                has_edits: false,
                has_log: false,
                has_new: false,
            },
            beside: None,
        }
    }

    // Adds the file of this name.
    fn add(&mut self, alloc: Global, path: &str, name: &str) -> Result<(), FolderError> {
        match kind_of(name) {
            FileKind::Table(number) => self.listing.numbers.push(number)?,
            FileKind::Lost => {
                let name = String::from_str(alloc, name)?;
                self.listing.lost_files.push(name)?;
            }
            FileKind::Edits => self.listing.has_edits = true,
            FileKind::Log => self.listing.has_log = true,
            FileKind::New => self.listing.has_new = true,
            FileKind::Lock => {}
            FileKind::Beside => self.beside = Some(file_path(alloc, path, name)?),
            FileKind::Foreign => {
                let file = file_path(alloc, path, name)?;
                return Err(FolderError::ForeignFile { file });
            }
        }
        Ok(())
    }

    // The whole list, or why it is refused.
    fn listing(self) -> Result<Listing, FolderError> {
        let Found {
            mut listing,
            beside,
        } = self;
        if let Some(file) = beside {
            if !listing.has_edits {
                return Err(FolderError::ForeignFile { file });
            }
        }
        listing.lost_files.sort()?;
        Ok(listing)
    }
}
