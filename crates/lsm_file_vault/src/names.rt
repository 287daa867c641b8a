//! The names of the files of a folder.

use lsm_key::FileNumber;
use std::alloc::{AllocError, Global};

/// The file of the edits.
pub(crate) const EDITS: &str = "edits";

/// The file of the log.
pub(crate) const LOG: &str = "log";

/// The file that a table, or a log that was cut, is written to before it takes its own name.
pub(crate) const NEW_FILE: &str = "new";

/// The file that the process which has the folder open has locked.
pub(crate) const LOCK: &str = "lock";

// How the names of files begin that were set aside.
const LOST: &str = "lost-";

// How many digits a table's name has: those of the greatest number.
const DIGITS: usize = 20;

/// What a file of a folder is, by its name.
pub(crate) enum FileKind {
    Table(FileNumber),
    Edits,
    Log,
    New,
    Lock,
    /// Set aside: nobody reads it.
    Lost,
    /// One that a file system or a desktop may put into any folder.
    Beside,
    Foreign,
}

/// What the file of this name is.
pub(crate) fn kind_of(name: &str) -> FileKind {
    match name {
        EDITS => FileKind::Edits,
        LOG => FileKind::Log,
        NEW_FILE => FileKind::New,
        LOCK => FileKind::Lock,
        "lost+found" => FileKind::Beside,
        _ if name.starts_with('.') => FileKind::Beside,
        _ if name.starts_with(LOST) => FileKind::Lost,
        _ => match number_in(name) {
            Some(number) => FileKind::Table(number),
            None => FileKind::Foreign,
        },
    }
}

// The number in the name of a table's file.
fn number_in(name: &str) -> Option<FileNumber> {
    let digits = name.strip_suffix(".table")?;
    if digits.len() != DIGITS || !digits.bytes().all(|digit| digit.is_ascii_digit()) {
        return None;
    }
    let number = digits.parse::<u64>().ok()?;
    Some(FileNumber::new(number))
}

/// The path of a file of the folder at `folder`.
pub(crate) fn file_path(alloc: Global, folder: &str, name: &str) -> Result<String, AllocError> {
    format!(in alloc; "{folder}/{name}")
}

/// The path of a table's file in the folder at `folder`.
pub(crate) fn table_path(
    alloc: Global,
    folder: &str,
    number: FileNumber,
) -> Result<String, AllocError> {
    let number = number.number();
    format!(in alloc; "{folder}/{number:020}.table")
}

/// The name under which torn bytes are set aside that begin at this offset of the file of this name. The first copy has the plain name.
pub(crate) fn lost_bytes_name(
    alloc: Global,
    file: &str,
    offset: u64,
    copy: u64,
) -> Result<String, AllocError> {
    if copy == 1 {
        format!(in alloc; "{LOST}{file}-{offset}")
    } else {
        format!(in alloc; "{LOST}{file}-{offset}-{copy}")
    }
}

/// The name under which the table of this number is set aside. The first copy has the plain name.
pub(crate) fn lost_table_name(
    alloc: Global,
    number: FileNumber,
    copy: u64,
) -> Result<String, AllocError> {
    let number = number.number();
    if copy == 1 {
        format!(in alloc; "{LOST}{number}.table")
    } else {
        format!(in alloc; "{LOST}{number}-{copy}.table")
    }
}
