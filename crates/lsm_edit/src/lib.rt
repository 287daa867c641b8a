//! File records, edits and versions: which tables a store has, and how that changes; and the records of a log.
//!
//! It promises that an edit, a whole version or a log record and its bytes say the same, that a version is the result of
//! applying its edits in turn, that a good log holds what a store has in no table, and that a read of a version with its
//! tables returns the newest visible entry. It stands on the tables, their blocks and the keys.
#![tactic(auto)]

mod base;
mod earlier_files;
mod edit;
mod file;
mod format;
mod laws;
mod log_record;
mod logged_op;
mod next;
mod numbers;
mod recorded;
mod served;
mod valid;
mod version;

pub use base::{base_bytes, decode_base, encode_base, read_base, write_base};
pub use edit::{
    Edit, EditKind, decode_edit, edit_bytes, encode_edit, read_edit, same_numbers, write_edit,
};
pub use file::{FileBounds, FileMeta, files_bytes, read_file, same_files, write_file};
pub use format::{FormatError, FormatFault};
pub use laws::{
    a_beginning_of_a_base_is_truncated, a_beginning_of_a_log_record_is_truncated,
    a_beginning_of_an_edit_is_truncated, a_change_is_refused_or_another_base,
    a_change_is_refused_or_another_edit, a_change_is_refused_or_another_log_record,
    a_log_holds_what_a_store_has, a_log_is_good_or_bad, a_number_names_one_file,
    no_file_is_removed_twice, worked_edits, worked_logs,
};
pub use log_record::{
    LogRecord, WRITE_HEAD_BYTES, append_write, decode_log, encode_freeze, encode_log, encode_write,
};
pub use logged_op::{LoggedOp, find_logged};
pub use numbers::{has_file, is_among, is_listed};
pub use recorded::{is_as_recorded, open_as_recorded};
pub use served::{LevelCursor, Listing, Placed, Prepared, Room, Served};
pub use valid::{are_keys, files_rise};
pub use version::{ApplyError, Version, removed_by};
