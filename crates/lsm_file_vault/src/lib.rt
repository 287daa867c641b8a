//! The vault in a folder: edits, tables and the log in files, so that a store outlives its process.
//!
//! It promises of `FileVault`, over any `Folder`, all that `Vault` does: what it shows is what the calls on its folder leave that
//! returned `Ok`. It promises of an opening that the edits taken are the frames at the front of their file, and that what is left out
//! behind them is what a stop may leave of appends that were not synced; anything else is refused by name. So it is with the records of the
//! log, which are synced one by one, or when it is asked for, as `LogSync` says. A sync of the log is `Ok` only if the folder's was, and an
//! edit only if the log before it is synced. An opening changes nothing: what it left out is set
//! aside by the first append, and nothing is deleted but a table that is removed, records that are cut off, and a file that was never
//! finished.
//! It stands on `lsm_vault` for the contract and for tables in memory, and on `lsm_key` for fields.
//!
//! Trusted: that `HostFolder` makes the calls on files that it notes (`host_folder.rt` and `log_file.rt`, since no clause tells of a
//! file); that `Notes`, which no memory holds and two proofs by hand set, is written by nothing else; that a file which was synced gives
//! back what was written. Crashes are not modelled.
#![tactic(auto)]

mod aside;
mod change;
mod contents;
mod edits_file;
mod error;
mod file_vault;
mod folder;
mod frame;
mod host_folder;
mod incidents;
mod laws;
mod listing;
mod log_file;
mod log_sync;
mod names;
mod notes;
mod opening;

pub use change::Change;
pub use contents::Contents;
pub use error::{FileCall, FolderError};
pub use file_vault::FileVault;
pub use folder::Folder;
pub use frame::FrameFault;
pub use host_folder::HostFolder;
pub use incidents::{Incidents, SetAside};
pub use laws::{
    a_frame_cut_before_zeros_is_torn, a_frame_cut_short_is_torn, a_stop_loses_no_edit,
    a_written_frame_is_read,
};
pub use log_sync::LogSync;
pub use notes::Notes;
pub use opening::{Opened, open, open_unlocked, open_with, read};
