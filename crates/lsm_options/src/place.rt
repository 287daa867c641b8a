//! The folder that a command works on.

use lsm_file_vault::LogSync;
use lsm_key::Limits;

/// Where a store keeps its data, and how it is kept.
#[derive(Clone, Copy)]
pub struct Place<'a> {
    /// The path of the folder.
    pub folder: &'a str,
    pub limits: Limits,
    /// When its log is synced.
    pub log_sync: LogSync,
}
