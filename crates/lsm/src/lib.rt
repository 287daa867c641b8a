//! The front door of the library: a store in a folder by one call, and the names that its users need.
//!
//! It promises that a store is opened only of edits, tables and a log that make one, with the limits that are asked
//! for, and that it holds the operations that they hold; that a refusal says whether the folder was refused or what its
//! files hold; and that running out of memory has one name. What the files hold is `lsm_file_vault`'s to read, and no
//! clause speaks of a file. It stands on that crate for the folder, and on `lsm_store` for the store, whose calls are
//! proved there.
#![tactic(auto)]

mod error;
mod opening;

pub use error::OpenError;
pub use lsm_coord::SnapId;
pub use lsm_file_vault::{FolderError, Incidents, LogSync, SetAside};
pub use lsm_key::{Batch, KeyError, Limits, Op, Seq};
pub use lsm_store::{LevelStats, Options, Range, Store, StoreError, Written};
pub use opening::{FolderStore, FolderVault, Opened, open, open_with};
