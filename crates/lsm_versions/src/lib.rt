//! The version set: a store's current version with its tables, and what is kept of the versions before it.
//!
//! It promises that its manifest, the list of the edits that made the current version, always replays to it, that the
//! retired files that it keeps are exactly those that a version from the floor on lists and the current one lacks, and
//! that its vault has the tables of all of them. It is opened over what a vault has, or refused with the first reason: first that is
//! read (`Recovered`), and then the next epoch begins. It adds records to the vault's log and cuts it, and does not read them.
//! A read through its cache of blocks finds what its tables have.
//! It stands on the vault, the edits, the cache, the tables and the keys.
#![tactic(auto)]

mod cached;
mod error;
mod opening;
mod putting;
mod recent;
mod recovered;
mod retired;
mod version_set;

pub use error::OpenError;
pub use opening::{edit_of, replay};
pub use recovered::Recovered;
pub use retired::Retired;
pub use version_set::VersionSet;
