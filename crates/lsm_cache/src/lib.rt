//! A cache of decoded blocks, and look-ups in tables through it.
//!
//! It promises that a look-up through the cache finds what a look-up in the table itself finds, whatever memory there is: the
//! cache holds, under the number of a file, only blocks that are its table's. It stands on `lsm_table` and `lsm_block` for look-ups
//! in bytes, and on `lru` for the order in which blocks are let go.
#![tactic(auto)]

mod cache;
mod copies;
mod table;

pub use cache::{BlockCache, BlockPlace};
pub use copies::{copy_entry, copy_value};
pub use table::CachedTable;
