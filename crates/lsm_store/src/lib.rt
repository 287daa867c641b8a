//! A store in one process, over any vault. The crate `lsm` opens one in a folder.
//!
//! `Store` is what a user of LevelDB expects over a vault: it puts, deletes, writes batches, gets, scans and makes
//! snapshots, and runs its flushes and compactions inside its calls. It promises what it holds by the operations that
//! it has accepted: what is answered `Ok` is in the store, reads answer by it, and a call that is refused leaves it
//! with what it held. Each of its levels below level 0 is compacted in turn, from its compact pointer on.
//! `compact_once` is one compaction, the pick, the merge and the install of one job: it changes no read, and leaves no
//! claim behind, whatever is refused. When a write is synced is a matter of the vault, and `Store::sync` asks it to. It
//! stands on `lsm_coord` for the coordinator, on `lsm_merge` for the merge, and on `lsm_vault` for vaults.
#![tactic(auto)]

mod compact;
mod due;
mod error;
mod options;
mod stats;
mod store;
mod written;

pub use compact::{compact_once, result_of};
pub use due::Due;
pub use error::StoreError;
pub use options::Options;
pub use stats::{LevelStats, stats_of};
pub use store::{Range, Store};
pub use written::Written;
