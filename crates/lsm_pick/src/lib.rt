//! The picker: which files to merge next.
//!
//! It promises the rule exactly: levels that need compaction from the lowest up, in each the files by number, and of
//! these the first whose closure conflicts with no running job and is within the job limits. The same of a second
//! order, in which each level below level 0 goes on after its compact pointer; both orders have the same candidates. It
//! stands on `lsm_edit` for versions and the search order of their files, on `lsm_claim` for live jobs, on `lsm_msg` for
//! what may be merged, and on `lsm_key` for the limits of a job.
#![tactic(auto)]

mod due;
mod error;
mod laws;
mod limit;
mod outcome;
mod pointers;
mod reach;
mod rule;
mod want;

pub use due::is_due;
pub use error::PickError;
pub use laws::{a_candidate_proposes_one_want, both_orders_are_alike};
pub use pointers::CompactPointers;
pub use rule::{pick, pick_after};
