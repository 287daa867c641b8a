//! Claims: the right to install the result of a job, as a linear value that must be consumed.
//!
//! Jobs run on other nodes, so that several are live at a time. It promises that live jobs which share a level have no key
//! in common, and that each claim ends once, by `settle`: a claim that is dropped, copied or taken apart does not compile.
//! It stands on `lsm_key` for the order of keys.
#![tactic(auto)]

mod book;
mod ending;
mod error;
mod hull;
mod job;
mod laws;

pub use book::{Claim, ClaimBook};
pub use ending::{Ending, Settled};
pub use error::ClaimError;
pub use hull::Hull;
pub use job::{JobId, LiveJob, Want, shares_level};
pub use laws::{
    conflicts_go_both_ways, hulls_meet_where_they_share_a_key, jobs_share_the_levels_that_both_use,
};
