//! The coordinator: the one node that takes writes and makes versions.
//!
//! Its definitions say what a store has to answer: the abstract state, the events and replies, the refusals that a
//! state forces and those that have another cause, one step, and a run; the laws of runs are proved beside them.
//! `Coord` is one store over a vault. Each of its calls that is an event promises that it follows them: from every
//! state that the store shows before, the call and its answer are a step to a state that it shows after. An install
//! that is done promises it if its result holds the merge of a sound job. Jobs are picked, their files served and their
//! results installed; a job stays installable as long as its claim is live. Tables stay and are served until a trim or
//! the next opening lets them go. A write or a freeze is in the vault's log before it is done. A `Seat` is up or down:
//! a restart loses no write, ends every snapshot, and makes every claim stale.
//!
//! It stands on `lsm_key` for writes and entries, `lsm_mem` for memtables, `lsm_block` and `lsm_table` for tables,
//! `lsm_cache` for copies of values, `lsm_edit` for versions and the tables that they serve, `lsm_versions` for the
//! version set, `lsm_vault` for vaults, `lsm_claim` for claims, `lsm_msg` for jobs and messages, and `lsm_pick` for the
//! rule of a pick.
#![tactic(auto)]

mod answer;
mod call;
mod coord;
mod desk;
mod dispatcher;
mod error;
mod frozen;
mod job;
mod laws;
mod replay;
mod seat;
mod snapshot;
mod source;

pub use answer::{Answer, ShownVersion};
pub use call::{Call, ScanRange};
pub use coord::{Coord, Flushed, Install, InstallError};
pub use desk::Desk;
pub use dispatcher::Dispatcher;
pub use error::CoordError;
pub use laws::{
    flushed_rises, followers_agree, get_gives_the_write, listings_agree, scans_are_determined,
    snapshots_agree, versions_stay, worked_runs, wrong_runs,
};
pub use seat::Seat;
pub use snapshot::SnapId;
