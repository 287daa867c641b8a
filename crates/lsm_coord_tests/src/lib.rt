//! Tests of `lsm_coord` by its public calls, of what no script shows: results that are no outputs of their job, copies, openings over a
//! device that fails, over a log that is bad and over a vault without one, how often a vault is asked, and the texts of refusals. Writes,
//! reads, flushes, snapshots, jobs, restarts, trims and what followers are told are scripts (`tests/schedules/rows`).
//!
//! They are a crate of their own, so that `lsm_coord` is proved once. It has no code beside them.
#![tactic(auto)]

#[cfg(test)]
mod tests;
