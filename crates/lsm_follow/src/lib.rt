//! Followers: they serve reads at the versions of a coordinator, a little behind it.
//!
//! It promises that a follower answers each message by one rule, total on whatever it receives: the next edit, if it
//! applies, or a later full version becomes what it is to move to; it asks for each table that it lacks, keeps only tables
//! that are as their file records say, and moves exactly when it has them all. A read is the look-up in its version's
//! tables at its flushed sequence. A message that finds no memory changes nothing. It stands on `lsm_edit` for versions with
//! their tables, on `lsm_msg` for messages and nodes, and on `lsm_table` for tables.
#![tactic(auto)]

mod change;
mod follower;
mod pending;

pub use change::FollowChange;
pub use follower::Follower;
