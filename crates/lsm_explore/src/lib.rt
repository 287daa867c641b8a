//! An explorer: runs every schedule of a number of events over two small alphabets, each against a new store with its
//! nodes, and compares each answer with what a plain slow model of them allows.
//!
//! It promises that each function is safe and ends, that `Path::advance` leads from each schedule to the next one, and
//! that tallies are joined by their sums. That the model is right is not proved: it is written from the definitions of
//! `lsm_coord` alone, and compared with the proved store. It stands on `lsm_world` for the nodes and their network, on
//! `lsm_coord`, `lsm_claim`, `lsm_msg` and `lsm_key` for what events and replies name, and on `lsm_vault` for the vault
//! in memory.
#![tactic(auto)]

mod allowed;
mod alphabet;
mod answers;
mod exploring;
mod model;
mod path;
mod play;
mod random;
mod report;
mod shorten;
mod wrong;

pub use exploring::{Progress, Settings, explore};
pub use random::MAX_EXHAUSTED;
pub use report::Report;
pub use wrong::Wrong;
