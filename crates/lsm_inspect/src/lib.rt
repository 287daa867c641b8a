//! The data of a store, read and judged: what its files hold, and whether that is what its edits say.
//!
//! `check` goes over each file of the version that the edits make, and reports each whose table is not as its record
//! says; and over the log, and reports what it holds and what is wrong with it. `dump` writes the entries and
//! `dump_log` the records of the log, and both report what a check does. They read what a folder holds and change
//! nothing. It promises that a check that finds nothing damaged leaves no reason to refuse an opening for a table or
//! for the log, and that what is found is true of the file, or the log. The text of a dump is tested. It stands on
//! `lsm_versions` for the replay of edits, on `lsm_file_vault` for what a folder holds, on the edits, the tables and
//! the records of a log, on `lsm_store` for the sums of a level, and on `lsm_word` for keys, values and operations as
//! words.
#![tactic(auto)]

mod checking;
mod damage;
mod dumping;
mod error;
mod laws;
mod reading;
mod report;
mod table;

pub use checking::check;
pub use damage::{Damage, Finding, LogDamage};
pub use dumping::{dump, dump_log};
pub use error::InspectError;
pub use laws::{
    damage_is_no_false_alarm, log_damage_is_no_false_alarm, what_is_whole_is_not_refused,
};
pub use report::{Faults, Report};
