//! Merging the tables of a job into the tables that take their place.
//!
//! It promises that the outputs of a merge hold exactly the entries that some read still needs, in order, and no key in
//! two outputs; that tables which are not the job's inputs are refused, and so are inputs of which two share an entry's
//! key and sequence. Entries go from cursors into one open output, one by one and as they lie: no list of them is held, and each
//! cursor is read one entry ahead. It stands on `lsm_msg` for jobs and for what a merge keeps, on `lsm_table` for tables and for
//! the next entry of several sources, on `lsm_block` for cursors, on `lsm_edit` for the records of files, and on `lsm_key` for
//! entries and their order.
#![tactic(auto)]

mod cursor_head;
mod deeper;
mod error;
mod inputs;
mod keep;
mod laws;
mod merging;
mod outputs;
mod walk;

pub use error::MergeError;
pub use laws::{
    a_merge_has_one_outcome, a_walk_is_refused_for_a_shared_entry, a_walk_reads_one_entry_ahead,
    an_ended_walk_gave_what_is_kept, merge_limits_are_these,
};
pub use merging::merge;
pub use outputs::OUTPUT_TARGET;
pub use walk::Walk;
