//! Jobs and messages, as plain data and as bytes, and what a merge keeps.
//!
//! Nodes exchange messages. It promises that a message and its bytes say the same, that other bytes are refused by
//! their first fault, that every job keeps the rules of its format, and that a copy is the same value. Its definitions
//! say which files may be merged and which entries the outputs of a job hold; its laws, that the install of such
//! outputs changes no read, and that neither it nor a flush invalidates other jobs. It stands on `lsm_edit` for
//! versions with their tables and for their bytes, on `lsm_claim` for the names of jobs, their wants and which
//! of these conflict, and on `lsm_key` for fields, ranges of keys, limits and what is visible in a set of entries.
#![tactic(auto)]

mod fault;
mod job;
mod kind;
mod laws;
mod lists;
mod message;
mod node;
mod reading;
mod rules;
mod version;
mod writing;

pub use fault::{MsgError, MsgFault};
pub use job::{Job, JobParts, JobResult};
pub use laws::{
    a_beginning_of_a_message_is_truncated, a_change_is_refused_or_another_message,
    flushes_keep_jobs, flushes_keep_order, hidden_entries_go, installs_keep_jobs,
    installs_keep_order, installs_keep_reads, kept_are_inputs, reads_stay, worked_merges,
};
pub use message::{Body, MAX_MESSAGE_BYTES, Message};
pub use node::{Node, NodeIndex};
pub use reading::decode;
pub use writing::encode;
