//! The store's formats and its merge for C: reads a value in a table, checks a table, a list of edits and a message, and merges a job.
//!
//! It promises of each exported function, for any bytes, which status it answers and what it leaves in the caller's memory. No
//! function keeps anything between calls or hands out a pointer, and none has a `requires`, since nothing checks that C meets one.
//! It stands on `lsm_merge` for the merge, on `lsm_msg` for messages, on `lsm_edit` for edits and
//! versions, on `lsm_table` for tables, and on `lsm_key` for entries and the fields of a format. `capi/luddimpa.h` declares the
//! functions.
#![tactic(auto)]

mod checked_edits;
mod copying;
mod edits_check;
mod elements;
mod found;
mod job_merge;
mod job_tables;
mod merged_job;
mod merging;
mod message_check;
mod message_fault;
mod opening;
mod status;
mod table_check;
mod table_fault;
mod table_get;
