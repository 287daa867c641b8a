//! Workers: they collect the tables of a job, merge them and send the result.
//!
//! It promises that a worker answers each message by one rule, total on whatever it receives: it asks for each table that
//! it lacks, keeps only tables that are as their file records say, and sends a result only as the merge of the job whose
//! tables it has collected. A message that finds no memory changes nothing. It stands on `lsm_merge` for the merge of a
//! job, on `lsm_msg` for jobs, messages and nodes, on `lsm_table` for tables, on `lsm_edit` for the records of files, and
//! on `lsm_claim` for the names of jobs.
#![tactic(auto)]

mod change;
mod task;
mod worker;

pub use change::WorkChange;
pub use worker::Worker;
