//! Merging a job's tables, and telling of the result.

ghost use Rattle.std.specs.Prelude.{◌≡◌, All};
ghost use Rattle.lsm_edit.specs.Served.{AreAsRecorded};
ghost use Rattle.lsm_msg.specs.Messages.{AreTableBytes};
ghost use Rattle.luddimpa.specs.JobMerges.{MergesFor, MergesTables, SendsResult, result_message};

use crate::copying::copy_out;
use crate::job_tables::tables_of;
use crate::merged_job::JobMerge;
use bytes::Bytes;
use lsm_key::{Items, Refused};
use lsm_merge::{MergeError, merge};
use lsm_msg::{Body, Job, JobResult, Message, NodeIndex, encode};
use lsm_table::Table;
use std::alloc::Global;

/// Merges the tables of a job, each behind its length. The worker's message of the result is copied to the front of `out` if it has
/// room for all of it.
pub(crate) fn merge_for(
    alloc: Global,
    index: NodeIndex,
    job: &Job,
    tables: &[u8],
    out: &mut [u8],
) -> JobMerge
    ensures { MergesFor index job.now tables.now out.old out.new result }
{
    match tables_of(alloc, job.inputs(), tables) {
        Ok(tables) => merge_tables(alloc, index, job, tables.as_slice(), out),
        Err(refused) => JobMerge::of_refused(refused),
    }
}

// The same of tables that are the job's.
fn merge_tables(
    alloc: Global,
    index: NodeIndex,
    job: &Job,
    tables: &[Table],
    out: &mut [u8],
) -> JobMerge
    requires { AreAsRecorded job.now.inputs tables.now }
    ensures { MergesTables index job.now tables.now out.old out.new result }
{
    match merge(alloc, tables, job) {
        Ok(outputs) => send(alloc, index, job, outputs, out),
        Err(MergeError::SameEntry) => JobMerge::SameEntry,
        Err(MergeError::OutOfMemory) => JobMerge::OutOfMemory,
        // The tables are as the records say.
        Err(MergeError::WrongInputs) => unreachable!(),
    }
}

// Copies the message of the result out.
fn send(alloc: Global, index: NodeIndex, job: &Job, outputs: Vec<Bytes>, out: &mut [u8]) -> JobMerge
    requires { All AreTableBytes outputs.items }
    ensures { SendsResult (result_message index job.now outputs.items) out.old out.new result }
{
    // Proof hint: the job's name is within its limits.
    let _parts = job.parts();
    let made = JobResult {
        job: job.id(),
        tables: Items::from_vec(outputs),
    };
    let message = Message::from_worker(index, Body::Result(made));
    match encode(alloc, &message) {
        Ok(text) => {
            copy_out(text.as_slice(), out);
            JobMerge::Result(text.len())
        }
        Err(Refused::Fault(_)) => JobMerge::TooLarge,
        Err(Refused::OutOfMemory) => JobMerge::OutOfMemory,
    }
}
