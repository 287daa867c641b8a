//! Merging a job.

ghost use Rattle.std.specs.Prelude.{◌≡◌};
ghost use Rattle.lsm_msg.specs.Messages.{IsSpelled};
ghost use Rattle.luddimpa.specs.declared.merged_job.JobMerge.{JobMerge};
ghost use Rattle.luddimpa.specs.JobMerges.{MergesBody, MergesJob, merged_of};

use crate::merged_job::{JobMerge, MergedJob};
use crate::merging::merge_for;
use crate::opening::read_message;
use lsm_key::Refused;
use lsm_msg::{Body, Message, Node, NodeIndex};
use std::alloc::Global;

/// Merges a job as the worker does whom the message takes it to: `tables` are those of its inputs in their order, each behind its length
/// in four bytes. The message of the result is copied to the front of `out` if it has room for all of it; otherwise `out` stays as it
/// was.
#[unsafe(no_mangle)]
pub extern "C" fn luddimpa_merge(
    alloc: Global,
    job: &[u8],
    tables: &[u8],
    out: &mut [u8],
) -> MergedJob
    ensures { (merge : JobMerge) × (result ≡ merged_of merge) × MergesJob job.now tables.now out.old out.new merge }
{
    MergedJob::of(merge_job(alloc, job, tables, out))
}

fn merge_job(alloc: Global, job: &[u8], tables: &[u8], out: &mut [u8]) -> JobMerge
    ensures { MergesJob job.now tables.now out.old out.new result }
{
    match read_message(alloc, job) {
        Ok(message) => merge_message(alloc, &message, tables, out),
        Err(Refused::Fault(fault)) => JobMerge::Fault(fault),
        Err(Refused::OutOfMemory) => JobMerge::OutOfMemory,
    }
}

fn merge_message(alloc: Global, message: &Message, tables: &[u8], out: &mut [u8]) -> JobMerge
    ensures { (text : _) → IsSpelled text message.now → MergesJob text tables.now out.old out.new result }
{
    match message.dst {
        Node::Worker(index) => merge_body(alloc, index, &message.body, tables, out),
        Node::Coordinator => JobMerge::NotAJob,
        Node::Follower(_) => JobMerge::NotAJob,
    }
}

fn merge_body(
    alloc: Global,
    index: NodeIndex,
    body: &Body,
    tables: &[u8],
    out: &mut [u8],
) -> JobMerge
    ensures { MergesBody index body.now tables.now out.old out.new result }
{
    match body {
        Body::Job(job) => merge_for(alloc, index, job, tables, out),
        _ => JobMerge::NotAJob,
    }
}
