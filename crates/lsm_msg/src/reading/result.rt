//! Reading results, and the names and tables that other bodies have too, from the front.

ghost use Rattle.std.specs.Prelude.{◌≡◌};
ghost use Rattle.lsm_key.specs.Reading.{Gives};
ghost use Rattle.lsm_msg.specs.MessageReading.{each_at, job_id_at, sized_at, result_tables_at, result_at};

use super::{BAD, SHORT};
use crate::fault::MsgError;
use crate::job::JobResult;
use bytes::Bytes;
use lsm_claim::JobId;
use lsm_key::{Items, MAX_NUMBER, MAX_TABLE_BYTES, read_piece, read_ranged_u32, read_ranged_u64};
use std::alloc::Global;

/// The result of a job.
#[tactic(auto, unfolding(crate::specs::MessageReading::result_at))]
pub(crate) fn read_result(alloc: Global, rest: &mut Bytes) -> Result<JobResult, MsgError>
    ensures { Gives (λ r. (r, rest.new)) result (result_at rest.old) }
{
    let job = read_job_id(rest)?;
    let tables = read_tables(alloc, rest)?;
    Ok(JobResult { job, tables })
}

/// The name of a job: its epoch and its number.
#[tactic(auto, unfolding(crate::specs::MessageReading::job_id_at))]
pub(crate) fn read_job_id(rest: &mut Bytes) -> Result<JobId, MsgError>
    ensures { Gives (λ id. (id, rest.new)) result (job_id_at rest.old) }
{
    let epoch = read_ranged_u64(rest, 1, MAX_NUMBER, SHORT, BAD)?;
    let number = read_ranged_u64(rest, 1, MAX_NUMBER, SHORT, BAD)?;
    Ok(JobId { epoch, number })
}

// A count, and that many tables.
#[tactic(auto, unfolding(crate::specs::MessageReading::result_tables_at))]
fn read_tables(alloc: Global, rest: &mut Bytes) -> Result<Items<Bytes>, MsgError>
    ensures { Gives (λ tables. (tables, rest.new)) result (result_tables_at rest.old) }
{
    let count = read_ranged_u32(rest, 0, u32::MAX, SHORT, BAD)?;
    read_each_table(alloc, count, rest)
}

fn read_each_table(alloc: Global, count: u32, rest: &mut Bytes) -> Result<Items<Bytes>, MsgError>
    ensures { Gives (λ tables. (tables, rest.new)) result (each_at sized_at count rest.old) }
{
    let mut tables = Items::new(alloc);
    for _place in 0..count {
        let table = read_sized(rest)?;
        tables.push(table)?;
    }
    Ok(tables)
}

/// The length of a table, and its bytes, shared with the rest.
#[tactic(auto, unfolding(crate::specs::MessageReading::sized_at))]
pub(crate) fn read_sized(rest: &mut Bytes) -> Result<Bytes, MsgError>
    ensures { Gives (λ b. (b, rest.new)) result (sized_at rest.old) }
{
    let len = read_ranged_u32(rest, 1, MAX_TABLE_BYTES as u32, SHORT, BAD)?;
    read_piece(rest, len as usize, SHORT)
}
