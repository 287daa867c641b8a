//! Jobs from the front.
//!
//! A job is encoded as: u64 epoch, u64 number, u8 level, u32 block target, u8 count of points and u64 each, u16 count of
//! inputs and a file record each, u32 count of deeper ranges and two keys each.

ghost use Rattle.std.specs.Prelude.{◌≡◌, ◌≤◌, ◌-◌, ◌^◌};
ghost use Rattle.lsm_key.specs.declared.limits.TheConstants.{MAX_KEY_BYTES};
ghost use Rattle.lsm_key.specs.Reading.{Gives};
ghost use Rattle.lsm_edit.specs.Edit.{numbers_at};
ghost use Rattle.lsm_msg.specs.declared.fault.MsgFault.TheVariants.{Truncated, BadField};
ghost use Rattle.lsm_msg.specs.MessageReading.{each_at, job_at, points_at, range_at, ranges_at};

use super::inputs::read_inputs;
use super::result::read_job_id;
use super::{BAD, SHORT};
use crate::fault::MsgError;
use crate::job::{Job, JobParts};
use bytes::Bytes;
use lsm_key::{
    Items, KeyRange, MAX_DEEPER, MAX_JOB_LEVEL, MAX_POINTS, MAX_TABLE_BYTES, Refused, Seq,
    know_bytes, read_key, read_ranged_u8, read_ranged_u32, read_ranged_u64,
};
use std::alloc::Global;

/// A job, with keys of at most `max_key` bytes.
pub(crate) fn read_job(alloc: Global, rest: &mut Bytes, max_key: usize) -> Result<Job, MsgError>
    requires { max_key ≤ MAX_KEY_BYTES }
    ensures { Gives (λ j. (j, rest.new)) result (job_at max_key rest.old) }
{
    know_bytes(rest);
    let parts = read_parts(alloc, rest, max_key)?;
    Ok(Job::of_parts(parts))
}

#[tactic(auto, unfolding(crate::specs::MessageReading::job_at))]
fn read_parts(alloc: Global, rest: &mut Bytes, max_key: usize) -> Result<JobParts, MsgError>
    ensures { Gives (λ j. (j, rest.new)) result (job_at max_key rest.old) }
{
    let id = read_job_id(rest)?;
    let level = read_ranged_u8(rest, 0, MAX_JOB_LEVEL, SHORT, BAD)?;
    let block = read_ranged_u32(rest, 1, MAX_TABLE_BYTES as u32, SHORT, BAD)?;
    let points = read_points(alloc, rest)?;
    let inputs = read_inputs(alloc, level, rest, max_key)?;
    let deeper = read_ranges(alloc, rest, max_key)?;
    Ok(JobParts {
        id,
        level,
        block,
        points,
        inputs,
        deeper,
    })
}

// A count, and that many ascending sequences.
#[tactic(auto, unfolding(crate::specs::MessageReading::points_at))]
fn read_points(alloc: Global, rest: &mut Bytes) -> Result<Items<Seq>, MsgError>
    ensures { Gives (λ points. (points, rest.new)) result (points_at rest.old) }
{
    let count = read_ranged_u8(rest, 0, MAX_POINTS as u8, SHORT, BAD)?;
    read_each_point(alloc, count, rest)
}

fn read_each_point(alloc: Global, count: u8, rest: &mut Bytes) -> Result<Items<Seq>, MsgError>
    ensures { Gives (λ points. (points, rest.new)) result (numbers_at Truncated BadField (2 ^ 56 - 1) count 0 rest.old) }
{
    let mut points = Items::new(alloc);
    let mut least = 0;
    for _place in 0..count {
        let point = read_ranged_u64(rest, least, Seq::MAX, SHORT, BAD)?;
        points.push(Seq::new(point))?;
        least = point + 1;
    }
    Ok(points)
}

// A count, and that many ranges of keys.
#[tactic(auto, unfolding(crate::specs::MessageReading::ranges_at))]
fn read_ranges(alloc: Global, rest: &mut Bytes, max_key: usize) -> Result<Items<KeyRange>, MsgError>
    ensures { Gives (λ ranges. (ranges, rest.new)) result (ranges_at max_key rest.old) }
{
    let count = read_ranged_u32(rest, 0, MAX_DEEPER as u32, SHORT, BAD)?;
    read_each_range(alloc, count, rest, max_key)
}

fn read_each_range(
    alloc: Global,
    count: u32,
    rest: &mut Bytes,
    max_key: usize,
) -> Result<Items<KeyRange>, MsgError>
    ensures { Gives (λ ranges. (ranges, rest.new)) result (each_at (range_at max_key) count rest.old) }
{
    let mut ranges = Items::new(alloc);
    for _place in 0..count {
        let range = read_range(rest, max_key)?;
        ranges.push(range)?;
    }
    Ok(ranges)
}

// Two keys of at most `max_key` bytes, the first not after the second.
#[tactic(auto, unfolding(crate::specs::MessageReading::range_at))]
fn read_range(rest: &mut Bytes, max_key: usize) -> Result<KeyRange, MsgError>
    ensures { Gives (λ r. (r, rest.new)) result (range_at max_key rest.old) }
{
    let lo = read_key(rest, max_key, SHORT, BAD)?;
    let hi = read_key(rest, max_key, SHORT, BAD)?;
    if lo.cmp(&hi).is_gt() {
        return Err(Refused::Fault(BAD));
    }
    Ok(KeyRange { lo, hi })
}
