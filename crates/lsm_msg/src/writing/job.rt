//! Writing a job, and how many bytes it has, which is known before memory is taken for them.

ghost use Rattle.std.specs.Prelude.{◌≡◌, ◌++◌, ◌≤◌, All, OnOk, length};
ghost use Rattle.std.specs.List.{flat_map};
ghost use Rattle.std.specs.Int.{w16, to_be_bytes};
ghost use Rattle.lsm_edit.specs.File.{file, size};
ghost use Rattle.lsm_key.specs.declared.limits.TheConstants.{MAX_DEEPER};
ghost use Rattle.lsm_msg.specs.Messages.{job, points, range, ranges};
ghost use Rattle.lsm_edit.specs.File.{AreKeys};
ghost use Rattle.lsm_msg.specs.Rules.{AreInputs, ArePoints};

use super::result::write_job_id;
use crate::job::Job;
use bytes::{BufMut, BytesMut};
use lsm_edit::{FileMeta, files_bytes, write_file};
use lsm_key::{KeyRange, Seq, write_key};
use std::alloc::AllocError;

// The size of a job without its lists: two numbers of eight bytes, the level, the block target, and three counts.
const HEAD_BYTES: usize = 28;

/// Appends the job.
pub(crate) fn write_job(out: &mut BytesMut, j: &Job) -> Result<(), AllocError>
    ensures { OnOk result (out.new.items ≡ out.old.items ++ job j.now) }
{
    write_job_id(out, j.id())?;
    out.put_u8(j.level())?;
    out.put_u32(j.block())?;
    write_points(out, j.points())?;
    write_inputs(out, j.level(), j.inputs())?;
    write_ranges(out, j.deeper())?;
    Ok(())
}

// Appends a count, and the sequences.
fn write_points(out: &mut BytesMut, ps: &[Seq]) -> Result<(), AllocError>
    requires { ArePoints ps.now }
    ensures { OnOk result (out.new.items ≡ out.old.items ++ points ps.now) }
{
    out.put_u8(ps.len() as u8)?;
    for point in ps {
        out.put_u64(point.number())?;
    }
    Ok(())
}

// Appends a count, and the records of the inputs of a job of the level.
fn write_inputs(out: &mut BytesMut, level: u8, files: &[FileMeta]) -> Result<(), AllocError>
    requires { AreInputs level files.now }
    ensures { OnOk result (out.new.items ≡ out.old.items ++ (to_be_bytes w16 (length files.now) ++ flat_map file files.now)) }
{
    out.put_u16(files.len() as u16)?;
    for file in files {
        write_file(out, file)?;
    }
    Ok(())
}

// Appends a count, and the two keys of each range.
fn write_ranges(out: &mut BytesMut, rs: &[KeyRange]) -> Result<(), AllocError>
    requires few { length rs.now ≤ MAX_DEEPER }
    requires each { All (λ r. AreKeys r.lo r.hi) rs.now }
    ensures { OnOk result (out.new.items ≡ out.old.items ++ ranges rs.now) }
{
    out.put_u32(rs.len() as u32)?;
    for range in rs {
        write_range(out, range)?;
    }
    Ok(())
}

fn write_range(out: &mut BytesMut, r: &KeyRange) -> Result<(), AllocError>
    requires { AreKeys r.now.lo r.now.hi }
    ensures { OnOk result (out.new.items ≡ out.old.items ++ range r.now) }
{
    write_key(out, r.lo.as_slice())?;
    write_key(out, r.hi.as_slice())?;
    Ok(())
}

/// How many bytes the job has.
pub(crate) fn job_bytes(j: &Job) -> usize
    ensures { result ≡ size (job j.now) }
{
    let points = 8 * j.points().len();
    files_bytes(j.inputs())
        .saturating_add(ranges_bytes(j.deeper()))
        .saturating_add(HEAD_BYTES + points)
}

// How many bytes the ranges have, at most `usize::MAX`.
fn ranges_bytes(rs: &[KeyRange]) -> usize
    requires { All (λ r. AreKeys r.lo r.hi) rs.now }
    ensures { result ≡ size (flat_map range rs.now) }
{
    let mut total: usize = 0;
    for range in rs {
        total = total.saturating_add(range_bytes(range));
    }
    total
}

fn range_bytes(r: &KeyRange) -> usize
    requires { AreKeys r.now.lo r.now.hi }
    ensures { result ≡ length (range r.now) }
{
    4 + r.lo.len() + r.hi.len()
}
