//! Writing results, and the names and tables that other bodies have too, and how many bytes these have.

ghost use Rattle.std.specs.Prelude.{◌≡◌, ◌++◌, ◌≤◌, ◌<◌, ◌^◌, All, OnOk, length};
ghost use Rattle.std.specs.List.{flat_map};
ghost use Rattle.lsm_edit.specs.File.{size};
ghost use Rattle.lsm_msg.specs.Messages.{AreTableBytes, job_id, sized, tables};

use crate::job::JobResult;
use bytes::{BufMut, Bytes, BytesMut};
use lsm_claim::JobId;
use std::alloc::AllocError;

// The size of a result without its tables: two numbers of eight bytes, and a count.
const HEAD_BYTES: usize = 20;

/// Appends the name of the job, and its tables.
pub(crate) fn write_result(out: &mut BytesMut, made: &JobResult) -> Result<(), AllocError>
    requires sound { All AreTableBytes made.now.tables }
    requires few { length made.now.tables < 2 ^ 32 }
    ensures { OnOk result (out.new.items ≡ out.old.items ++ (job_id made.now.job ++ tables made.now.tables)) }
{
    write_job_id(out, made.job)?;
    write_tables(out, made.tables.as_slice())?;
    Ok(())
}

/// Appends the name of a job.
pub(crate) fn write_job_id(out: &mut BytesMut, id: JobId) -> Result<(), AllocError>
    ensures { OnOk result (out.new.items ≡ out.old.items ++ job_id id) }
{
    out.put_u64(id.epoch)?;
    out.put_u64(id.number)?;
    Ok(())
}

// Appends a count, and the tables.
fn write_tables(out: &mut BytesMut, ts: &[Bytes]) -> Result<(), AllocError>
    requires sound { All AreTableBytes ts.now }
    requires few { length ts.now < 2 ^ 32 }
    ensures { OnOk result (out.new.items ≡ out.old.items ++ tables ts.now) }
{
    out.put_u32(ts.len() as u32)?;
    for table in ts {
        write_sized(out, table)?;
    }
    Ok(())
}

/// Appends the length of a table, and its bytes.
pub(crate) fn write_sized(out: &mut BytesMut, table: &Bytes) -> Result<(), AllocError>
    requires { AreTableBytes table.now }
    ensures { OnOk result (out.new.items ≡ out.old.items ++ sized table.now) }
{
    out.put_u32(table.len() as u32)?;
    out.put_slice(table.as_slice())
}

/// How many bytes the result has, at most `usize::MAX`.
pub(crate) fn result_bytes(made: &JobResult) -> usize
    requires { All AreTableBytes made.now.tables }
    ensures { result ≡ size (job_id made.now.job ++ tables made.now.tables) }
{
    tables_bytes(made.tables.as_slice()).saturating_add(HEAD_BYTES)
}

// How many bytes the tables have with their lengths, at most `usize::MAX`.
fn tables_bytes(ts: &[Bytes]) -> usize
    requires { All AreTableBytes ts.now }
    ensures { result ≡ size (flat_map sized ts.now) }
{
    let mut total: usize = 0;
    for table in ts {
        total = total.saturating_add(4 + table.len());
    }
    total
}
