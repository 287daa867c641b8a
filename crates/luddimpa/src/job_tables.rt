//! Reading the tables of a job.

ghost use Rattle.std.specs.Prelude.{◌≡◌, ◌++◌, IfErr, IfNone, IfOk, IfSome};
ghost use Rattle.lsm_edit.specs.Served.{IsAsRecorded};
ghost use Rattle.lsm_msg.specs.Messages.{sized};
ghost use Rattle.luddimpa.specs.JobMerges.{AreTablesOf, RefusesTables, StandsAsRecorded};

use crate::elements::take_element;
use bytes::Bytes;
use lsm_edit::{FileMeta, open_as_recorded};
use lsm_key::Refused;
use lsm_table::Table;
use std::alloc::{AllocError, Global};

/// The tables of these files, each behind its length, if they are as the records say. A fault is the place of the first that is not, or
/// their number if bytes stand behind the last one.
pub(crate) fn tables_of(
    alloc: Global,
    files: &[FileMeta],
    bytes: &[u8],
) -> Result<Vec<Table>, Refused<usize>>
    ensures ok { IfOk result (λ tables. AreTablesOf files.now bytes.now tables.items) }
    ensures refused { IfErr result (RefusesTables files.now bytes.now) }
{
    let mut rest = Bytes::copy_from_slice(alloc, bytes)?;
    let mut tables = Vec::with_capacity(alloc, files.len())?;
    for (at, file) in files.iter().enumerate() {
        let Some(table) = take_table(alloc, file, &mut rest)? else {
            return Err(Refused::Fault(at));
        };
        tables.push(table)?;
    }
    if !rest.is_empty() {
        return Err(Refused::Fault(files.len()));
    }
    Ok(tables)
}

// Takes the table at the front, if it is as the record says.
fn take_table(alloc: Global, file: &FileMeta, rest: &mut Bytes) -> Result<Option<Table>, AllocError>
    ensures some { IfOk result (λ o. IfSome o (λ t. IsAsRecorded file.now t × (rest.old ≡ sized t.bytes ++ rest.new))) }
    ensures none { IfOk result (λ o. IfNone o (StandsAsRecorded file.now rest.old → ⊥)) }
{
    let Some(text) = take_element(rest)? else {
        return Ok(None);
    };
    open_as_recorded(alloc, file, &text)
}
