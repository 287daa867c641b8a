//! Tables, and whether they are as file records say.

ghost use Rattle.std.specs.Prelude.{◌≡◌, ◌↔◌, IfNone, IfOk, IfSome, IsTrue};
ghost use Rattle.lsm_table.specs.Tables.{Opened};
ghost use Rattle.lsm_edit.specs.Served.{IsAsRecorded};

use crate::FileMeta;
use bytes::Bytes;
use lsm_key::Refused;
use lsm_table::Table;
use std::alloc::{AllocError, Global};

/// Whether a table is as its record says: by its least and greatest key, its length in bytes and its number of entries.
pub fn is_as_recorded(file: &FileMeta, table: &Table) -> bool
    ensures { IsTrue result ↔ IsAsRecorded file.now table.now }
{
    file.smallest == *table.smallest()
        && file.largest == *table.largest()
        && file.bytes as usize == table.bytes().len()
        && file.entries as usize == table.count()
}

/// The table that the bytes encode, if it is as the record says. Shares the bytes.
pub fn open_as_recorded(
    alloc: Global,
    file: &FileMeta,
    bytes: &Bytes,
) -> Result<Option<Table>, AllocError>
    ensures some { IfOk result (λ o. IfSome o (λ t. (t.bytes ≡ bytes.now) × IsAsRecorded file.now t)) }
    ensures none { IfOk result (λ o. IfNone o ((t : Opened) → t.bytes ≡ bytes.now → IsAsRecorded file.now t → ⊥)) }
{
    let table = match Table::open(alloc, bytes.clone()?) {
        Ok(table) => table,
        Err(Refused::Fault(_)) => return Ok(None),
        Err(Refused::OutOfMemory) => return Err(AllocError),
    };
    if !is_as_recorded(file, &table) {
        return Ok(None);
    }
    Ok(Some(table))
}
