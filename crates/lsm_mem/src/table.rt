//! The table of a memtable's entries.

ghost use Rattle.std.specs.Prelude.{◌≡◌, IfOk};
ghost use Rattle.lsm_key.specs.Entries.{AreSound};
ghost use Rattle.lsm_key.specs.Order.{IsAscending};
ghost use Rattle.lsm_table.specs.Tables.{IsTarget, target_of};

use crate::memtable_cursor::MemtableCursor;
use lsm_table::{Table, TableBuilder};
use std::alloc::{AllocError, Global};

/// The table of the entries that a cursor has left, which weigh `weight` bytes or about as much, its blocks cut at the target, in bytes.
pub(crate) fn table_of(
    alloc: Global,
    target: u32,
    weight: usize,
    cursor: MemtableCursor<'_>,
) -> Result<Table, AllocError>
    requires target { IsTarget target }
    requires sound { AreSound cursor }
    requires ascending { IsAscending cursor }
    ensures { IfOk result (λ table. (table.entries ≡ cursor.entry) × (target_of table.bytes ≡ target)) }
{
    let mut builder = TableBuilder::expecting(alloc, target, weight);
    for entry in cursor {
        match builder.add_next(entry) {
            Ok(()) => {}
            // Memory ran out: what a memtable weighs fits into a table.
            Err(_) => return Err(AllocError),
        }
    }
    match builder.finish_open() {
        Ok(table) => Ok(table),
        // Memory ran out, or there is no entry.
        Err(_) => Err(AllocError),
    }
}
