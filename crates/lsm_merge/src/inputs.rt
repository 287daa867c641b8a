//! Whether tables are the inputs of a job.

ghost use Rattle.std.specs.Prelude.{◌≡◌, ◌↔◌, IfOk, IsTrue, map};
ghost use Rattle.lsm_key.specs.Visible.{lent_entry};
ghost use Rattle.lsm_edit.specs.Served.{AreAsRecorded};
ghost use Rattle.std.specs.List.{list_any};
ghost use Rattle.lsm_merge.specs.Inputs.{HaveSameEntry, lists_of};
ghost use Rattle.lsm_merge.specs.Comparing.{has_place};

use lsm_block::{Cursor, entry_in};
use lsm_edit::{FileMeta, is_as_recorded};
use lsm_key::EntryRef;
use lsm_table::Table;
use std::alloc::{AllocError, Global};

// Whether there is one table for each record, as it says.
pub(crate) fn are_as_recorded(files: &[FileMeta], tables: &[Table]) -> bool
    ensures { IsTrue result ↔ AreAsRecorded files.now tables.now }
{
    if files.len() != tables.len() {
        return false;
    }
    for (i, file) in files.iter().enumerate() {
        if !is_as_recorded(file, &tables[i]) {
            return false;
        }
    }
    true
}

// A cursor before the first entry of each table.
pub(crate) fn cursors_of<'a>(
    alloc: Global,
    tables: &'a [Table],
) -> Result<Vec<Cursor<'a>>, AllocError>
    ensures { IfOk result (λ cursors. cursors.items ≡ lists_of tables.now) }
{
    let mut cursors = Vec::with_capacity(alloc, tables.len())?;
    for table in tables {
        cursors.push(table.cursor())?;
    }
    Ok(cursors)
}

// Whether two of the tables share an entry's key and sequence. Allocates nothing: each entry is looked up in each later
// table.
pub(crate) fn have_same_entry(tables: &[Table]) -> bool
    ensures { IsTrue result ↔ HaveSameEntry (lists_of tables.now) }
{
    for (i, table) in tables.iter().enumerate() {
        if shares_entry(table, &tables[i + 1..]) {
            return true;
        }
    }
    false
}

// Whether it shares one with a later table.
fn shares_entry(table: &Table, later: &[Table]) -> bool
    ensures { result ≡ list_any (λ e. list_any (λ t. has_place e.ikey t.entries) later.now) table.now.entries }
{
    let mut rest = table.span();
    while !rest.is_empty() {
        let (entry, after) = match entry_in(rest) {
            Ok(found) => found,
            // Never reached: a block has no fault.
            Err(_) => return false,
        };
        if is_in_one(later, &entry) {
            return true;
        }
        rest = after;
    }
    false
}

// Whether one of the tables has an entry of the key and sequence.
fn is_in_one(tables: &[Table], entry: &EntryRef<'_>) -> bool
    ensures { result ≡ list_any (λ t. has_place (lent_entry entry.now).ikey t.entries) tables.now }
{
    tables.iter().any(|table| has_place(table, entry))
}

fn has_place(table: &Table, entry: &EntryRef<'_>) -> bool
    ensures { result ≡ has_place (lent_entry entry.now).ikey table.now.entries }
{
    match table.get(entry.key, entry.seq) {
        Some(found) => found.seq == entry.seq,
        None => false,
    }
}
