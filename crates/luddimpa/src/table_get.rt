//! Reading a value in a table.

ghost use Rattle.std.specs.Prelude.{◌≡◌};
ghost use Rattle.luddimpa.specs.declared.found.Lookup.{Lookup};
ghost use Rattle.luddimpa.specs.Lookups.{LooksUp, found_of};

use crate::copying::copy_out;
use crate::found::{Found, Lookup};
use crate::opening::open_table;
use lsm_key::{Kind, Refused, Seq};
use lsm_table::Table;
use std::alloc::Global;

/// Reads the value of a key in a table's bytes, at a sequence: that of its entry of the greatest sequence up to there. The value is
/// copied to the front of `out` if it has room for all of it; otherwise `out` stays as it was.
#[unsafe(no_mangle)]
pub extern "C" fn luddimpa_table_get(
    alloc: Global,
    table: &[u8],
    key: &[u8],
    at: u64,
    out: &mut [u8],
) -> Found
    ensures { (found : Lookup) × (result ≡ found_of found) × LooksUp table.now key.now at out.old out.new found }
{
    Found::of(look_up(alloc, table, key, at, out))
}

fn look_up(alloc: Global, table: &[u8], key: &[u8], at: u64, out: &mut [u8]) -> Lookup
    ensures { LooksUp table.now key.now at out.old out.new result }
{
    if at > Seq::MAX {
        return Lookup::NoSequence;
    }
    match open_table(alloc, table) {
        Ok(opened) => read(&opened, key, Seq::new(at), out),
        Err(Refused::Fault(_)) => Lookup::NotATable,
        Err(Refused::OutOfMemory) => Lookup::OutOfMemory,
    }
}

fn read(table: &Table, key: &[u8], at: Seq, out: &mut [u8]) -> Lookup
    ensures { LooksUp table.now.bytes key.now at out.old out.new result }
{
    // Proof hint: it is a table, and a sequence is below 2^56.
    let _bytes = table.bytes();
    let _number = at.number();
    let Some(entry) = table.get(key, at) else {
        return Lookup::Absent;
    };
    match entry.kind {
        Kind::Delete => Lookup::Deleted,
        Kind::Put => {
            copy_out(entry.value, out);
            Lookup::Value(entry.value.len())
        }
    }
}
