//! The table of a file, as its record says, or what is wrong with it.

ghost use Rattle.std.specs.Prelude.{◌≡◌, false, IfErr, IfOk, Some};
ghost use Rattle.std.specs.FinMap as map;
ghost use Rattle.lsm_key.specs.Sets.{is_among};
ghost use Rattle.lsm_table.specs.Tables.{IsTable};
ghost use Rattle.lsm_edit.specs.Served.{IsAsRecorded};
ghost use Rattle.lsm_inspect.specs.Check.{IsMismatch, RefusesTable};

use crate::Damage;
use lsm_edit::{FileMeta, is_as_recorded};
use lsm_file_vault::Contents;
use lsm_key::{FileNumber, Refused};
use lsm_table::Table;
use std::alloc::Global;

/// The table of a file, as its record says. The fault is the first thing that is wrong with it.
pub(crate) fn table_of(
    alloc: Global,
    contents: &Contents,
    file: &FileMeta,
) -> Result<Table, Refused<Damage>>
    ensures there { IfOk result (λ t. map.get contents.now.tables file.now.number ≡ Some t.bytes) }
    ensures recorded { IfOk result (λ t. IsAsRecorded file.now t) }
    ensures undamaged { IfOk result (λ _. is_among contents.now.damaged_tables.items file.now.number ≡ false) }
    ensures refused { IfErr result (RefusesTable contents.now.tables contents.now.damaged_tables.items file.now) }
{
    let number = FileNumber::new(file.number);
    if is_among(contents.damaged_tables.as_slice(), number) {
        return Err(Refused::Fault(Damage::NotWhole));
    }
    let Some(bytes) = contents.tables.get(number)? else {
        return Err(Refused::Fault(Damage::Missing));
    };
    let table = match Table::open(alloc, bytes) {
        Ok(table) => table,
        Err(Refused::Fault(fault)) => return Err(Refused::Fault(Damage::NotATable(fault))),
        Err(Refused::OutOfMemory) => return Err(Refused::OutOfMemory),
    };
    if !is_as_recorded(file, &table) {
        return Err(Refused::Fault(mismatch(file, &table)));
    }
    Ok(table)
}

// In what a table is not as its record says.
fn mismatch(file: &FileMeta, table: &Table) -> Damage
    requires table { IsTable table.now.bytes table.now.entries }
    requires other { IsAsRecorded file.now table.now → ⊥ }
    ensures { IsMismatch file.now table.now result }
{
    let (bytes, count) = (table.bytes().len(), table.count());
    if file.bytes as usize != bytes {
        return Damage::WrongLength(file.bytes, bytes);
    }
    if file.entries as usize != count {
        return Damage::WrongCount(file.entries, count);
    }
    Damage::WrongKeys
}

// Whether the number is one of these.
fn is_among(numbers: &[FileNumber], number: FileNumber) -> bool
    ensures { result ≡ is_among numbers.now number }
{
    numbers.iter().any(|other| *other == number)
}
