//! Checking a table.

ghost use Rattle.std.specs.Prelude.{◌≡◌};
ghost use Rattle.luddimpa.specs.declared.table_check.TableCheck.{TableCheck};
ghost use Rattle.luddimpa.specs.TableChecks.{ChecksTable, checked_of};

use crate::opening::open_table;
use crate::status::Status;
use crate::table_fault::table_fault_code;
use lsm_key::Refused;
use lsm_table::TableFault;
use std::alloc::Global;

/// What a check of a table finds.
#[derive(Clone, Copy)]
pub(crate) enum TableCheck {
    /// A table of so many entries.
    Table(usize),
    /// The first fault.
    Fault(TableFault),
    OutOfMemory,
}

/// The same for C.
#[repr(C)]
#[derive(Clone, Copy)]
pub struct CheckedTable {
    pub status: u32,
    /// The first fault; 0 if there is none.
    pub fault: u32,
    /// How many entries it has; 0 if it is no table.
    pub entries: usize,
}

impl CheckedTable {
    pub(crate) fn of(check: TableCheck) -> CheckedTable
        ensures { result ≡ checked_of check }
    {
        let (status, fault, entries) = match check {
            TableCheck::Table(entries) => (Status::Ok, 0, entries),
            TableCheck::Fault(fault) => (Status::NotATable, table_fault_code(fault), 0),
            TableCheck::OutOfMemory => (Status::OutOfMemory, 0, 0),
        };
        CheckedTable {
            status: status.code(),
            fault,
            entries,
        }
    }
}

/// Checks that bytes are a table: each of them, and nothing behind it.
#[unsafe(no_mangle)]
pub extern "C" fn luddimpa_table_check(alloc: Global, table: &[u8]) -> CheckedTable
    ensures { (check : TableCheck) × (result ≡ checked_of check) × ChecksTable table.now check }
{
    CheckedTable::of(check(alloc, table))
}

fn check(alloc: Global, table: &[u8]) -> TableCheck
    ensures { ChecksTable table.now result }
{
    match open_table(alloc, table) {
        Ok(opened) => TableCheck::Table(opened.count()),
        Err(Refused::Fault(fault)) => TableCheck::Fault(fault),
        Err(Refused::OutOfMemory) => TableCheck::OutOfMemory,
    }
}
