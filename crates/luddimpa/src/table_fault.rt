//! The codes of what is wrong with a table.

ghost use Rattle.std.specs.Prelude.{◌≡◌};
ghost use Rattle.luddimpa.specs.Statuses.{table_fault_code};

use lsm_table::TableFault;

/// The code of a fault of a table's bytes.
pub(crate) fn table_fault_code(fault: TableFault) -> u32
    ensures { result ≡ table_fault_code fault }
{
    match fault {
        TableFault::Truncated => 1,
        TableFault::BadMagic => 2,
        TableFault::BadVersion => 3,
        TableFault::BadIndex => 6,
        TableFault::BadBlock => 7,
        TableFault::BadCut => 8,
        TableFault::TrailingBytes => 9,
        TableFault::TooLarge => 10,
        TableFault::NeedlessVersion => 17,
    }
}
