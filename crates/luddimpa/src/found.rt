//! What a look-up in a table finds.

ghost use Rattle.std.specs.Prelude.{◌≡◌};
ghost use Rattle.luddimpa.specs.Lookups.{found_of};

use crate::status::Status;

/// What a look-up in a table finds.
#[derive(Clone, Copy)]
pub(crate) enum Lookup {
    /// A value of this length.
    Value(usize),
    /// A deletion.
    Deleted,
    /// Nothing.
    Absent,
    /// There is no such sequence.
    NoSequence,
    /// The bytes are no table.
    NotATable,
    OutOfMemory,
}

/// The same for C.
#[repr(C)]
#[derive(Clone, Copy)]
pub struct Found {
    pub status: u32,
    /// How many bytes the value has; 0 if there is none.
    pub length: usize,
}

impl Found {
    pub(crate) fn of(lookup: Lookup) -> Found
        ensures { result ≡ found_of lookup }
    {
        let (status, length) = match lookup {
            Lookup::Value(length) => (Status::Ok, length),
            Lookup::Deleted => (Status::Deleted, 0),
            Lookup::Absent => (Status::Absent, 0),
            Lookup::NoSequence => (Status::NoSequence, 0),
            Lookup::NotATable => (Status::NotATable, 0),
            Lookup::OutOfMemory => (Status::OutOfMemory, 0),
        };
        Found {
            status: status.code(),
            length,
        }
    }
}
