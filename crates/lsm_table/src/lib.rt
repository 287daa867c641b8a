//! Tables: entries in the order of their internal keys, as bytes that never change.
//!
//! It promises that bytes are opened as a table exactly when they are the one encoding of valid entries in order, that
//! otherwise the first fault is named, that a look-up in a table finds the newest visible entry, that a builder makes the
//! table of the entries that it was given, and that the next entry of several sources comes first of all that they have left.
//! It stands on `lsm_block` for blocks, on `lsm_key` for entries, their order and the fields of a format, and on `bytes` for
//! shared buffers.
#![tactic(auto)]

mod building;
mod fault;
mod head;
mod headroom;
mod heads;
mod index;
mod laws;
mod measuring;
mod reading;
mod table;
mod writing;
mod written;

pub use building::{BuildError, TableBuilder};
pub use fault::{TableError, TableFault};
pub use head::Head;
pub use heads::Heads;
pub use laws::{
    a_beginning_of_a_table_is_truncated, a_change_is_refused_or_another_table,
    a_memtable_fits_into_a_table, a_table_has_one_encoding, a_table_has_one_meaning,
    a_table_is_little_more_than_its_entries, entries_are_cut_in_one_way,
};
pub use table::Table;
