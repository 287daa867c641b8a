//! The memtable: the entries that were written last, in memory, in the order of internal keys.
//!
//! It promises that a batch is applied as a whole or not at all and can be taken out again, look-ups that return what is
//! visible in the set of its entries, and its entries in order: all as a table, those of a range, or one after the other
//! from a key on. It finds a key by its prefix, a number, and owns the bytes of its entries, those of their batches' log
//! records, in chunks that many of them share. It stands on `lsm_edit`, `lsm_table`, `lsm_block` and `lsm_key`.
#![tactic(auto)]

mod bucket;
mod bucket_cursor;
mod buckets;
mod chains;
mod chunk;
mod front;
mod laws;
mod memtable;
mod memtable_cursor;
mod table;
mod totals;
mod versions;

pub use laws::an_undo_takes_back_a_batch;
pub use memtable::Memtable;
pub use memtable_cursor::MemtableCursor;
