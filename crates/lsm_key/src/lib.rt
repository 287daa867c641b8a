//! Keys, key ranges, sequences, numbers, entries, batches of writes and the limits: what every other crate of the store uses.
//!
//! It promises a total order of internal keys, and of the prefixes of keys; batches within their limits; and readers and
//! writers of the fields that all formats share. It stands on no other crate of the store.
#![tactic(auto)]

mod batch;
mod entry;
mod fields;
mod items;
mod laws;
mod lent;
mod limits;
mod lookup;
mod number;
mod op;
mod prefix;
mod range;
mod refused;
mod seq;
mod versions;

pub use batch::{Batch, KeyError};
pub use entry::{Entry, EntryRef, InternalKey, Kind};
pub use fields::{
    know_bytes, know_slice, read_key, read_piece, read_ranged_u8, read_ranged_u32, read_ranged_u64,
    read_trailer, read_u8, read_u16, read_u32, read_u64, write_key, write_trailer,
};
pub use items::Items;
pub use laws::{
    all_levels_are_these, an_earlier_place_is_newer, limits_are_these, newest_is_the_greatest,
    order_does_not_matter, visible_is_the_greatest,
};
pub use lent::{key_in, piece_in, trailer_in, u16_in, u32_in, u64_in};
pub use limits::{
    ALL_LEVELS, DEFAULT_BASE, DEFAULT_BLOCK, DEFAULT_L0, ENTRY_OVERHEAD, Limits, MAX_BASE,
    MAX_BATCH_OPS, MAX_BATCH_WEIGHT, MAX_DEEPER, MAX_INPUT_BYTES, MAX_INPUTS, MAX_JOB_LEVEL,
    MAX_KEY_BYTES, MAX_L0, MAX_LEVEL, MAX_LIVE_CLAIMS, MAX_MEMTABLE_WEIGHT, MAX_NODES, MAX_NUMBER,
    MAX_POINTS, MAX_SHORT_KEY_BYTES, MAX_SNAPSHOTS, MAX_TABLE_BYTES, MAX_VALUE_BYTES, NUM_LEVELS,
};
pub use lookup::compare_place;
pub use number::{FileNumber, VersionNumber};
pub use op::Op;
pub use prefix::prefix_of;
pub use range::{KeyRange, KeyRangeRef};
pub use refused::Refused;
pub use seq::Seq;
pub use versions::{is_long, key_limit};
