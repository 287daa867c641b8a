//! Blocks: one or more entries in the order of their internal keys, as bytes without a gap.
//!
//! It promises that bytes are decoded as a block exactly when they are the one encoding of valid entries in order, that
//! otherwise the first fault is named, that a look-up in a block finds the newest visible entry, and that a cursor gives its
//! entries in turn. Entries are read where they lie: a search among fences, the prefixes of some keys, finds where a short walk
//! over the bytes begins. It stands on `lsm_key` for entries, their order and the fields of a format, and on `bytes` for shared
//! buffers.
#![tactic(auto)]

mod block;
mod block_entry;
mod cursor;
mod fault;
mod fences;
mod handle;
mod indexing;
mod laws;
mod lent;
mod ranges;
mod reader;
mod reading;
mod walk;
mod writing;

pub use block::{Block, decode_block, decode_with_hints};
pub use block_entry::BlockEntry;
pub use cursor::Cursor;
pub use fault::{BlockError, BlockFault};
pub use handle::BlockHandle;
pub use laws::{
    a_beginning_of_a_block_is_shorter_or_truncated, a_block_of_short_keys_is_a_block,
    a_change_is_refused_or_another_block,
};
pub use lent::entry_in;
pub use reader::BlocksReader;
pub use walk::seek_in;
pub use writing::{encode_block, write_entry};
