//! The commands and answers of a store as lines: the words of sessions and scripts.
//!
//! It promises that a command's words give the call that they ask for, or the first fault, which is a wrong number of
//! words, or else the first one from left to right, as its definitions say; and that each writer appends the line of an
//! answer, or the piece of one. The grammar stands in `specs/Commands.antt`, the lines in `specs/Lines.antt`. It calls
//! no store and reads no stream. It stands on the coordinator for snapshots, listings and refusals, and on `lsm_key`.
#![tactic(auto)]

mod call;
mod commands;
mod fault;
mod lines;
mod listing;
mod number;
mod operations;
mod ranges;
mod refusals;
mod snapshot;
mod text;
mod token;
mod words;

pub use call::Call;
pub use commands::{delete, flush, get, put, release, show_store, snap};
pub use fault::Reason;
pub use lines::{write_got, write_released, write_scanned, write_snapped, write_wrote};
pub use listing::write_shown;
pub use number::read_number;
pub use operations::batch;
pub use ranges::{counted, scan};
pub use refusals::{coord_name, key_name};
pub use text::{write_bytes, write_line_end, write_name, write_number, write_numbers, write_text};
pub use token::key_or_value;
pub use words::{Lines, Words};
