//! Keys, values and operations as words: the spelling of scripts, sessions and dumps.
//!
//! It is meant to write bytes from space to `~` that the program reads as what they were written of. That is tested, by pictures, dumps
//! and the logs that a session takes again: of this crate it is proved that it is safe and ends. It stands on `lsm_key` for operations.
#![tactic(auto)]

mod operation;
mod word;

pub use operation::{Operation, Operations};
pub use word::Word;
