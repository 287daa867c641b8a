//! What the commands of a store are asked for, and the arguments that say it, which the programs `luddimpa` and
//! `lsmsim` share.
//!
//! It has each of these commands with its options, what they ask for, and how a program reads its words, reports what
//! is wrong with them, and what its exit statuses are. It runs no command. It promises that the limits of a command are
//! those of its options, or their defaults, if each is in its range. The texts and the exit statuses are tested. It
//! stands on the vault of files for the ways of syncing a log, and on `clap`.
#![tactic(auto)]

mod asked;
mod commands;
mod limits;
mod place;
mod program;
mod session;
mod status;

pub use asked::StoreCommand;
pub use commands::{dir, with_store_commands};
pub use limits::{base, block, l0, limits_from, limits_in};
pub use lsm_file_vault::LogSync;
pub use place::Place;
pub use program::{answer_words, refuse_words, words_of};
pub use session::STORE_COMMANDS;
pub use status::{FAILED, REFUSED};
