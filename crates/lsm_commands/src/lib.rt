//! The commands of a store: sessions and single calls over the store of a folder, what checks and dumps it, and what
//! serves it over pipes.
//!
//! It opens folders, reports what is wrong with them, and hands standard input and output to the layers below. It
//! promises that a session answers each call by what the store held and holds, and that a get, a put, a deletion, a
//! scan and an export write what they have of it; for the rest no more than these layers do. Tested is that an exit
//! status other than 0 comes with its reason, on standard error, or, where `check` finds damage, as its report on
//! standard output; and that what a command has answered is synced, as its folder is to be synced, or that it says that
//! it is not. It reads no arguments: `lsm_options` says what they ask for. It stands on the store, on the vault of
//! files, on the words of lines, on what checks and dumps a folder, and on what serves it.
#![tactic(auto)]

mod command;
mod dispatching;
mod error;
mod inspect;
mod laws;
mod made;
mod once;
mod opening;
mod screen;
mod serve;
mod session;
mod streams;
mod worker;

pub use command::run_command;
pub(crate) use error::CommandError;
pub use laws::an_export_has_every_key;
pub use once::{Form, Once, run_once};
pub(crate) use screen::Screen;
pub(crate) use streams::check_streams;
