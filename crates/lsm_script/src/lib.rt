//! Scripts as text: events out of lines, lines out of replies and of events.
//!
//! It promises that `parse` gives the events that the lines of a text say, or its first fault by line and reason, and
//! `events_in` those of one line; and that `write_line` appends the line that says a reply, byte for byte. The grammar
//! and the lines stand in its definitions: `specs/Script.antt` and `specs/Replies.antt` come first. `ScriptLine` writes
//! an event as a line that the program reads as that event; that is tested, by pictures of the examples. It runs
//! nothing and reads no stream. It stands on `lsm_line` for words and for what a store alone is asked and answers, on
//! `lsm_word` for how keys and values print, on `lsm_world` for events and replies, and on the coordinator for
//! refusals.
#![tactic(auto)]

mod command;
mod deliver;
mod fault;
mod follow;
mod followers;
mod jobs;
mod laws;
mod line;
mod lines;
mod names;
mod refusals;
mod schedule;
mod script;

pub use fault::Fault;
pub use followers::write_read;
pub use laws::script_limits_are_these;
pub use line::ScriptLine;
pub use lines::write_line;
pub use script::{events_in, parse};
