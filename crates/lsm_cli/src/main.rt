//! The program `luddimpa`: a store in a folder. It answers sessions, clients and single calls, checks and dumps a
//! folder, and hands compactions to workers. Only the arguments are read here; `lsm_commands` does what they ask.
#![tactic(auto)]

mod calls;
mod options;

use lsm_commands::{run_command, run_once};
use lsm_options::{answer_words, refuse_words, words_of};
use options::{Subcommand, subcommand_of};
use std::process::ExitCode;

fn main(rt: HostRuntime) -> ExitCode {
    let words = match words_of(&rt) {
        Ok(words) => words,
        Err(error) => return refuse_words(&rt, &error),
    };
    match subcommand_of(rt.alloc(), words.as_slice()) {
        Ok(Subcommand::Store(command)) => run_command(&rt, command),
        Ok(Subcommand::Once(place, once)) => run_once(&rt, place, &once),
        Err(error) => answer_words(&rt, error),
    }
}
