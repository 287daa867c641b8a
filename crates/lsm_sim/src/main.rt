//! The program `lsmsim`: runs a script of events against a store and its nodes, and prints each reply or draws what
//! happened; explores all short schedules; or runs a store that threads share. It has the commands of a store too, as
//! the program `luddimpa`.
#![tactic(auto)]

mod draw;
mod error;
mod explore;
mod options;
mod run;
mod threads;

use draw::draw_script;
use error::{RunError, code_of};
use explore::explore_schedules;
use lsm_commands::run_command;
use lsm_options::{FAILED, StoreCommand, answer_words, refuse_words, words_of};
use options::{Subcommand, subcommand_of};
use run::run_script;
use std::io::{self, IsTerminal};
use std::process::ExitCode;
use threads::show_threads;

/// Reports the error on standard error.
fn fail(rt: &impl Eprint, error: RunError) -> ExitCode {
    let _ = rt.eprintln(error);
    ExitCode::from(code_of(error))
}

/// Runs a command of a store, and names its new home on a terminal.
fn run_store(rt: &HostRuntime, command: StoreCommand<'_>) -> ExitCode {
    if rt.stderr().is_terminal() {
        let name = command.name();
        let _ = eprintln!(rt; "lsmsim: './luddimpa {name}' is this command's new home");
    }
    run_command(rt, command)
}

fn main(rt: HostRuntime) -> ExitCode {
    let words = match words_of(&rt) {
        Ok(words) => words,
        Err(error) => return refuse_words(&rt, &error),
    };
    let subcommand = match subcommand_of(rt.alloc(), words.as_slice()) {
        Ok(subcommand) => subcommand,
        Err(error) => return answer_words(&rt, error),
    };
    let (reader, writer) = (&mut rt.reader(), &mut io::writer(&rt));
    let done = match subcommand {
        Subcommand::Run(limits) => run_script(rt.alloc(), reader, writer, limits).map(|()| true),
        Subcommand::Draw(limits) => draw_script(rt.alloc(), reader, writer, limits).map(|()| true),
        Subcommand::Explore(exploration) => explore_schedules(&rt, writer, exploration),
        Subcommand::Threads => show_threads(&rt, rt.alloc(), writer).map(|()| true),
        Subcommand::Store(command) => return run_store(&rt, command),
    };
    match done {
        Ok(true) => ExitCode::SUCCESS,
        Ok(false) => ExitCode::from(FAILED),
        Err(error) => fail(&rt, error),
    }
}
