//! A session: commands, line by line, to a store that keeps its data in a folder.

pub(crate) mod answer;
pub(crate) mod compact;
pub(crate) mod console;
pub(crate) mod lines;
pub(crate) mod request;
pub(crate) mod stats;
mod talk;
pub(crate) mod usage;

use crate::opening::{OpenStore, store_over_streams};
use crate::{CommandError, Screen};
use console::Console;
use lsm_options::{Place, REFUSED};
use std::io;
use std::io::IsTerminal;
use std::process::ExitCode;
use talk::talk;

/// Opens the store of a folder, and answers the commands of standard input on standard output until the input ends. What was answered
/// is synced; the store is not flushed. Faults are reported on standard error.
pub(crate) fn run_session(rt: &HostRuntime, place: Place<'_>) -> ExitCode {
    let screen = Screen::new(rt);
    let mut opened = match store_over_streams(rt, place, &screen) {
        Ok(opened) => opened,
        Err(status) => return status,
    };
    let status = match talk_to(rt, &mut opened, &screen) {
        Ok(true) => ExitCode::SUCCESS,
        Ok(false) => ExitCode::from(REFUSED),
        Err(error) => {
            let status = screen.fail(&error);
            screen.report_device(&opened.incidents.take_error());
            status
        }
    };
    opened.close();
    status
}

// Answers the commands of standard input, and syncs the store, however they end. Returns whether all of its lines were commands.
fn talk_to(
    rt: &HostRuntime,
    opened: &mut OpenStore,
    screen: &Screen<'_>,
) -> Result<bool, CommandError> {
    let has_prompt = rt.stdin().is_terminal();
    let mut console = Console::new(rt.alloc(), rt.reader(), io::writer(rt), has_prompt)?;
    let (store, incidents) = (&mut opened.store, &opened.incidents);
    let talked = talk(rt.alloc(), store, incidents, &mut console, screen);
    match &talked {
        Ok(_) | Err(CommandError::NotSynced(_)) => {}
        Err(_) => {
            // What was done and not answered promises nothing, but need not be lost.
            let _ = store.sync();
        }
    }
    talked
}
