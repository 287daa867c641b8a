//! The lines of a session, each answered before the next one is waited for, once the store is synced.

use super::answer::answer_call;
use super::compact::compact;
use super::console::{Console, NextLine};
use super::lines::write_answer;
use super::request::{FaultyLine, LineFault, Request, request_in};
use super::stats::stats;
use super::usage::{quotes_of, usage_of};
use crate::{CommandError, Screen};
use lsm_file_vault::Incidents;
use lsm_key::Refused;
use lsm_line::{write_line_end, write_text};
use lsm_options::STORE_COMMANDS;
use lsm_store::Store;
use lsm_vault::Vault;
use std::alloc::Global;
use std::io::{Read, Write};

/// What comes after a line.
#[derive(Clone, Copy)]
enum Next {
    Line,
    End,
}

/// Answers the lines of the console until they end, and reports those that are faulty, each behind the answers to the lines before it.
/// The store is synced before answers are written, once for all lines that have come. Returns whether no line was faulty.
pub(crate) fn talk<R: Read + Drop, W: Write + Drop, V: Vault>(
    alloc: Global,
    store: &mut Store<V>,
    incidents: &Incidents,
    console: &mut Console<R, W>,
    screen: &Screen<'_>,
) -> Result<bool, CommandError> {
    let mut line = Vec::new(alloc);
    talk_by(alloc, store, incidents, console, screen, &mut line)
}

// The same, with room for a line.
fn talk_by<R: Read + Drop, W: Write + Drop, V: Vault>(
    alloc: Global,
    store: &mut Store<V>,
    incidents: &Incidents,
    console: &mut Console<R, W>,
    screen: &Screen<'_>,
    line: &mut Vec<u8>,
) -> Result<bool, CommandError> {
    let mut are_right = true;
    for number in 1..u64::MAX {
        let answered = match next_line(store, console, line)? {
            NextLine::End => {
                // Nothing was typed behind the last prompt, whose line ends here.
                console.prompt("\n")?;
                break;
            }
            NextLine::TooLong => Err(Refused::Fault(LineFault::TooLong)),
            NextLine::MaybeCut => Err(Refused::Fault(LineFault::MaybeCut)),
            NextLine::Line => answer_line(alloc, store, line, screen, &mut console.out),
        };
        match answered {
            Ok(Next::Line) => {}
            Ok(Next::End) => break,
            Err(Refused::OutOfMemory) => return Err(CommandError::OutOfMemory),
            Err(Refused::Fault(fault)) => {
                are_right = false;
                write_answers(store, console)?;
                report_fault(screen, line, &FaultyLine { number, fault });
            }
        }
        report_device(store, console, screen, incidents)?;
    }
    write_answers(store, console)?;
    Ok(are_right)
}

// The next line. If it has not come yet, or the answers so far are many, these are written first.
fn next_line<R: Read + Drop, W: Write + Drop, V: Vault>(
    store: &mut Store<V>,
    console: &mut Console<R, W>,
    line: &mut Vec<u8>,
) -> Result<NextLine, CommandError> {
    console.prompt("> ")?;
    if console.is_due() {
        write_answers(store, console)?;
    }
    Ok(console.read_line(line)?)
}

// Syncs the store, and then writes the answers so far. If the store is not synced, none of them is written.
fn write_answers<R: Read + Drop, W: Write + Drop, V: Vault>(
    store: &mut Store<V>,
    console: &mut Console<R, W>,
) -> Result<(), CommandError> {
    store.sync().map_err(CommandError::NotSynced)?;
    console.write_out()?;
    Ok(())
}

// Reports what the system says of a device that failed, behind the line that says that it did.
fn report_device<R: Read + Drop, W: Write + Drop, V: Vault>(
    store: &mut Store<V>,
    console: &mut Console<R, W>,
    screen: &Screen<'_>,
    incidents: &Incidents,
) -> Result<(), CommandError> {
    let error = incidents.take_error();
    if error.is_some() {
        write_answers(store, console)?;
        screen.report_device(&error);
    }
    Ok(())
}

// Reports a faulty line, and how its command is written.
fn report_fault(screen: &Screen<'_>, line: &[u8], faulty: &FaultyLine) {
    screen.report(faulty);
    if let Some(usage) = usage_of(line, faulty.fault) {
        screen.report(&usage);
    }
    if let Some(quotes) = quotes_of(line, faulty.fault) {
        screen.report(&quotes);
    }
}

// Writes the line that answers a line, or says why there is none.
fn answer_line<V: Vault>(
    alloc: Global,
    store: &mut Store<V>,
    line: &[u8],
    screen: &Screen<'_>,
    out: &mut Vec<u8>,
) -> Result<Next, Refused<LineFault>> {
    match request_in(alloc, line)? {
        None => {}
        Some(Request::Quit) => return Ok(Next::End),
        Some(Request::Help) => {
            write_text(out, STORE_COMMANDS)?;
            write_line_end(out)?;
        }
        Some(Request::Compact) => {
            compact(store, screen, out)?;
            write_line_end(out)?;
        }
        Some(Request::Stats) => {
            stats(store, out)?;
            write_line_end(out)?;
        }
        Some(Request::Call(call)) => {
            let answer = answer_call(alloc, store, call);
            write_answer(alloc, out, &answer)?;
        }
    }
    Ok(Next::Line)
}
