//! The commands that are one call of a store: each opens a folder, does one thing there, and ends.

ghost use Rattle.std.specs.Prelude.{OnOk};
ghost use Rattle.lsm_commands.specs.Once.{WritesSequence};

mod import;
mod pairs;
mod value;
mod work;

use crate::opening::{FolderStore, OpenStore, fail_to_open, open_made_store, open_store};
use crate::session::answer::{Answer, answer_call};
use crate::session::compact::{compact_all, write_due};
use crate::session::lines::write_answer;
use crate::session::stats::write_stats;
use crate::{CommandError, Screen, check_streams};
use import::import;
use lsm_io::write_out;
use lsm_key::{Items, Op};
use lsm_line::{Call, write_line_end};
use lsm_options::{FAILED, Place};
use lsm_store::Store;
use lsm_vault::Vault;
use pairs::write_pairs;
use std::alloc::Global;
use std::io::{self, Write};
use std::process::ExitCode;
use value::write_value;
use work::Work;

/// How a value is written.
#[derive(Clone, Copy)]
pub enum Form {
    /// Its bytes, and nothing else.
    Bytes,
    /// A line of two hexadecimal digits a byte.
    Hex,
}

/// A command that is one call of a store. Keys and values are words, as a session reads them.
#[derive(Clone, Copy)]
pub enum Once<'a> {
    /// Write the value of a key.
    Get(&'a str, Form),
    /// Put a key with its value.
    Put(&'a str, &'a str),
    /// Delete a key.
    Delete(&'a str),
    /// Write the first pairs from a key up to another one, at most this number of them.
    Scan(&'a str, &'a str, u64),
    /// Write the sequences and what each level has.
    Stats,
    /// Bring all into tables, and run the compactions that are due.
    Compact,
    /// Write all pairs as lines that a session or an import reads.
    Export,
    /// Put the pairs of such lines.
    Import,
}

/// Does a command that is one call of the store of a folder. What it says that it wrote is synced. Only a put and an import make a
/// folder that is not there. The exit status is 0 if it is done, 1 if the store or a stream failed, or a key has no value, and 2 if
/// a word, or a line of an import, is refused.
pub fn run_once(rt: &HostRuntime, place: Place<'_>, once: &Once<'_>) -> ExitCode {
    let screen = match once {
        Once::Compact | Once::Import => Screen::new(rt),
        _ => Screen::still(rt),
    };
    let work = match begin(rt, once) {
        Ok(work) => work,
        Err(error) => return error.end(&screen),
    };
    let opened = if work.makes_folder() {
        open_store(rt, place, &screen)
    } else {
        open_made_store(rt, place, &screen)
    };
    let mut opened = match opened {
        Ok(opened) => opened,
        Err(error) => return fail_to_open(rt, place.folder, &screen, &error),
    };
    let status = match act(rt, &mut opened, &screen, work) {
        Ok(status) => status,
        Err(error) => {
            let status = error.end(&screen);
            screen.report_device(&opened.incidents.take_error());
            status
        }
    };
    opened.close();
    status
}

// Reads the words, before anything is touched.
fn begin(rt: &HostRuntime, once: &Once<'_>) -> Result<Work, CommandError> {
    check_streams(rt)?;
    Work::of(rt.alloc(), once)
}

// Does it in an opened store.
fn act(
    rt: &HostRuntime,
    opened: &mut OpenStore,
    screen: &Screen<'_>,
    work: Work,
) -> Result<ExitCode, CommandError> {
    let (alloc, store) = (rt.alloc(), &mut opened.store);
    let writer = &mut io::writer(rt);
    match work {
        Work::Get(key, form) => {
            if !write_value(alloc, store, &key, form, writer)? {
                screen.report(&"the key has no value");
                return Ok(ExitCode::from(FAILED));
            }
        }
        Work::Write(op) => write(alloc, store, op, writer)?,
        Work::Pairs(range) => write_pairs(alloc, store, &range, writer)?,
        Work::Stats => show_stats(alloc, store, writer)?,
        Work::Compact => compact(alloc, store, screen, writer)?,
        Work::Import => return import(rt, store, screen, writer),
    }
    Ok(ExitCode::SUCCESS)
}

// Writes an operation, syncs it, and then writes its sequence.
fn write<V: Vault, W: Write>(
    alloc: Global,
    store: &mut Store<V>,
    op: Op,
    writer: &mut W,
) -> Result<(), CommandError>
    ensures { OnOk result (WritesSequence store.old op store.new (W.contents writer.old) (W.contents writer.new)) }
{
    let ops = Items::from_vec(vec![in alloc; op]?);
    let answer = answer_call(alloc, store, Call::Write(ops));
    if let Answer::Refused(why) = answer {
        return Err(CommandError::Refused(why));
    }
    store.sync().map_err(CommandError::NotSynced)?;
    let mut out = Vec::new(alloc);
    write_answer(alloc, &mut out, &answer)?;
    Ok(write_out(writer, &mut out)?)
}

// Writes what a session's `stats` does.
fn show_stats<W: Write>(
    alloc: Global,
    store: &mut FolderStore,
    writer: &mut W,
) -> Result<(), CommandError> {
    let written = store.written()?;
    let mut out = Vec::new(alloc);
    write_stats(store, &mut out, written)?;
    write_line_end(&mut out)?;
    Ok(write_out(writer, &mut out)?)
}

// Brings all into tables, runs the compactions that are due, and writes what is still due.
fn compact<W: Write>(
    alloc: Global,
    store: &mut FolderStore,
    screen: &Screen<'_>,
    writer: &mut W,
) -> Result<(), CommandError> {
    store.flush()?;
    let due = compact_all(store, screen)?;
    let mut out = Vec::new(alloc);
    write_due(&mut out, due)?;
    write_line_end(&mut out)?;
    Ok(write_out(writer, &mut out)?)
}
