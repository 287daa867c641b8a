//! The command line of `luddimpa`: which command it asks for, and in which folder.

use crate::calls::{once_of, with_calls};
use clap::error::ErrorKind;
use clap::{ArgMatches, Command, Error};
use lsm_commands::Once;
use lsm_options::{LogSync, Place, StoreCommand, limits_from, with_store_commands};
use std::alloc::{AllocError, Global};

/// What a command line asks for.
#[derive(Clone, Copy)]
pub(crate) enum Subcommand<'a> {
    /// A command that goes on, or that looks at the files of a folder.
    Store(StoreCommand<'a>),
    /// A single call of the store of a folder.
    Once(Place<'a>, Once<'a>),
}

/// The command line that the program takes.
fn command<'a>(alloc: Global) -> Result<Command<'a>, AllocError> {
    let command = Command::new(alloc, "luddimpa")
        .bin_name("luddimpa")?
        .version("0.1.0")
        .about("A key-value store in a folder")
        .no_binary_name(true)
        .subcommand_required(true);
    with_store_commands(alloc, with_calls(alloc, command)?)
}

/// Where a single call is made. An import is synced once, at its end.
fn place_of<'a>(options: &ArgMatches<'a>, once: &Once<'a>) -> Option<Place<'a>> {
    let log_sync = match once {
        Once::Import => LogSync::Asked,
        _ => LogSync::Each,
    };
    Some(Place {
        folder: options.get_str("dir")?,
        limits: limits_from(None, None, None)?,
        log_sync,
    })
}

/// The subcommand, or `None` if a limit is outside its range.
fn subcommand_in<'a>(matches: &ArgMatches<'a>) -> Option<Subcommand<'a>> {
    let (name, options) = matches.subcommand()?;
    match once_of(name, options) {
        Some(once) => Some(Subcommand::Once(place_of(options, &once)?, once)),
        None => Some(Subcommand::Store(StoreCommand::of(name, options)?)),
    }
}

/// The subcommand that the words after the program's name ask for. Every other line, help too, is an error of `clap`.
pub(crate) fn subcommand_of<'a>(
    alloc: Global,
    words: &'a [String],
) -> Result<Subcommand<'a>, Error> {
    let mut command = command(alloc)?;
    let matches = command.try_get_matches_from_mut(words)?;
    match subcommand_in(&matches) {
        Some(subcommand) => Ok(subcommand),
        None => Err(command.error(ErrorKind::ValueValidation, "a limit is outside its range")?),
    }
}
