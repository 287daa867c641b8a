//! What the options of a command of a store ask for.

use crate::Place;
use crate::limits::limits_in;
use clap::ArgMatches;
use lsm_file_vault::LogSync;
use lsm_key::Limits;

/// A command of a store.
#[derive(Clone, Copy)]
pub enum StoreCommand<'a> {
    /// Answer commands to the store of a folder.
    Store(Place<'a>),
    /// Verify the files of a folder.
    Check(&'a str),
    /// Print the records of the log of a folder.
    DumpLog(&'a str),
    /// Print the entries of the tables of a folder.
    Dump(&'a str),
    /// Answer requests of Redis clients, to the store of a folder.
    Serve(Place<'a>),
    /// Answer requests of Redis clients, to a new store in memory.
    ServeMemory(Limits),
    /// Merge the jobs that come, as the worker of this number.
    Work(u8),
    /// Have the compactions of a folder's store made by workers, of which the last has this number.
    Dispatch(Place<'a>, u8),
}

impl<'a> StoreCommand<'a> {
    /// The command of this name, by its options, or `None` if the name is another one or a limit is outside its range.
    pub fn of(name: &str, options: &ArgMatches<'a>) -> Option<StoreCommand<'a>> {
        match name {
            "store" => Some(StoreCommand::Store(place_in(options, LogSync::Each)?)),
            "check" => Some(StoreCommand::Check(options.get_str("dir")?)),
            "dump" if options.get_flag("log") => {
                Some(StoreCommand::DumpLog(options.get_str("dir")?))
            }
            "dump" => Some(StoreCommand::Dump(options.get_str("dir")?)),
            "serve" if options.get_str("dir").is_some() => {
                Some(StoreCommand::Serve(place_in(options, LogSync::Asked)?))
            }
            "serve" => Some(StoreCommand::ServeMemory(limits_in(options)?)),
            "worker" => Some(StoreCommand::Work(number_in(options, "index", 1)?)),
            "dispatch" => {
                let workers = number_in(options, "workers", 2)?;
                Some(StoreCommand::Dispatch(place_in(options, LogSync::Each)?, workers))
            }
            _ => None,
        }
    }

    /// Its name, as it is typed.
    pub fn name(&self) -> &'static str {
        match self {
            StoreCommand::Store(_) => "store",
            StoreCommand::Check(_) => "check",
            StoreCommand::DumpLog(_) | StoreCommand::Dump(_) => "dump",
            StoreCommand::Serve(_) | StoreCommand::ServeMemory(_) => "serve",
            StoreCommand::Work(_) => "worker",
            StoreCommand::Dispatch(_, _) => "dispatch",
        }
    }
}

/// When the option `--sync` has the log of a folder synced.
fn log_sync_in(options: &ArgMatches<'_>, default: LogSync) -> LogSync {
    match options.get_str("sync") {
        Some("each") => LogSync::Each,
        Some("asked") => LogSync::Asked,
        Some("gathered") => LogSync::Gathered,
        _ => default,
    }
}

/// The folder, the limits and the way of syncing that the options of a command ask for.
fn place_in<'a>(options: &ArgMatches<'a>, default: LogSync) -> Option<Place<'a>> {
    Some(Place {
        folder: options.get_str("dir")?,
        limits: limits_in(options)?,
        log_sync: log_sync_in(options, default),
    })
}

/// The number that an option has, or its default.
fn number_in(options: &ArgMatches<'_>, name: &str, default: u64) -> Option<u8> {
    u8::try_from(options.get_one(name).unwrap_or(default)).ok()
}
