//! The commands of a store, with their options.

use crate::limits::{base, block, l0};
use crate::session::STORE_COMMANDS;
use clap::builder::ValueParser;
use clap::{Arg, Command, value_parser};
use std::alloc::{AllocError, Global};

const STORE_SYNC_HELP: &str =
    "How writes are synced before they are answered: each by itself, asked for once for all that have come, or gathered in memory until that [default: each]";

const SERVE_SYNC_HELP: &str =
    "How writes are synced before they are answered: each by itself, asked for once for all that have come, or gathered in memory until that [default: asked]";

/// The same command line, with the commands of a store after those that it has.
pub fn with_store_commands<'a>(
    alloc: Global,
    command: Command<'a>,
) -> Result<Command<'a>, AllocError> {
    command
        .subcommand(store(alloc)?)?
        .subcommand(check(alloc)?)?
        .subcommand(dump(alloc)?)?
        .subcommand(serve(alloc)?)?
        .subcommand(dispatch(alloc)?)?
        .subcommand(worker(alloc)?)
}

/// When writes are synced.
fn sync<'a>(alloc: Global, help: &'a str) -> Arg<'a> {
    let ways: &'a [&'a str] = &["each", "asked", "gathered"];
    Arg::new(alloc, "sync")
        .long("sync")
        .value_name("WAY")
        .help(help)
        .value_parser(ValueParser::Names(ways))
}

/// The folder of a store.
pub fn dir<'a>(alloc: Global, help: &'a str) -> Arg<'a> {
    Arg::new(alloc, "dir")
        .long("dir")
        .value_name("PATH")
        .help(help)
        .required(true)
}

/// `check`, with its option.
fn check<'a>(alloc: Global) -> Result<Command<'a>, AllocError> {
    Command::new(alloc, "check")
        .about(
            "Verify each file of a store's folder, change nothing, and print a line for each level",
        )
        .arg(dir(alloc, "The folder that keeps the data"))
}

/// `dump`, with its option.
fn dump<'a>(alloc: Global) -> Result<Command<'a>, AllocError> {
    Command::new(alloc, "dump")
        .about(
            "Print each entry of the tables that a folder keeps, or each record of its log, and change nothing",
        )
        .arg(dir(alloc, "The folder that keeps the data"))?
        .arg(log(alloc))
}

/// Whether it is the log that is dumped.
fn log<'a>(alloc: Global) -> Arg<'a> {
    Arg::new(alloc, "log")
        .long("log")
        .help("Print the records of the log in place of the entries")
        .action(clap::ArgAction::SetTrue)
}

/// `store`, with its options.
fn store<'a>(alloc: Global) -> Result<Command<'a>, AllocError> {
    Command::new(alloc, "store")
        .about(
            "Answer commands from standard input, line by line, to a store that keeps its data in a folder",
        )
        .after_help(STORE_COMMANDS)
        .arg(dir(
            alloc,
            "The folder that keeps the data; made if there is none",
        ))?
        .arg(sync(alloc, STORE_SYNC_HELP))?
        .arg(l0(alloc))?
        .arg(base(alloc))?
        .arg(block(alloc))
}

/// `serve`, with its options.
fn serve<'a>(alloc: Global) -> Result<Command<'a>, AllocError> {
    let dir = dir(
        alloc,
        "The folder that keeps the data; without it the store is in memory",
    );
    Command::new(alloc, "serve")
        .about("Answer requests of Redis clients (RESP2) from standard input")
        .arg(dir.required(false))?
        .arg(sync(alloc, SERVE_SYNC_HELP))?
        .arg(l0(alloc))?
        .arg(base(alloc))?
        .arg(block(alloc))
}

/// `worker`, with its option.
fn worker<'a>(alloc: Global) -> Result<Command<'a>, AllocError> {
    let index = Arg::new(alloc, "index")
        .long("index")
        .value_name("N")
        .help("Which worker it is, 1 to 4 [default: 1]")
        .value_parser(value_parser!(u64).range(1..=4));
    Command::new(alloc, "worker")
        .about(
            "Merge the jobs that come as messages on standard input, and send the results on standard output",
        )
        .arg(index)
}

/// `dispatch`, with its options.
fn dispatch<'a>(alloc: Global) -> Result<Command<'a>, AllocError> {
    let workers = Arg::new(alloc, "workers")
        .long("workers")
        .value_name("N")
        .help("How many workers there are, 1 to 4 [default: 2]")
        .value_parser(value_parser!(u64).range(1..=4));
    Command::new(alloc, "dispatch")
        .about(
            "Have the compactions of a folder's store made by workers behind standard input and output",
        )
        .arg(dir(alloc, "The folder that keeps the data"))?
        .arg(workers)?
        .arg(l0(alloc))?
        .arg(base(alloc))?
        .arg(block(alloc))
}
