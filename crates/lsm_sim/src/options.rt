//! The command line of `lsmsim`: which command it asks for, with which limits and settings.

use clap::error::ErrorKind;
use clap::{Arg, ArgMatches, Command, Error, value_parser};
use lsm_key::Limits;
use lsm_options::{StoreCommand, base, block, l0, limits_from, limits_in, with_store_commands};
use std::alloc::{AllocError, Global};

/// What a command line asks for.
#[derive(Drop)]
pub(crate) enum Subcommand<'a> {
    /// Run a script, and print a line for each reply.
    Run(Limits),
    /// Run a script, and draw its events and messages.
    Draw(Limits),
    /// Run all schedules of this many events, and compare the replies with a model.
    Explore(Exploration),
    /// Run a store that threads share, and print what they found.
    Threads,
    /// A command of a store, which the program of the store has too.
    Store(StoreCommand<'a>),
}

/// What to explore.
#[derive(Clone, Copy)]
pub(crate) struct Exploration {
    /// How many events a schedule has.
    pub(crate) events: u64,
    pub(crate) limits: Limits,
    /// As many as the machine has processors, if it is not given.
    pub(crate) threads: Option<u64>,
    pub(crate) seed: u64,
}

/// Level 0 of an exploration is due from this many files on, unless another number is given.
const EXPLORED_L0: u64 = 2;

/// `run`, with its options.
fn run<'a>(alloc: Global) -> Result<Command<'a>, AllocError> {
    Command::new(alloc, "run")
        .about("Run a script from standard input and print a line for each reply")
        .arg(l0(alloc))?
        .arg(base(alloc))?
        .arg(block(alloc))
}

/// `draw`, with its options.
fn draw<'a>(alloc: Global) -> Result<Command<'a>, AllocError> {
    Command::new(alloc, "draw")
        .about("Run a script from standard input and draw its events and messages as SVG")
        .arg(l0(alloc))?
        .arg(base(alloc))?
        .arg(block(alloc))
}

/// `explore`, with its options.
fn explore<'a>(alloc: Global) -> Result<Command<'a>, AllocError> {
    let events = Arg::new(alloc, "events")
        .long("events")
        .value_name("N")
        .help(
            "The events of a schedule, 1 to 1000; past 9 some schedules are run by chance, in place of all",
        )
        .required(true)
        .value_parser(value_parser!(u64).range(1..=1000));
    let l0 = l0(alloc).help("Level 0 is due from this many files on, 1 to 1000 [default: 2]");
    let threads = Arg::new(alloc, "threads")
        .long("threads")
        .value_name("T")
        .help("Threads, 1 to 64 [default: as many as there are processors]")
        .value_parser(value_parser!(u64).range(1..=64));
    let seed = Arg::new(alloc, "seed")
        .long("seed")
        .value_name("S")
        .help("Which schedules are run by chance [default: 1]")
        .value_parser(value_parser!(u64));
    Command::new(alloc, "explore")
        .about("Run all schedules of so many events and compare the replies with a model")
        .arg(events)?
        .arg(l0)?
        .arg(threads)?
        .arg(seed)
}

/// `threads`, which has no options.
fn threads<'a>(alloc: Global) -> Command<'a> {
    Command::new(alloc, "threads").about(
        "Run two dispatchers, two workers and a follower in threads over one store and print what they found",
    )
}

/// The command line that the program takes.
fn command<'a>(alloc: Global) -> Result<Command<'a>, AllocError> {
    let command = Command::new(alloc, "lsmsim")
        .bin_name("lsmsim")?
        .version("0.1.0")
        .about("A key-value store as a leveled LSM tree")
        .no_binary_name(true)
        .subcommand_required(true)
        .subcommand(run(alloc)?)?
        .subcommand(draw(alloc)?)?
        .subcommand(explore(alloc)?)?
        .subcommand(threads(alloc))?;
    with_store_commands(alloc, command)
}

/// What the options of `explore` ask for.
fn exploration_in(options: &ArgMatches<'_>) -> Option<Exploration> {
    let l0 = options.get_one("l0").unwrap_or(EXPLORED_L0);
    Some(Exploration {
        events: options.get_one("events")?,
        limits: limits_from(Some(l0), None, None)?,
        threads: options.get_one("threads"),
        seed: options.get_one("seed").unwrap_or(1),
    })
}

/// The subcommand, or `None` if a limit is outside its range.
fn subcommand_in<'a>(matches: &ArgMatches<'a>) -> Option<Subcommand<'a>> {
    match matches.subcommand()? {
        ("explore", options) => Some(Subcommand::Explore(exploration_in(options)?)),
        ("threads", _) => Some(Subcommand::Threads),
        ("draw", options) => Some(Subcommand::Draw(limits_in(options)?)),
        ("run", options) => Some(Subcommand::Run(limits_in(options)?)),
        (name, options) => Some(Subcommand::Store(StoreCommand::of(name, options)?)),
    }
}

/// The subcommand that the words after the program's name ask for. Every other line, help too, is an error of `clap`.
pub(crate) fn subcommand_of<'a>(
    alloc: Global,
    words: &'a [String],
) -> Result<Subcommand<'a>, Error> {
    let mut command = command(alloc)?;
    let matches = command.try_get_matches_from_mut(words)?;
    match subcommand_in(&matches) {
        Some(subcommand) => Ok(subcommand),
        None => Err(command.error(ErrorKind::ValueValidation, "a limit is outside its range")?),
    }
}
