//! The commands that are single calls of a store, with their options.

use clap::{Arg, ArgAction, ArgMatches, Command, value_parser};
use lsm_commands::{Form, Once};
use lsm_options::dir;
use std::alloc::{AllocError, Global};

const WORDS_HELP: &str = "\
A key or a value is a word, as sessions and scripts have it: %41 is the byte of that hexadecimal number, %20 a space, %2d a '-' that
would begin it, and '' the empty text. The exit status is 0 if it is done, 1 if the store or a stream fails, and 2 if a word is refused.";

const GET_HELP: &str = "\
The key is a word, as sessions and scripts have it: %41 is the byte of that hexadecimal number, %20 a space, and %2d a '-' that would
begin it. The exit status is 0 if the key has a value, 1 if it has none or the store or a stream fails, and 2 if the word is refused.";

const LINES_HELP: &str = "\
An export writes a line 'put KEY VALUE' for each key that has a value, ascending, which a session and an import read. An import puts
the pairs of such lines, syncs them once at its end, and prints how many they are. At a line that is no put it reports the line, and
how many pairs of the lines before it are in the store, and ends with status 2.";

/// The same command line, with the commands that are single calls.
pub(crate) fn with_calls<'a>(
    alloc: Global,
    command: Command<'a>,
) -> Result<Command<'a>, AllocError> {
    command
        .subcommand(get(alloc)?)?
        .subcommand(put(alloc)?)?
        .subcommand(del(alloc)?)?
        .subcommand(scan(alloc)?)?
        .subcommand(stats(alloc)?)?
        .subcommand(compact(alloc)?)?
        .subcommand(export(alloc)?)?
        .subcommand(import(alloc)?)
}

/// The folder of a store that is there.
fn made<'a>(alloc: Global) -> Arg<'a> {
    dir(alloc, "The folder that keeps the data")
}

/// A word that has to be given.
fn word<'a>(alloc: Global, name: &'a str, help: &'a str) -> Arg<'a> {
    Arg::new(alloc, name)
        .help(help)
        .required(true)
        .action(ArgAction::Set)
}

/// `get`, with its options.
fn get<'a>(alloc: Global) -> Result<Command<'a>, AllocError> {
    let hex = Arg::new(alloc, "hex")
        .long("hex")
        .help("Write it as a line of two hexadecimal digits a byte")
        .action(ArgAction::SetTrue);
    Command::new(alloc, "get")
        .about("Write the value of a key: its bytes, and nothing else")
        .after_help(GET_HELP)
        .arg(word(alloc, "KEY", "The key"))?
        .arg(made(alloc))?
        .arg(hex)
}

/// `put`, with its options.
fn put<'a>(alloc: Global) -> Result<Command<'a>, AllocError> {
    Command::new(alloc, "put")
        .about("Put a key with its value, and print its sequence once it is synced")
        .after_help(WORDS_HELP)
        .arg(word(alloc, "KEY", "The key, of at most 4,096 bytes"))?
        .arg(word(alloc, "VALUE", "The value, of at most 65,536 bytes"))?
        .arg(dir(
            alloc,
            "The folder that keeps the data; made if there is none",
        ))
}

/// `del`, with its options.
fn del<'a>(alloc: Global) -> Result<Command<'a>, AllocError> {
    Command::new(alloc, "del")
        .about(
            "Delete a key, whether it has a value or not, and print the sequence once it is synced",
        )
        .after_help(WORDS_HELP)
        .arg(word(alloc, "KEY", "The key"))?
        .arg(made(alloc))
}

/// `scan`, with its options.
fn scan<'a>(alloc: Global) -> Result<Command<'a>, AllocError> {
    let limit = Arg::new(alloc, "limit")
        .long("limit")
        .value_name("N")
        .help("At most N of them, the first ones [default: all]")
        .value_parser(value_parser!(u64));
    Command::new(alloc, "scan")
        .about("Print the keys from one up to another one, each with its value: lines 'KEY VALUE'")
        .after_help(WORDS_HELP)
        .arg(word(
            alloc,
            "FROM",
            "The first key, if it has a value; '' for the first of all",
        ))?
        .arg(word(alloc, "TO", "The key before which it ends"))?
        .arg(made(alloc))?
        .arg(limit)
}

/// `stats`, with its option.
fn stats<'a>(alloc: Global) -> Result<Command<'a>, AllocError> {
    Command::new(alloc, "stats")
        .about(
            "Print the sequences, what each level has and whether it is due, and how much was written to tables",
        )
        .arg(made(alloc))
}

/// `compact`, with its option.
fn compact<'a>(alloc: Global) -> Result<Command<'a>, AllocError> {
    Command::new(alloc, "compact")
        .about("Bring all operations into tables, and run the compactions that are due")
        .arg(made(alloc))
}

/// `export`, with its option.
fn export<'a>(alloc: Global) -> Result<Command<'a>, AllocError> {
    Command::new(alloc, "export")
        .about("Print all keys, each with its value, as lines that a session and an import read")
        .after_help(LINES_HELP)
        .arg(made(alloc))
}

/// `import`, with its option.
fn import<'a>(alloc: Global) -> Result<Command<'a>, AllocError> {
    Command::new(alloc, "import")
        .about("Put the pairs of lines from standard input, as an export writes them")
        .after_help(LINES_HELP)
        .arg(dir(
            alloc,
            "The folder that keeps the data; made if there is none",
        ))
}

/// The single call of this name, by its options, or `None` if the name is another one.
pub(crate) fn once_of<'a>(name: &str, options: &ArgMatches<'a>) -> Option<Once<'a>> {
    match name {
        "get" => Some(Once::Get(options.get_str("KEY")?, form_in(options))),
        "put" => Some(Once::Put(options.get_str("KEY")?, options.get_str("VALUE")?)),
        "del" => Some(Once::Delete(options.get_str("KEY")?)),
        "scan" => {
            let (lo, hi) = (options.get_str("FROM")?, options.get_str("TO")?);
            let limit = options.get_one("limit").unwrap_or(u64::MAX);
            Some(Once::Scan(lo, hi, limit))
        }
        "stats" => Some(Once::Stats),
        "compact" => Some(Once::Compact),
        "export" => Some(Once::Export),
        "import" => Some(Once::Import),
        _ => None,
    }
}

/// How a value is written.
fn form_in(options: &ArgMatches<'_>) -> Form {
    if options.get_flag("hex") {
        Form::Hex
    } else {
        Form::Bytes
    }
}
