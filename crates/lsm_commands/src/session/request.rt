//! What a line asks of a store: a call, or what only a session has.

use lsm_key::{KeyError, Refused};
use lsm_line::{
    Call, Reason, Words, batch, delete, flush, get, put, release, scan, show_store, snap,
};
use std::alloc::Global;
use std::{fmt, str};

/// What a line asks of a store.
#[derive(Drop)]
pub(crate) enum Request {
    /// A call of the store.
    Call(Call),
    /// Run the compactions that are due.
    Compact,
    /// Show the sequences and what each level has.
    Stats,
    /// List the commands.
    Help,
    /// End as the end of the input does.
    Quit,
}

/// Why a line is not done.
#[derive(Clone, Copy)]
pub(crate) enum LineFault {
    /// Its words are no command, for this reason. `help` lists how commands are written.
    Words(Reason),
    /// Only a script can have it, since it is about nodes that a store has not: `lsmsim` runs scripts.
    NotOfAStore,
    /// It is not a put, and nothing else is imported. Leave it out.
    NotAPut,
    /// Its key or its value is outside the limits. Take a shorter one, or a key that is not empty.
    Key(KeyError),
    /// It is longer than any command within the limits. Divide it.
    TooLong,
    /// It is as long as a terminal lets a line be, so its end may be cut off. Give it from a file or over a pipe.
    MaybeCut,
}

impl fmt::Display for LineFault {
    fn fmt<W: fmt::Write>(&self, f: &mut fmt::Formatter<W>) -> fmt::Result {
        match *self {
            LineFault::Words(why) => write!(f, "{why}"),
            LineFault::NotOfAStore => f.write_str("not a command of a store"),
            LineFault::NotAPut => f.write_str("not a put: an import takes lines 'put KEY VALUE'"),
            LineFault::Key(why) => write!(f, "{why}"),
            LineFault::TooLong => f.write_str("too long"),
            LineFault::MaybeCut => f.write_str(
                "too long: a terminal cuts a line off at 4095 bytes",
            ),
        }
    }
}

/// A line that is not done, as it is reported.
#[derive(Clone, Copy)]
pub(crate) struct FaultyLine {
    /// From 1.
    pub(crate) number: u64,
    pub(crate) fault: LineFault,
}

impl fmt::Display for FaultyLine {
    fn fmt<W: fmt::Write>(&self, f: &mut fmt::Formatter<W>) -> fmt::Result {
        let (number, fault) = (self.number, self.fault);
        write!(f, "line {number}: {fault}")
    }
}

/// The commands that only a script has.
const OF_SCRIPTS: [&str; 8] = [
    "freeze", "trim", "pick", "giveup", "deliver", "restart", "ask", "read",
];

/// What a line asks, or `None` if it has no command: it has no word, or its first one begins with `#`.
pub(crate) fn request_in(
    alloc: Global,
    line: &[u8],
) -> Result<Option<Request>, Refused<LineFault>> {
    let mut words = Words::new(line);
    let Some(name) = words.next() else {
        return Ok(None);
    };
    if matches!(name.first(), Some(b'#')) {
        return Ok(None);
    }
    let name = str::from_utf8(name).unwrap_or("");
    if is_of_a_script(name) {
        return Err(Refused::Fault(LineFault::NotOfAStore));
    }
    let asked = match name {
        "compact" => alone(words, Request::Compact),
        "stats" => alone(words, Request::Stats),
        "help" => alone(words, Request::Help),
        "quit" | "exit" => alone(words, Request::Quit),
        name => called(alloc, name, words),
    };
    match asked {
        Ok(request) => Ok(Some(request)),
        Err(Refused::OutOfMemory) => Err(Refused::OutOfMemory),
        Err(Refused::Fault(reason)) => Err(Refused::Fault(LineFault::Words(reason))),
    }
}

fn is_of_a_script(name: &str) -> bool {
    for command in &OF_SCRIPTS {
        if name == *command {
            return true;
        }
    }
    false
}

// A request of one word.
fn alone(mut args: Words<'_>, request: Request) -> Result<Request, Refused<Reason>> {
    match args.next() {
        None => Ok(request),
        Some(_) => Err(Refused::Fault(Reason::WrongWordCount)),
    }
}

// The call of this name, by the words after it.
fn called(alloc: Global, name: &str, args: Words<'_>) -> Result<Request, Refused<Reason>> {
    let call = match name {
        "put" => put(alloc, args),
        "del" => delete(alloc, args),
        "batch" => batch(alloc, args),
        "get" => get(alloc, args),
        "scan" => scan(alloc, args),
        "snap" => snap(args),
        "release" => release(args),
        "flush" => flush(args),
        "show" => show_store(args),
        _ => Err(Refused::Fault(Reason::UnknownCommand)),
    };
    Ok(Request::Call(call?))
}
