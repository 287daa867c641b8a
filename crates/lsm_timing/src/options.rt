//! The command line of `lsm_timing`: which figure it asks for, with its numbers, its clock and its keys.

use crate::clock::ClockKind;
use crate::forms::{FORMS, Form, Number, Task};
use crate::keys::{KeyShape, Shape};
use lsm_key::{DEFAULT_BASE, DEFAULT_BLOCK, DEFAULT_L0, Limits, MAX_BASE, MAX_L0};
use std::{fmt, io};

/// What the command line asks for.
#[derive(Clone, Copy)]
pub(crate) struct Request {
    pub(crate) task: Task,
    pub(crate) first: u64,
    pub(crate) second: u64,
    pub(crate) clock: ClockKind,
    pub(crate) shape: Shape,
    pub(crate) limits: Limits,
}

/// Why a command line asks for nothing.
#[derive(Clone, Copy)]
pub(crate) enum OptionsError<'a> {
    /// The help is asked for, and is printed.
    Help,
    /// No word names a command. The help lists them.
    NoCommand,
    /// The option or the number of this name is not given its value. Add it.
    NoValue(&'a str),
    /// This word is no command, or is one more than the command takes. Leave it out.
    Unexpected(&'a str),
    /// This word is no value of the option or the number of this name. The help says which there are.
    Invalid(&'a str, &'a str),
}

impl<'a> fmt::Display for OptionsError<'a> {
    fn fmt<W: fmt::Write>(&self, f: &mut fmt::Formatter<W>) -> fmt::Result {
        match *self {
            OptionsError::Help => Ok(()),
            OptionsError::NoCommand => f.write_str("lsm_timing requires a subcommand"),
            OptionsError::NoValue(name) => write!(f, "a value is required for '{name}'"),
            OptionsError::Unexpected(word) => write!(f, "unexpected argument '{word}' found"),
            OptionsError::Invalid(word, name) => write!(f, "invalid value '{word}' for '{name}'"),
        }
    }
}

const CLOCK: &str = "--clock";

const KEYS: &str = "--keys";

const VALUE: &str = "--value";

const L0: &str = "--l0";

const BASE: &str = "--base";

/// How long a value is, in bytes.
const BYTES: Number = Number {
    name: VALUE,
    most: 1_000,
    default: Some(100),
};

/// How many files of level 0 are due.
const FILES: Number = Number {
    name: L0,
    most: MAX_L0,
    default: Some(DEFAULT_L0),
};

/// Above how many bytes level 1 is due.
const LEVEL_BYTES: Number = Number {
    name: BASE,
    most: MAX_BASE,
    default: Some(DEFAULT_BASE),
};

// What the help says before the commands.
const OPTIONS: &str =
    "Times the store: 'name n checksum' on standard output, 'name n nanoseconds' on standard error
Options, before or after a command:
  --clock wall|processor: Take the time that passes, or the processor's time of the process; both in steps of 1 ns
  --keys scattered|prefixed: Keys of 16 bytes, or the same after a prefix of 16 bytes
  --value BYTES: Bytes of a value, 100 if not given
  --l0 FILES: Level 0 is due at so many files
  --base BYTES: Level 1 is due above so many bytes, and each deeper level above ten times as many as the one before
Commands:";

/// Prints the help.
pub(crate) fn print_help(rt: &HostRuntime) -> io::Result<()> {
    rt.println(OPTIONS)?;
    for form in &FORMS {
        rt.println(form.help)?;
    }
    Ok(())
}

// What is read so far.
#[derive(Clone, Copy)]
struct Line<'a> {
    // The option whose value comes next.
    waiting: Option<&'a str>,
    clock: ClockKind,
    keys: KeyShape,
    value_len: u64,
    l0: u64,
    base: u64,
    form: Option<Form>,
    first: Option<&'a str>,
    second: Option<&'a str>,
}

/// What the words after the program's name ask for.
pub(crate) fn request_of(words: &[String]) -> Result<Request, OptionsError<'_>> {
    let mut line = Line {
        waiting: None,
        clock: ClockKind::Wall,
        keys: Shape::DEFAULT.keys,
        value_len: Shape::DEFAULT.value_len,
        l0: DEFAULT_L0,
        base: DEFAULT_BASE,
        form: None,
        first: None,
        second: None,
    };
    for word in words {
        line = with_word(line, word.as_str())?;
    }
    request_in(line)
}

fn with_word<'a>(line: Line<'a>, word: &'a str) -> Result<Line<'a>, OptionsError<'a>> {
    let mut line = line;
    if let Some(option) = line.waiting {
        line.waiting = None;
        return with_value(line, option, word);
    }
    if matches!(word, CLOCK | KEYS | VALUE | L0 | BASE) {
        line.waiting = Some(word);
    } else if line.form.is_none() {
        line.form = Some(form_of(word)?);
    } else if line.first.is_none() {
        line.first = Some(word);
    } else if line.second.is_none() {
        line.second = Some(word);
    } else {
        return Err(OptionsError::Unexpected(word));
    }
    Ok(line)
}

fn with_value<'a>(
    line: Line<'a>,
    option: &'a str,
    word: &'a str,
) -> Result<Line<'a>, OptionsError<'a>> {
    let mut line = line;
    match (option, word) {
        (VALUE, _) => line.value_len = number_of(BYTES, word)?,
        (L0, _) => line.l0 = number_of(FILES, word)?,
        (BASE, _) => line.base = number_of(LEVEL_BYTES, word)?,
        (CLOCK, "wall") => line.clock = ClockKind::Wall,
        (CLOCK, "processor") => line.clock = ClockKind::Processor,
        (KEYS, "scattered") => line.keys = KeyShape::Scattered,
        (KEYS, "prefixed") => line.keys = KeyShape::Prefixed,
        _ => return Err(OptionsError::Invalid(word, option)),
    }
    Ok(line)
}

fn form_of(word: &str) -> Result<Form, OptionsError<'_>> {
    if word == "--help" || word == "-h" {
        return Err(OptionsError::Help);
    }
    for form in &FORMS {
        if word == form.name {
            return Ok(*form);
        }
    }
    Err(OptionsError::Unexpected(word))
}

fn request_in(line: Line<'_>) -> Result<Request, OptionsError<'_>> {
    if let Some(option) = line.waiting {
        return Err(OptionsError::NoValue(option));
    }
    let Some(form) = line.form else {
        return Err(OptionsError::NoCommand);
    };
    // Each number is within its range, so these are limits.
    let limits = Limits::new(line.l0, line.base, DEFAULT_BLOCK).ok_or(OptionsError::NoValue(L0))?;
    Ok(Request {
        task: form.task,
        first: given(form.first, line.first)?,
        second: given(form.second, line.second)?,
        clock: line.clock,
        shape: Shape {
            keys: line.keys,
            value_len: line.value_len,
        },
        limits,
    })
}

// What a number is. One that the command does not have is 0.
fn given(number: Option<Number>, word: Option<&str>) -> Result<u64, OptionsError<'_>> {
    match (number, word) {
        (None, None) => Ok(0),
        (None, Some(word)) => Err(OptionsError::Unexpected(word)),
        (Some(number), None) => number.default.ok_or(OptionsError::NoValue(number.name)),
        (Some(number), Some(word)) => number_of(number, word),
    }
}

fn number_of(number: Number, word: &str) -> Result<u64, OptionsError<'_>> {
    match word.parse::<u64>() {
        Ok(value) if value >= 1 && value <= number.most => Ok(value),
        _ => Err(OptionsError::Invalid(word, number.name)),
    }
}
