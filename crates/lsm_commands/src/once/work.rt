//! What a command of one call does, once its words are read.

ghost use Rattle.std.specs.Prelude.{◌≡◌, IfOk, Ok};
ghost use Rattle.lsm_line.specs.Commands.{key_or_value};
ghost use Rattle.lsm_commands.specs.Once.{IsWorkOf};

use super::pairs::PairRange;
use super::{Form, Once};
use crate::CommandError;
use bytes::Bytes;
use lsm_key::{Op, Refused};
use lsm_line::key_or_value;
use std::alloc::Global;

/// What a command of one call does.
#[derive(Drop)]
pub(crate) enum Work {
    Get(Bytes, Form),
    Write(Op),
    /// Write the pairs of a range.
    Pairs(PairRange),
    Stats,
    Compact,
    Import,
}

impl Work {
    /// What a command does. Its words are read, and nothing else.
    pub(crate) fn of(alloc: Global, once: &Once<'_>) -> Result<Work, CommandError>
        ensures { IfOk result (IsWorkOf once.now) }
    {
        match once {
            Once::Get(key, form) => Ok(Work::Get(bytes_of(alloc, key)?, *form)),
            Once::Put(key, value) => {
                let key = bytes_of(alloc, key)?;
                let value = bytes_of(alloc, value)?;
                Ok(Work::Write(Op::Put(key, value)))
            }
            Once::Delete(key) => Ok(Work::Write(Op::Delete(bytes_of(alloc, key)?))),
            Once::Scan(lo, hi, limit) => {
                let lo = bytes_of(alloc, lo)?;
                let hi = bytes_of(alloc, hi)?;
                Ok(Work::Pairs(PairRange::between(lo, hi, *limit)))
            }
            Once::Stats => Ok(Work::Stats),
            Once::Compact => Ok(Work::Compact),
            Once::Export => Ok(Work::Pairs(PairRange::all(alloc)?)),
            Once::Import => Ok(Work::Import),
        }
    }

    /// Whether it makes a folder that is not there.
    pub(crate) fn makes_folder(&self) -> bool {
        matches!(self, Work::Import | Work::Write(Op::Put(_, _)))
    }
}

// The bytes that a word of the arguments spells. An argument without a byte is the empty text.
fn bytes_of(alloc: Global, word: &str) -> Result<Bytes, CommandError>
    ensures { IfOk result (λ bytes. key_or_value word.now ≡ Ok bytes) }
{
    match key_or_value(alloc, word.as_bytes()) {
        Ok(bytes) => Ok(bytes),
        Err(Refused::OutOfMemory) => Err(CommandError::OutOfMemory),
        Err(Refused::Fault(_)) => Err(CommandError::NotAWord(String::from_str(alloc, word)?)),
    }
}
