//! The inputs of a job from the front.

ghost use Rattle.std.specs.Prelude.{◌≡◌, ◌≤◌, false};
ghost use Rattle.std.specs.Int.{w16};
ghost use Rattle.lsm_key.specs.Reading.{Gives, ranged_number_at};
ghost use Rattle.lsm_key.specs.declared.limits.TheConstants.{MAX_INPUTS, MAX_JOB_LEVEL, MAX_NUMBER};
ghost use Rattle.lsm_msg.specs.declared.fault.MsgFault.TheVariants.{Truncated, BadField};
ghost use Rattle.lsm_msg.specs.MessageReading.{after_input, each_input_at, input_bounds, inputs_at};

use super::{BAD, SHORT};
use crate::fault::MsgError;
use bytes::Bytes;
use lsm_edit::{FileBounds, FileMeta, read_file};
use lsm_key::{Items, MAX_INPUTS, MAX_NUMBER, Refused, read_u16};
use std::alloc::Global;

/// The inputs that are still to be read.
#[derive(Clone, Copy)]
pub(crate) struct InputsLeft {
    /// The least number that the next one may have.
    least: u64,
    /// The upper one of the job's two levels.
    level: u8,
    /// How many there are.
    left: u16,
    /// Whether one of that level was read.
    own: bool,
}

impl InputsLeft {
    ghost use Rattle.std.specs.Prelude.{◌≡◌, ◌≤◌};
    ghost use Rattle.lsm_msg.specs.MessageReading.{after_input, input_bounds};

    // What the next one may be: of the job's level if it is the last and no other is.
    fn bounds(self) -> FileBounds
        requires { self.level ≤ MAX_JOB_LEVEL }
        ensures { result ≡ input_bounds self }
    {
        FileBounds {
            least: self.least,
            most: MAX_NUMBER,
            lowest: self.level,
            deepest: if !self.own && self.left == 1 {
                self.level
            } else {
                self.level + 1
            },
        }
    }

    // What is left after the next one.
    fn after(self, file: &FileMeta) -> InputsLeft
        requires left { 1 ≤ self.left }
        requires number { file.now.number ≤ MAX_NUMBER }
        ensures { result ≡ after_input self file.now }
    {
        InputsLeft {
            least: file.number + 1,
            level: self.level,
            left: self.left - 1,
            own: self.own || file.level == self.level,
        }
    }
}

/// A count, and that many inputs of a job of the level, with keys of at most `max_key` bytes.
#[tactic(auto, unfolding(crate::specs::MessageReading::inputs_at))]
pub(crate) fn read_inputs(
    alloc: Global,
    level: u8,
    rest: &mut Bytes,
    max_key: usize,
) -> Result<Items<FileMeta>, MsgError>
    requires { level ≤ MAX_JOB_LEVEL }
    ensures { Gives (λ files. (files, rest.new)) result (inputs_at max_key level rest.old) }
{
    let count = read_count(rest)?;
    let left = InputsLeft {
        least: 1,
        level,
        left: count,
        own: false,
    };
    read_each(alloc, left, rest, max_key)
}

fn read_count(rest: &mut Bytes) -> Result<u16, MsgError>
    ensures { Gives (λ n. (n, rest.new)) result (ranged_number_at Truncated BadField w16 1 MAX_INPUTS rest.old) }
{
    let count = read_u16(rest, SHORT)?;
    if count < 1 || count as usize > MAX_INPUTS {
        return Err(Refused::Fault(BAD));
    }
    Ok(count)
}

fn read_each(
    alloc: Global,
    left: InputsLeft,
    rest: &mut Bytes,
    max_key: usize,
) -> Result<Items<FileMeta>, MsgError>
    requires { left.level ≤ MAX_JOB_LEVEL }
    ensures { Gives (λ files. (files, rest.new)) result (each_input_at max_key left.left left rest.old) }
{
    let mut files = Items::new(alloc);
    let mut left = left;
    while left.left > 0 {
        let file = read_file(alloc, rest, max_key, left.bounds(), SHORT, BAD)?;
        left = left.after(&file);
        files.push(file)?;
    }
    Ok(files)
}
