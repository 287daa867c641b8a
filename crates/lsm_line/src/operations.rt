//! The command `batch`: operations of one line, which are written together. Its words are read from left to right, so
//! that a wrong word is reported before one that is missing after it.

ghost use Rattle.std.specs.Prelude.{◌∷◌, ◌≤◌, length};
ghost use Rattle.lsm_key.specs.Reading.{Gives};
ghost use Rattle.lsm_line.specs.Text.{words};
ghost use Rattle.lsm_line.specs.Commands.{batch, call_event, operations, after_put, after_delete, GivesFirst};

use crate::call::Call;
use crate::fault::Reason;
use crate::token::key_or_value;
use crate::words::Words;
use lsm_key::{Items, Op, Refused};
use std::alloc::Global;

/// `batch`, and any number of `put K V` and `del K`. No operation is no fault here, nor are too many for a batch: the
/// store refuses them by name. One pass over the words.
pub fn batch(alloc: Global, mut args: Words<'_>) -> Result<Call, Refused<Reason>>
    ensures { Gives call_event result (batch (words args.entry.rest.now)) }
{
    let mut ops = Vec::new(alloc);
    while let Some(name) = args.next() {
        let op = operation(alloc, name, &mut args)?;
        ops.push(op)?;
    }
    Ok(Call::Write(Items::from_vec(ops)))
}

/// The operation of this name, with its words. Leaves the words after them.
#[tactic(auto, unfolding(crate::specs::Commands::operations))]
fn operation(alloc: Global, name: &[u8], args: &mut Words<'_>) -> Result<Op, Refused<Reason>>
    ensures first { GivesFirst result (operations (name.now ∷ words args.old.rest.now)) (words args.new.rest.now) }
    ensures fewer { length (words args.new.rest.now) ≤ length (words args.old.rest.now) }
{
    if name == b"put".as_slice() {
        put(alloc, args)
    } else if name == b"del".as_slice() {
        delete(alloc, args)
    } else {
        Err(Refused::Fault(Reason::BadName))
    }
}

/// The put of the key and the value that come next.
#[tactic(auto, unfolding(crate::specs::Commands::operations))]
fn put(alloc: Global, args: &mut Words<'_>) -> Result<Op, Refused<Reason>>
    ensures first { GivesFirst result (after_put (words args.old.rest.now)) (words args.new.rest.now) }
    ensures fewer { length (words args.new.rest.now) ≤ length (words args.old.rest.now) }
{
    let key = args.next().ok_or(Refused::Fault(Reason::WrongWordCount))?;
    let key = key_or_value(alloc, key)?;
    let value = args.next().ok_or(Refused::Fault(Reason::WrongWordCount))?;
    let value = key_or_value(alloc, value)?;
    Ok(Op::Put(key, value))
}

/// The deletion of the key that comes next.
#[tactic(auto, unfolding(crate::specs::Commands::operations))]
fn delete(alloc: Global, args: &mut Words<'_>) -> Result<Op, Refused<Reason>>
    ensures first { GivesFirst result (after_delete (words args.old.rest.now)) (words args.new.rest.now) }
    ensures fewer { length (words args.new.rest.now) ≤ length (words args.old.rest.now) }
{
    let key = args.next().ok_or(Refused::Fault(Reason::WrongWordCount))?;
    let key = key_or_value(alloc, key)?;
    Ok(Op::Delete(key))
}
