//! The commands of a store: what the words after a command's name ask for.

ghost use Rattle.std.specs.Prelude.{◌∷◌, []};
ghost use Rattle.lsm_key.specs.Reading.{Gives};
ghost use Rattle.lsm_line.specs.Text.{words};
ghost use Rattle.lsm_line.specs.Commands.{call_event, put, delete, flush, snap, release, get, show_store};

use crate::call::Call;
use crate::fault::Reason;
use crate::snapshot::{named, read_snapshot, reading_at};
use crate::token::key_or_value;
use crate::words::Words;
use lsm_key::{Items, Op, Refused};
use std::alloc::Global;

/// `put K V`
pub fn put(alloc: Global, mut args: Words<'_>) -> Result<Call, Refused<Reason>>
    ensures { Gives call_event result (put (words args.entry.rest.now)) }
{
    let (Some(key), Some(value), None) = (args.next(), args.next(), args.next()) else {
        return Err(Refused::Fault(Reason::WrongWordCount));
    };
    let key = key_or_value(alloc, key)?;
    let value = key_or_value(alloc, value)?;
    let ops = vec![in alloc; Op::Put(key, value)]?;
    Ok(Call::Write(Items::from_vec(ops)))
}

/// `del K`
pub fn delete(alloc: Global, mut args: Words<'_>) -> Result<Call, Refused<Reason>>
    ensures { Gives call_event result (delete (words args.entry.rest.now)) }
{
    let (Some(key), None) = (args.next(), args.next()) else {
        return Err(Refused::Fault(Reason::WrongWordCount));
    };
    let key = key_or_value(alloc, key)?;
    let ops = vec![in alloc; Op::Delete(key)]?;
    Ok(Call::Write(Items::from_vec(ops)))
}

/// `flush`
pub fn flush(mut args: Words<'_>) -> Result<Call, Refused<Reason>>
    ensures { Gives call_event result (flush (words args.entry.rest.now)) }
{
    match args.next() {
        None => Ok(Call::Flush),
        Some(_) => Err(Refused::Fault(Reason::WrongWordCount)),
    }
}

/// `snap`
pub fn snap(mut args: Words<'_>) -> Result<Call, Refused<Reason>>
    ensures { Gives call_event result (snap (words args.entry.rest.now)) }
{
    match args.next() {
        None => Ok(Call::Snap),
        Some(_) => Err(Refused::Fault(Reason::WrongWordCount)),
    }
}

/// `release E.N`
pub fn release(mut args: Words<'_>) -> Result<Call, Refused<Reason>>
    ensures { Gives call_event result (release (words args.entry.rest.now)) }
{
    let (Some(name), None) = (args.next(), args.next()) else {
        return Err(Refused::Fault(Reason::WrongWordCount));
    };
    let id = named(read_snapshot(name))?;
    Ok(Call::Release(id))
}

/// `get K`, or `get K @E.N`
pub fn get(alloc: Global, mut args: Words<'_>) -> Result<Call, Refused<Reason>>
    ensures { Gives call_event result (get (words args.entry.rest.now)) }
{
    let Some(key) = args.next() else {
        return Err(Refused::Fault(Reason::WrongWordCount));
    };
    match (args.next(), args.next()) {
        (None, _) => Ok(Call::Get(key_or_value(alloc, key)?, None)),
        (Some(name), None) => get_at(alloc, key, name),
        (Some(_), Some(_)) => Err(Refused::Fault(Reason::WrongWordCount)),
    }
}

/// `get K @E.N`, of the words after the first
fn get_at(alloc: Global, key: &[u8], name: &[u8]) -> Result<Call, Refused<Reason>>
    ensures { Gives call_event result (get (key.now ∷ name.now ∷ [])) }
{
    let key = key_or_value(alloc, key)?;
    let id = named(reading_at(name))?;
    Ok(Call::Get(key, Some(id)))
}

/// `show c`
pub fn show_store(mut args: Words<'_>) -> Result<Call, Refused<Reason>>
    ensures { Gives call_event result (show_store (words args.entry.rest.now)) }
{
    let (Some(node), None) = (args.next(), args.next()) else {
        return Err(Refused::Fault(Reason::WrongWordCount));
    };
    if node == b"c".as_slice() {
        Ok(Call::Show)
    } else {
        Err(Refused::Fault(Reason::BadName))
    }
}
