//! The commands of followers: `ask` and `read`.

ghost use Rattle.lsm_key.specs.Reading.{Gives};
ghost use Rattle.lsm_world.specs.Events.{event_of};
ghost use Rattle.lsm_line.specs.Commands.{words_left};
ghost use Rattle.lsm_script.specs.Script.{ask, read};

use crate::names::read_index;
use crate::schedule::indexed;
use lsm_key::Refused;
use lsm_line::{Reason, Words, key_or_value};
use lsm_world::Event;
use std::alloc::Global;

/// `ask I`
pub fn ask(mut args: Words<'_>) -> Result<Event, Refused<Reason>>
    ensures { Gives event_of result (ask (words_left args.entry)) }
{
    let (Some(word), None) = (args.next(), args.next()) else {
        return Err(Refused::Fault(Reason::WrongWordCount));
    };
    let follower = indexed(read_index(word))?;
    Ok(Event::Ask(follower))
}

/// `read I K`
pub fn read(alloc: Global, mut args: Words<'_>) -> Result<Event, Refused<Reason>>
    ensures { Gives event_of result (read (words_left args.entry)) }
{
    let (Some(word), Some(key), None) = (args.next(), args.next(), args.next()) else {
        return Err(Refused::Fault(Reason::WrongWordCount));
    };
    let follower = indexed(read_index(word))?;
    let key = key_or_value(alloc, key)?;
    Ok(Event::Read(follower, key))
}
