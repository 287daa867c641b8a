//! Scripts: one command a line, words between spaces, tabs or carriage returns. A line without words and a comment, which
//! begins with `#`, are skipped and counted.

ghost use Rattle.std.specs.Prelude.{◌≡◌, ◌∷◌, [], Ok, map};
ghost use Rattle.lsm_key.specs.Reading.{Gives};
ghost use Rattle.lsm_world.specs.Events.{event_of};
ghost use Rattle.lsm_line.specs.Text.{words};
ghost use Rattle.lsm_line.specs.Commands.{call_event, words_left};
ghost use Rattle.lsm_script.specs.Script.{events_of_command, events_of_words, script, freeze, show, show_follower, trim};

use crate::command::Command;
use crate::deliver::deliver;
use crate::fault::Fault;
use crate::follow::{ask, read};
use crate::names::{follower_index, is_comment, read_command};
use crate::schedule::{give_up, pick, restart};
use lsm_key::{Refused, VersionNumber};
use lsm_line::{Call, Lines, Reason, Words, counted, read_number};
use lsm_msg::NodeIndex;
use lsm_world::Event;
use std::alloc::Global;

/// `freeze`
fn freeze(mut args: Words<'_>) -> Result<Event, Refused<Reason>>
    ensures { Gives event_of result (freeze (words_left args.entry)) }
{
    match args.next() {
        None => Ok(Event::Freeze),
        Some(_) => Err(Refused::Fault(Reason::WrongWordCount)),
    }
}

/// `show c`, `show fI`
fn show(mut args: Words<'_>) -> Result<Event, Refused<Reason>>
    ensures { Gives event_of result (show (words_left args.entry)) }
{
    let (Some(node), None) = (args.next(), args.next()) else {
        return Err(Refused::Fault(Reason::WrongWordCount));
    };
    if node == b"c".as_slice() {
        Ok(Event::Show)
    } else {
        show_follower(follower_index(node))
    }
}

// The listing of a follower.
fn show_follower(follower: Option<NodeIndex>) -> Result<Event, Refused<Reason>>
    ensures { Gives event_of result (show_follower follower) }
{
    match follower {
        None => Err(Refused::Fault(Reason::BadName)),
        Some(follower) => Ok(Event::ShowFollower(follower)),
    }
}

/// `trim N`
fn trim(mut args: Words<'_>) -> Result<Event, Refused<Reason>>
    ensures { Gives event_of result (trim (words_left args.entry)) }
{
    let (Some(version), None) = (args.next(), args.next()) else {
        return Err(Refused::Fault(Reason::WrongWordCount));
    };
    let version = counted(read_number(version))?;
    Ok(Event::Trim(VersionNumber::new(version)))
}

/// One event.
fn one(alloc: Global, event: Event) -> Result<Vec<Event>, Refused<Reason>>
    ensures { Gives (λ events. map event_of events.items) result (Ok (event_of event ∷ [])) }
{
    Ok(vec![in alloc; event]?)
}

/// The event of a call of a store.
fn as_event(call: Call) -> Event
    ensures { event_of result ≡ call_event call }
{
    match call {
        Call::Write(ops) => Event::Write(ops),
        Call::Flush => Event::Flush,
        Call::Snap => Event::Snap,
        Call::Release(id) => Event::Release(id),
        Call::Get(key, at) => Event::Get(key, at),
        Call::Scan(range) => Event::Scan(range),
        Call::Show => Event::Show,
    }
}

/// One call of a store.
fn one_call(alloc: Global, call: Call) -> Result<Vec<Event>, Refused<Reason>>
    ensures { Gives (λ events. map event_of events.items) result (Ok (call_event call ∷ [])) }
{
    one(alloc, as_event(call))
}

/// The events of a command with these arguments.
fn asked(
    alloc: Global,
    command: Option<Command>,
    args: Words<'_>,
) -> Result<Vec<Event>, Refused<Reason>>
    ensures { Gives (λ events. map event_of events.items) result (events_of_command command (words_left args.entry)) }
{
    match command {
        None => Err(Refused::Fault(Reason::UnknownCommand)),
        Some(Command::Put) => one_call(alloc, lsm_line::put(alloc, args)?),
        Some(Command::Delete) => one_call(alloc, lsm_line::delete(alloc, args)?),
        Some(Command::Batch) => one_call(alloc, lsm_line::batch(alloc, args)?),
        Some(Command::Freeze) => one(alloc, freeze(args)?),
        Some(Command::Flush) => one_call(alloc, lsm_line::flush(args)?),
        Some(Command::Snap) => one_call(alloc, lsm_line::snap(args)?),
        Some(Command::Release) => one_call(alloc, lsm_line::release(args)?),
        Some(Command::Get) => one_call(alloc, lsm_line::get(alloc, args)?),
        Some(Command::Scan) => one_call(alloc, lsm_line::scan(alloc, args)?),
        Some(Command::Show) => one(alloc, show(args)?),
        Some(Command::Trim) => one(alloc, trim(args)?),
        Some(Command::Pick) => one(alloc, pick(args)?),
        Some(Command::GiveUp) => one(alloc, give_up(args)?),
        Some(Command::Deliver) => deliver(alloc, args),
        Some(Command::Restart) => one(alloc, restart(args)?),
        Some(Command::Ask) => one(alloc, ask(args)?),
        Some(Command::Read) => one(alloc, read(alloc, args)?),
    }
}

/// The events of a line.
#[tactic(auto, unfolding(crate::specs::Script::events_of_words))]
pub fn events_in(alloc: Global, line: &[u8]) -> Result<Vec<Event>, Refused<Reason>>
    ensures { Gives (λ events. map event_of events.items) result (events_of_words (words line.now)) }
{
    let mut words = Words::new(line);
    let Some(word) = words.next() else {
        return Ok(Vec::new(alloc));
    };
    if is_comment(word) {
        return Ok(Vec::new(alloc));
    }
    asked(alloc, read_command(word), words)
}

/// The events of a script, or its first fault. One pass over the text.
pub fn parse(alloc: Global, text: &[u8]) -> Result<Vec<Event>, Refused<Fault>>
    ensures { Gives (λ events. map event_of events.items) result (script text.now) }
{
    let mut events = Vec::new(alloc);
    let mut line_number = 0;
    for line in Lines::new(text) {
        line_number += 1;
        match events_in(alloc, line) {
            Ok(mut asked) => events.append(&mut asked)?,
            Err(Refused::OutOfMemory) => return Err(Refused::OutOfMemory),
            Err(Refused::Fault(reason)) => {
                let line = line_number;
                return Err(Refused::Fault(Fault { line, reason }));
            }
        }
    }
    Ok(events)
}
