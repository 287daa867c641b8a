//! The command `deliver`: a message, or those of a range of numbers in turn.

ghost use Rattle.std.specs.Prelude.{◌≡◌, ◌+◌, ◌≤◌, IfOk, IfSome, map, position};
ghost use Rattle.lsm_key.specs.Reading.{Gives};
ghost use Rattle.lsm_world.specs.Events.{event_of};
ghost use Rattle.lsm_line.specs.Commands.{words_left};
ghost use Rattle.lsm_script.specs.Deliveries.{is_dash, range_between, read_range, deliveries, deliver};

use lsm_key::Refused;
use lsm_line::{Reason, Words, read_number};
use lsm_world::Event;
use std::alloc::{AllocError, Global};

/// The most messages that a line may deliver.
const MAX_DELIVERIES: u64 = 1_000;

/// `deliver M`, or `deliver A-B`
pub fn deliver(alloc: Global, mut args: Words<'_>) -> Result<Vec<Event>, Refused<Reason>>
    ensures { Gives (λ events. map event_of events.items) result (deliver (words_left args.entry)) }
{
    let (Some(word), None) = (args.next(), args.next()) else {
        return Err(Refused::Fault(Reason::WrongWordCount));
    };
    let Some((first, more)) = read_range(word) else {
        return Err(Refused::Fault(Reason::BadNumber));
    };
    Ok(deliveries(alloc, first, more + 1)?)
}

/// The first of the messages that a word names, and how many follow it.
fn read_range(word: &[u8]) -> Option<(u64, u64)>
    ensures value { result ≡ read_range word.now }
    ensures fits { IfSome result (λ range. range.0 + range.1 ≤ u64.MAX) }
{
    match dash_in(word) {
        None => range_between(read_number(word), read_number(word)),
        Some(dash) => range_between(read_number(&word[..dash]), read_number(&word[dash + 1..])),
    }
}

// The place of the first dash.
fn dash_in(word: &[u8]) -> Option<usize>
    ensures { result ≡ position is_dash word.now }
{
    word.iter().position(|byte| *byte == b'-')
}

// The first of a range of numbers, and how many follow it.
fn range_between(first: Option<u64>, last: Option<u64>) -> Option<(u64, u64)>
    ensures value { result ≡ range_between first last }
    ensures fits { IfSome result (λ range. range.0 + range.1 ≤ u64.MAX) }
{
    let (first, last) = (first?, last?);
    if first > last || last - first >= MAX_DELIVERIES {
        return None;
    }
    Some((first, last - first))
}

/// The deliveries of this many messages, from the first number on.
fn deliveries(alloc: Global, first: u64, count: u64) -> Result<Vec<Event>, AllocError>
    requires { first + count ≤ u64.MAX + 1 }
    ensures { IfOk result (λ events. map event_of events.items ≡ deliveries first count) }
{
    let mut events = Vec::new(alloc);
    for place in 0..count {
        events.push(Event::Deliver(first + place))?;
    }
    Ok(events)
}
