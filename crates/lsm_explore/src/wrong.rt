//! Wrong answers: a schedule that has one is run again for its events, its reply and what the model allows.

use crate::alphabet::Alphabet;
use crate::play::{Halt, Play, Taken, close, new_world, trace};
use lsm_key::Limits;
use lsm_world::{Event, Reply};
use std::alloc::{AllocError, Global};

/// A schedule whose last event is answered wrongly.
#[derive(Drop)]
pub struct Wrong {
    /// All its events. Of the reads and listings only the last one is there, if it is the wrong one.
    pub events: Vec<Event>,
    /// What was answered to the last one.
    pub reply: Reply,
    /// What the model allows, in the words of a reply line.
    pub allowed: String,
    pub(crate) taken: Vec<Taken>,
}

/// Runs a schedule by its choices, and gives its first wrong answer.
pub(crate) fn examine(
    alloc: Global,
    limits: Limits,
    alphabet: Alphabet,
    choices: &[Taken],
) -> Result<Option<Wrong>, AllocError> {
    let mut play = Play::new(alloc, alphabet, limits)?;
    let mut world = new_world(alloc, limits)?;
    let ended = play.repeat(&mut world, choices);
    let events = events_of(alloc, trace(&world));
    close(world);
    match ended {
        Ok(()) => Ok(None),
        Err(Halt::OutOfMemory) => Err(AllocError),
        Err(Halt::Wrong(reply)) => {
            let events = events?;
            let allowed = match events.last() {
                None => String::new(alloc),
                Some(event) => play.model.allowed(event)?,
            };
            let Play { taken, .. } = play;
            Ok(Some(Wrong {
                events,
                reply,
                allowed,
                taken,
            }))
        }
    }
}

// The events that change something, and the last one.
fn events_of(alloc: Global, trace: &[Event]) -> Result<Vec<Event>, AllocError> {
    let mut events = Vec::new(alloc);
    let last = trace.len().saturating_sub(1);
    for (i, event) in trace.iter().enumerate() {
        if i == last || !is_read(event) {
            events.push(event.copy(alloc)?)?;
        }
    }
    Ok(events)
}

// Whether an event changes nothing.
fn is_read(event: &Event) -> bool {
    matches!(
        event,
        Event::Get(_, _) | Event::Show | Event::Read(_, _) | Event::ShowFollower(_)
    )
}
