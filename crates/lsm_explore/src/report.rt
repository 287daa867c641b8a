//! What an exploration found: the report for its caller, and the tallies of threads, which are joined into it.

ghost use Rattle.std.specs.Prelude.{◌≡◌, ◌+◌, ◌-◌, ◌^◌, min};

use crate::alphabet::Alphabet;
use crate::play::Taken;
use crate::wrong::Wrong;

/// What all schedules together gave.
#[derive(Drop)]
pub struct Report {
    /// How many schedules were run. One ends at its first wrong answer.
    pub schedules: u64,
    /// How many events there were, those before the choices, repeated ones and probes too.
    pub events: u64,
    /// How many schedules had a wrong answer.
    pub wrong: u64,
    /// The first of these in the order of the schedules, shortened.
    pub first: Option<Wrong>,
}

/// A schedule with a wrong answer.
#[derive(Drop)]
pub(crate) struct Found {
    /// The task that it is of.
    pub(crate) task: u64,
    pub(crate) alphabet: Alphabet,
    pub(crate) choices: Vec<Taken>,
}

/// What some schedules gave.
#[derive(Drop)]
pub(crate) struct Tally {
    pub(crate) schedules: u64,
    pub(crate) events: u64,
    pub(crate) wrong: u64,
    /// That of the least task.
    pub(crate) first: Option<Found>,
}

impl Tally {
    /// Of no schedule.
    pub(crate) fn new() -> Tally {
        Tally {
            schedules: 0,
            events: 0,
            wrong: 0,
            first: None,
        }
    }

    /// Adds what other schedules gave, of other tasks or later ones of the same task.
    pub(crate) fn join(self, other: Tally) -> Tally
        ensures schedules { result.schedules ≡ min (self.schedules + other.schedules) (2 ^ 64 - 1) }
        ensures events { result.events ≡ min (self.events + other.events) (2 ^ 64 - 1) }
        ensures wrong { result.wrong ≡ min (self.wrong + other.wrong) (2 ^ 64 - 1) }
    {
        let Tally {
            schedules,
            events,
            wrong,
            first,
        } = self;
        Tally {
            schedules: schedules.saturating_add(other.schedules),
            events: events.saturating_add(other.events),
            wrong: wrong.saturating_add(other.wrong),
            first: earlier(first, other.first),
        }
    }
}

/// The one of the lesser task, or the first one of two of one task.
fn earlier(one: Option<Found>, other: Option<Found>) -> Option<Found> {
    match (one, other) {
        (None, found) => found,
        (found, None) => found,
        (Some(one), Some(other)) => {
            if one.task <= other.task {
                Some(one)
            } else {
                Some(other)
            }
        }
    }
}
