//! The commands `pick` and `giveup` of dispatchers, and `restart`, which any node may get.

ghost use Rattle.std.specs.Prelude.{◌≡◌};
ghost use Rattle.lsm_key.specs.Reading.{Gives};
ghost use Rattle.lsm_world.specs.Events.{event_of};
ghost use Rattle.lsm_line.specs.Commands.{words_left};
ghost use Rattle.lsm_script.specs.Nodes.{index_of, index_or_fault};
ghost use Rattle.lsm_line.specs.Numbers.{number};
ghost use Rattle.lsm_script.specs.Script.{pick, give_up, restart, restart_other};

use crate::names::{follower_index, read_index, worker_index};
use lsm_key::Refused;
use lsm_line::{Reason, Words};
use lsm_msg::NodeIndex;
use lsm_world::Event;

/// `pick D`
pub fn pick(mut args: Words<'_>) -> Result<Event, Refused<Reason>>
    ensures { Gives event_of result (pick (words_left args.entry)) }
{
    let (Some(word), None) = (args.next(), args.next()) else {
        return Err(Refused::Fault(Reason::WrongWordCount));
    };
    let dispatcher = indexed(read_index(word))?;
    Ok(Event::Pick(dispatcher))
}

/// `giveup D`
pub fn give_up(mut args: Words<'_>) -> Result<Event, Refused<Reason>>
    ensures { Gives event_of result (give_up (words_left args.entry)) }
{
    let (Some(word), None) = (args.next(), args.next()) else {
        return Err(Refused::Fault(Reason::WrongWordCount));
    };
    let dispatcher = indexed(read_index(word))?;
    Ok(Event::GiveUp(dispatcher))
}

/// `restart c`, `restart wD`, `restart fI`
pub fn restart(mut args: Words<'_>) -> Result<Event, Refused<Reason>>
    ensures { Gives event_of result (restart (words_left args.entry)) }
{
    let (Some(node), None) = (args.next(), args.next()) else {
        return Err(Refused::Fault(Reason::WrongWordCount));
    };
    if node == b"c".as_slice() {
        return Ok(Event::RestartCoordinator);
    }
    restart_other(worker_index(node), follower_index(node))
}

// The restart of a worker or a follower.
fn restart_other(
    worker: Option<NodeIndex>,
    follower: Option<NodeIndex>,
) -> Result<Event, Refused<Reason>>
    ensures { Gives event_of result (restart_other worker follower) }
{
    match (worker, follower) {
        (Some(worker), _) => Ok(Event::RestartWorker(worker)),
        (None, Some(follower)) => Ok(Event::RestartFollower(follower)),
        (None, None) => Err(Refused::Fault(Reason::BadName)),
    }
}

/// The index that a word must be.
pub fn indexed(index: Option<NodeIndex>) -> Result<NodeIndex, Refused<Reason>>
    ensures { Gives (λ i. i) result (index_or_fault index) }
{
    index.ok_or(Refused::Fault(Reason::BadNumber))
}
