//! A follower's loop, and what its reader is shown.

ghost use Rattle.std.specs.Prelude.{◌≡◌, []};

use super::vectors::{
    ASK, ASK_NEW, CURRENT, FLUSH, FOLLOWER_FETCH, FOLLOWER_GONE, FOLLOWER_TABLE, JUNK, OPENING,
};
use super::{Messages, are_sent, waiting};
use crossbeam_channel::unbounded;
use lsm_follow::Follower;
use lsm_key::VersionNumber;
use lsm_msg::NodeIndex;
use lsm_readers::{FollowerReader, LogName, NewLog, Publisher, readers};
use lsm_threads::{ChannelPort, Ending, follower_loop};
use std::alloc::Global;
use std::marker::Brand;
use std::sync::Wait;
use std::test::Fail;

// What comes, what is sent, how the loop ends whose goal is version 2, and at which version a reader is then. A second Gone for a change that was
// given up asks for nothing.
const COURSES: [(Messages, Messages, Ending, u64); 5] = [
    (&[], &[ASK_NEW], Ending::Closed, 0),
    (&[CURRENT], &[ASK_NEW], Ending::Current, 0),
    (&[OPENING, JUNK], &[ASK_NEW, ASK], Ending::NoMessage, 1),
    (
        &[OPENING, FLUSH, FOLLOWER_TABLE],
        &[ASK_NEW, ASK, FOLLOWER_FETCH],
        Ending::AtGoal,
        2,
    ),
    (
        &[
            OPENING,
            FLUSH,
            FOLLOWER_GONE,
            FOLLOWER_GONE,
            FLUSH,
            FOLLOWER_TABLE,
        ],
        &[ASK_NEW, ASK, FOLLOWER_FETCH, ASK, FOLLOWER_FETCH],
        Ending::AtGoal,
        2,
    ),
];

// How the loop of a new follower ends, if it sends these messages, and the writer, without which no reader is shown anything.
#[tactic(auto, using(lsm_threads::proofs::InStep::in_step_new))]
fn follow<'a, J: LogName, R: Wait>(
    rt: &'a R,
    alloc: Global,
    writer: Publisher<J, &'a R>,
    come: Messages,
    wanted: Messages,
) -> Result<(Ending, Publisher<J, &'a R>), Fail>
    requires { writer.taken ≡ [] }
{
    let index = NodeIndex::new(1).ok_or("no index")?;
    let inbox = waiting(rt, alloc, come)?;
    let (outbox, sent) = unbounded(alloc)?;
    let mut port = ChannelPort::new(rt, alloc, inbox, outbox);
    let follower = Follower::new(alloc, index);
    let goal = VersionNumber::new(2);
    let (follower, writer, ending) = follower_loop(rt, follower, writer, &mut port, goal);
    drop(follower);
    if !are_sent(rt, &sent, wanted) {
        return Err("out of memory, or other messages were sent")?;
    }
    Ok((ending, writer))
}

// How the loop ends, and at which version a reader is then.
fn followed<J: LogName, R: Wait>(
    rt: &R,
    alloc: Global,
    log: NewLog,
    come: Messages,
    wanted: Messages,
) -> Result<(Ending, u64), Fail>
    requires { log ≡ J.log }
{
    let (writer, mut all) = readers::<J, &R>(alloc, rt, log, 1)?;
    let (ending, writer) = follow(rt, alloc, writer, come, wanted)?;
    let number = shown(&mut all)?;
    drop(writer);
    Ok((ending, number))
}

fn shown<J: LogName>(all: &mut [FollowerReader<J>]) -> Result<u64, Fail> {
    let [reader] = all else {
        return Err("no reader")?;
    };
    let (number, _value) = reader.get(b"a")?;
    Ok(number.number())
}

// The same of a new log of publications.
fn followed_anew<R: Wait>(
    rt: &R,
    alloc: Global,
    come: Messages,
    wanted: Messages,
) -> Result<(Ending, u64), Fail> {
    let log = NewLog::new();
    followed::<Brand, R>(rt, alloc, log, come, wanted)
}

#[test]
fn a_follower_shows_each_version_that_it_comes_to(rt: HostRuntime) -> Result<(), Fail> {
    for (come, wanted, ending, number) in COURSES {
        if followed_anew(&rt, rt.alloc(), come, wanted)? != (ending, number) {
            return Err("out of memory, or another version or ending")?;
        }
    }
    Ok(())
}
