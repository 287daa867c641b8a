//! What each thread of a run does, but for the follower's, and what came of it.

ghost use Rattle.std.specs.Prelude.{◌≡◌};

use super::course::Course;
use super::dispatcher::dispatch_until_over;
use super::reads::{LOST, Reads, read_until_over};
use super::tell::{Ends, NOTHING};
use super::writer::{UNWRITTEN, Writing, write_until_due};
use crate::error::{EXHAUSTED, NO_PART, OUT_OF_MEMORY, TimingError};
use lsm_msg::NodeIndex;
use lsm_nodes::{Hub, PARTS, Start, Tally, Witness};
use lsm_readers::{FollowerReader, LogName};
use lsm_vault::Vault;
use std::sync::Wait;
use std::sync::atomic::Ordering;
use std::thread::{Threads, for_each_mut};

/// At most so many threads have a role: two writers, two dispatchers and four readers.
const ROLES: usize = 8;

/// How often the merge of two tallies is tried that finds no memory.
const TRIES: u64 = 1_000_000;

/// What a thread does, with what it has for that, and what came of it.
#[derive(Drop)]
pub(super) enum Role<J: Start + LogName> {
    Writer(WriterRole<J>),
    Dispatcher(DispatcherRole<J>),
    Reader(ReaderRole<J>),
}

/// Writes, as the writer of an index.
#[derive(Drop)]
pub(super) struct WriterRole<J: Start> {
    index: u64,
    tally: Tally<J>,
    wrote: Result<Writing, TimingError>,
}

/// Dispatches, as the node of an index. It has a tally but while it dispatches.
#[derive(Drop)]
pub(super) struct DispatcherRole<J: Start> {
    index: NodeIndex,
    tally: Option<Tally<J>>,
}

/// Reads at the follower.
#[derive(Drop)]
pub(super) struct ReaderRole<J: LogName> {
    reader: FollowerReader<J>,
    reads: Reads,
}

impl<J: Start + LogName> Role<J> {
    fn writer(index: u64, tally: Tally<J>) -> Role<J> {
        Role::Writer(WriterRole {
            index,
            tally,
            wrote: Ok(UNWRITTEN),
        })
    }

    fn dispatcher(index: NodeIndex, tally: Tally<J>) -> Role<J> {
        Role::Dispatcher(DispatcherRole {
            index,
            tally: Some(tally),
        })
    }

    fn reader(reader: FollowerReader<J>) -> Role<J> {
        Role::Reader(ReaderRole {
            reader,
            reads: LOST,
        })
    }
}

/// The roles of a run: two writers, two dispatchers, and these readers.
pub(super) fn roles_of<J: Start + LogName>(
    course: &Course,
    tally: Tally<J>,
    readers: Vec<FollowerReader<J>>,
) -> Result<Vec<Role<J>>, TimingError>
    requires { tally.parts ≡ PARTS }
{
    let mut tally = tally;
    let mut roles = Vec::new(course.bench.alloc());
    roles.push(Role::writer(1, tally.split()))?;
    roles.push(Role::dispatcher(course.first, tally.split()))?;
    roles.push(Role::dispatcher(course.second, tally.split()))?;
    roles.push(Role::writer(0, tally))?;
    for reader in readers {
        roles.push(Role::reader(reader))?;
    }
    Ok(roles)
}

/// Plays all roles at once, each in a thread of its own.
pub(super) fn play_all<
    V: Vault + Send,
    J: Start + LogName + Send + Sync,
    N: Witness + Drop + Send,
    R: Threads + Wait + Sync,
>(rt: &R, course: &Course, hub: &Hub<V, J, N>, roles: &mut Vec<Role<J>>) {
    for_each_mut(
        rt,
        roles.as_mut_slice(),
        ROLES,
        &|_place: usize, role: &mut Role<J>| play(rt, course, hub, role),
    );
}

// Plays a role until the run is over. It is over as soon as a writer has ended.
fn play<
    V: Vault + Send,
    J: Start + LogName + Send + Sync,
    N: Witness + Drop + Send,
    R: Threads + Wait + Sync,
>(rt: &R, course: &Course, hub: &Hub<V, J, N>, role: &mut Role<J>) {
    match role {
        Role::Writer(writer) => {
            let wrote = write_until_due(rt, course, hub, writer.index, &mut writer.tally);
            writer.wrote = wrote;
            course.is_over.store(true, Ordering::SeqCst);
        }
        Role::Dispatcher(dispatcher) => {
            if let Some(tally) = dispatcher.tally.take() {
                let tally = dispatch_until_over(rt, course, hub, dispatcher.index, tally);
                dispatcher.tally = Some(tally);
            }
        }
        Role::Reader(reader) => reader.reads = read_until_over(course, &mut reader.reader),
    }
}

/// The tally with the records of all, and what the threads did, with the version that the follower came to.
pub(super) fn ends_of<J: Start + LogName>(
    course: &Course,
    roles: Vec<Role<J>>,
    followed: u64,
) -> Result<(Tally<J>, Ends), TimingError> {
    let mut ends = NOTHING;
    let mut held = None;
    for role in roles {
        held = with_role(&mut ends, held, role)?;
    }
    let Some(tally) = held else {
        return Err(NO_PART);
    };
    ends.picked = tally.picked();
    ends.installed = tally.installed();
    ends.returned = tally.returned();
    ends.stale = tally.stale();
    ends.followed = followed;
    ends.missed = course.missed.load(Ordering::SeqCst);
    Ok((tally, ends))
}

// Adds what came of a role, and its tally to the one that is held.
fn with_role<J: Start + LogName>(
    ends: &mut Ends,
    held: Option<Tally<J>>,
    role: Role<J>,
) -> Result<Option<Tally<J>>, TimingError> {
    match role {
        Role::Writer(writer) => {
            let WriterRole {
                index: _,
                tally,
                wrote,
            } = writer;
            ends.writing = ends.writing.and(wrote?);
            joined(held, tally)
        }
        Role::Dispatcher(dispatcher) => match dispatcher.tally {
            Some(tally) => joined(held, tally),
            None => Ok(held),
        },
        Role::Reader(reader) => {
            ends.reads = ends.reads.and(reader.reads);
            Ok(held)
        }
    }
}

// The tally that is held with another one's records.
fn joined<J: Start>(
    held: Option<Tally<J>>,
    other: Tally<J>,
) -> Result<Option<Tally<J>>, TimingError> {
    let Some(tally) = held else {
        return Ok(Some(other));
    };
    let mut tally = tally;
    add(&mut tally, other)?;
    Ok(Some(tally))
}

// Adds another one's records to a tally.
fn add<J: Start>(tally: &mut Tally<J>, other: Tally<J>) -> Result<(), TimingError> {
    let parts = tally.parts().checked_add(other.parts());
    let picked = tally.picked().checked_add(other.picked());
    if parts.is_none() || picked.is_none() {
        return Err(EXHAUSTED);
    }
    let mut other = other;
    for _try in 0..TRIES {
        match tally.merge(other) {
            Ok(()) => return Ok(()),
            Err(back) => other = back,
        }
    }
    Err(OUT_OF_MEMORY)
}
