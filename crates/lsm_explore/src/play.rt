//! One schedule on a new store, beside the model.

use crate::alphabet::{Alphabet, Choice, ENDLESS, LIMITED, first, second};
use crate::model::Model;
use crate::path::Path;
use bytes::Bytes;
use lsm_coord::SnapId;
use lsm_key::{Items, Limits, Op, VersionNumber};
use lsm_msg::NodeIndex;
use lsm_vault::MemoryVault;
use lsm_world::{Event, Reply, World};
use std::alloc::{AllocError, AllocFailed, Global};

/// Why a schedule ends before its last event.
#[derive(Drop)]
pub(crate) enum Halt {
    /// Memory ran out, and nothing is known of the schedule. The exploration ends.
    OutOfMemory,
    /// The model does not allow this reply to the last event: the schedule is counted as wrong.
    Wrong(Reply),
}

impl From<AllocError> for Halt {
    fn from(_e: AllocError) -> Halt {
        Halt::OutOfMemory
    }
}

impl<T: Drop> From<AllocFailed<T>> for Halt {
    fn from(_e: AllocFailed<T>) -> Halt {
        Halt::OutOfMemory
    }
}

/// A choice that was taken, and how many messages had been sent before it.
#[derive(Clone, Copy)]
pub(crate) struct Taken {
    pub(crate) choice: Choice,
    pub(crate) sent: u64,
}

/// A schedule so far.
#[derive(Drop)]
pub(crate) struct Play {
    alloc: Global,
    alphabet: Alphabet,
    pub(crate) model: Model,
    /// How often each limited choice may still come.
    left: [u32; LIMITED],
    /// The messages before it are delivered only as a schedule begins.
    first: u64,
    pub(crate) taken: Vec<Taken>,
    /// How many events there were.
    pub(crate) events: u64,
}

/// A world over a vault in memory. Such a vault, while it is empty, is refused only if memory runs out.
pub(crate) fn new_world(alloc: Global, limits: Limits) -> Result<World<MemoryVault>, AllocError> {
    match World::new(alloc, MemoryVault::new(alloc), limits) {
        Ok(world) => Ok(world),
        Err((_why, _vault)) => Err(AllocError),
    }
}

// The calls without their promises, which are not needed here: so the proofs are short.
fn ask(world: &mut World<MemoryVault>, event: Event) -> Reply {
    world.step(event)
}

/// The events that a world took.
pub(crate) fn trace(world: &World<MemoryVault>) -> &[Event] {
    world.trace()
}

/// Ends a world.
pub(crate) fn close(world: World<MemoryVault>) {
    let _vault = world.close();
}

/// The first snapshot of all.
const SNAPSHOT: SnapId = SnapId {
    epoch: 1,
    number: 1,
};

fn get(key: &'static [u8], at: Option<SnapId>) -> Event {
    Event::Get(Bytes::from_static(key), at)
}

fn read(follower: NodeIndex, key: &'static [u8]) -> Event {
    Event::Read(follower, Bytes::from_static(key))
}

fn write(alloc: Global, first: Op, second: Op) -> Result<Event, AllocError> {
    let ops = vec![in alloc; first, second]?;
    Ok(Event::Write(Items::from_vec(ops)))
}

impl Play {
    /// Before the first event.
    pub(crate) fn new(
        alloc: Global,
        alphabet: Alphabet,
        limits: Limits,
    ) -> Result<Play, AllocError> {
        Ok(Play {
            alloc,
            alphabet,
            model: Model::new(alloc, limits.l0)?,
            left: alphabet.uses(),
            first: 1,
            taken: Vec::new(alloc),
            events: 0,
        })
    }

    /// Lets every choice come as often as wanted.
    pub(crate) fn unlimited(&mut self) {
        self.left = [ENDLESS; LIMITED];
    }

    // Lets one event happen, and compares the reply.
    fn step(&mut self, world: &mut World<MemoryVault>, event: Event) -> Result<(), Halt> {
        let reply = ask(world, event);
        self.events = self.events.saturating_add(1);
        if reply.lacks_memory() {
            return Err(Halt::OutOfMemory);
        }
        let Some(event) = trace(world).last() else {
            return Err(Halt::OutOfMemory);
        };
        if self.model.take(event, &reply)? {
            return Ok(());
        }
        Err(Halt::Wrong(reply))
    }

    // Reads and lists all that must not have changed, or must have changed in one way alone.
    fn probe(&mut self, world: &mut World<MemoryVault>) -> Result<(), Halt> {
        self.step(world, get(b"a", None))?;
        self.step(world, get(b"b", None))?;
        self.step(world, Event::Show)?;
        match self.alphabet {
            Alphabet::Claims => {
                self.step(world, get(b"a", Some(SNAPSHOT)))?;
                self.step(world, get(b"b", Some(SNAPSHOT)))
            }
            Alphabet::Followers => {
                self.step(world, read(first(), b"a"))?;
                self.step(world, read(first(), b"b"))?;
                self.step(world, Event::ShowFollower(first()))?;
                self.step(world, Event::ShowFollower(second()))
            }
        }
    }

    /// What comes before the choices.
    pub(crate) fn set_up(&mut self, world: &mut World<MemoryVault>) -> Result<(), Halt> {
        let a = Bytes::from_static(b"a");
        let b = Bytes::from_static(b"b");
        let one = Bytes::from_static(b"1");
        let two = Bytes::from_static(b"2");
        let puts = write(
            self.alloc,
            Op::Put(a.clone()?, one.clone()?),
            Op::Put(b.clone()?, one),
        )?;
        self.step(world, puts)?;
        if self.alphabet == Alphabet::Claims {
            self.step(world, Event::Snap)?;
        }
        self.step(world, Event::Flush)?;
        let changes = write(self.alloc, Op::Put(a, two), Op::Delete(b))?;
        self.step(world, changes)?;
        self.step(world, Event::Flush)?;
        match self.alphabet {
            Alphabet::Claims => Ok(()),
            Alphabet::Followers => self.set_up_follower(world),
        }
    }

    // A merge is installed, and a follower reaches the first version.
    fn set_up_follower(&mut self, world: &mut World<MemoryVault>) -> Result<(), Halt> {
        self.step(world, Event::Pick(first()))?;
        for message in 1..=6 {
            if message <= self.model.sent() {
                self.step(world, Event::Deliver(message))?;
            }
        }
        self.first = self.model.sent().saturating_add(1);
        self.step(world, Event::Ask(first()))?;
        self.step(world, Event::Deliver(self.first))?;
        self.step(world, Event::Deliver(self.first.saturating_add(1)))
    }

    /// How many choices are not limited: each message that was sent may be delivered.
    fn deliveries(&self) -> u64 {
        self.model
            .sent()
            .saturating_add(1)
            .saturating_sub(self.first)
    }

    /// How many limited choices may come next.
    pub(crate) fn others(&self) -> u64 {
        self.left.iter().filter(|left| **left > 0).count() as u64
    }

    /// How many choices there are for the next event.
    pub(crate) fn choices(&self) -> u64 {
        self.others().saturating_add(self.deliveries())
    }

    /// The choice of a number, from 0.
    pub(crate) fn choice(&self, number: u64) -> Choice {
        let mut before = 0u64;
        for (choice, left) in self.alphabet.limited().into_iter().zip(self.left) {
            if left == 0 {
                continue;
            }
            if before == number {
                return choice;
            }
            before = before.saturating_add(1);
        }
        Choice::Deliver(self.first.saturating_add(number.saturating_sub(before)))
    }

    // A put of the next sequence, in decimal, as the value of `a`.
    fn put(&self) -> Result<Event, AllocError> {
        let seq = self.model.last_seq().saturating_add(1);
        let text = format!(in self.alloc; "{seq}")?;
        let value = Bytes::copy_from_slice(self.alloc, text.as_bytes())?;
        let ops = vec![in self.alloc; Op::Put(Bytes::from_static(b"a"), value)]?;
        Ok(Event::Write(Items::from_vec(ops)))
    }

    // The event that a choice begins with.
    fn event(&self, choice: Choice) -> Result<Event, AllocError> {
        Ok(match choice {
            Choice::Put | Choice::PutAndFlush => self.put()?,
            Choice::Pick(dispatcher) => Event::Pick(dispatcher),
            Choice::GiveUp(dispatcher) => Event::GiveUp(dispatcher),
            Choice::RestartCoordinator => Event::RestartCoordinator,
            Choice::RestartWorker(worker) => Event::RestartWorker(worker),
            Choice::RestartFollower(follower) => Event::RestartFollower(follower),
            Choice::Ask(follower) => Event::Ask(follower),
            Choice::Trim => Event::Trim(VersionNumber::new(self.model.current())),
            Choice::Deliver(message) => Event::Deliver(message),
        })
    }

    // Notes that a choice was taken.
    fn note(&mut self, choice: Choice) -> Result<(), AllocError> {
        let sent = self.model.sent();
        self.taken.push(Taken { choice, sent })?;
        let limited = self.alphabet.limited();
        for (i, left) in self.left.iter_mut().enumerate() {
            if limited[i] == choice {
                *left = left.saturating_sub(1);
            }
        }
        Ok(())
    }

    /// Takes a choice, and probes the nodes after it if it is new.
    pub(crate) fn take(
        &mut self,
        world: &mut World<MemoryVault>,
        choice: Choice,
        is_new: bool,
    ) -> Result<(), Halt> {
        self.note(choice)?;
        let event = self.event(choice)?;
        self.step(world, event)?;
        if choice == Choice::PutAndFlush {
            self.step(world, Event::Flush)?;
        }
        if is_new { self.probe(world) } else { Ok(()) }
    }

    /// Runs the schedule of a path. Turns that it lacks, up to `depth`, are added, and take their first choice. The nodes are probed from
    /// turn `new_from` on, and before the first one if it is 0.
    pub(crate) fn follow(
        &mut self,
        world: &mut World<MemoryVault>,
        path: &mut Path,
        depth: usize,
        new_from: usize,
    ) -> Result<(), Halt> {
        self.set_up(world)?;
        if new_from == 0 {
            self.probe(world)?;
        }
        for at in 0..depth {
            let choices = self.choices();
            if choices == 0 {
                return Ok(());
            }
            let choice = self.choice(path.taken_at(at, choices)?);
            self.take(world, choice, at >= new_from)?;
        }
        Ok(())
    }

    /// Runs a schedule by its choices, and probes the nodes after each.
    pub(crate) fn repeat(
        &mut self,
        world: &mut World<MemoryVault>,
        choices: &[Taken],
    ) -> Result<(), Halt> {
        self.set_up(world)?;
        self.probe(world)?;
        for taken in choices {
            self.take(world, taken.choice, true)?;
        }
        Ok(())
    }
}
