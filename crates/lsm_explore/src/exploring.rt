//! Exploring: schedules by their beginnings, or by chance, are shared out to threads, whose tallies are joined into a
//! report.

use crate::alphabet::Alphabet;
use crate::path::Path;
use crate::play::{Halt, Play, close, new_world};
use crate::random::{MAX_EXHAUSTED, RANDOM_SCHEDULES, generator};
use crate::report::{Found, Report, Tally};
use crate::shorten::shorten;
use crate::wrong::examine;
use lsm_key::Limits;
use std::alloc::{AllocError, Global};
use std::sync::atomic::{AtomicU64, Ordering};
use std::thread;
use std::thread::Threads;

/// The beginnings of schedules are shared out to the threads. Each has this many choices.
const SHARED: usize = 3;

/// What to explore.
#[derive(Clone, Copy)]
pub struct Settings {
    /// How many events a schedule has beside those that come first. Up to `MAX_EXHAUSTED` every schedule is run, above it some by chance.
    pub events: u32,
    /// When a level needs compaction.
    pub limits: Limits,
    /// By how many threads, at least one.
    pub threads: usize,
    /// Which schedules come by chance.
    pub seed: u64,
}

/// Learns how far an exploration has come, from any of its threads.
pub trait Progress {
    /// `done` of all parts are done. They take different times.
    fn told(&self, done: u64, of: u64);
}

// Some schedules: those with one beginning, or one by chance.
#[derive(Drop)]
enum Task {
    // The beginning, and from which turn on the nodes are probed.
    Beginning(Alphabet, Path, usize),
    // The seed.
    Random(Alphabet, u64),
}

/// Runs the schedules, and reports how many there were and the first one with a wrong answer. The report does not depend on the number of
/// threads.
pub fn explore<R: Threads + Sync, P: Progress + Sync>(
    rt: &R,
    alloc: Global,
    settings: Settings,
    progress: &P,
) -> Result<Report, AllocError> {
    let mut tasks = Vec::new(alloc);
    let mut all = share_out(alloc, settings, &mut tasks)?;
    let next = AtomicU64::new(0);
    let done = AtomicU64::new(0);
    let tasks = tasks.as_slice();
    let tallies = thread::map_indices(
        rt,
        alloc,
        settings.threads,
        &|_| work(alloc, settings, tasks, &next, &done, progress),
    )?;
    for tally in tallies {
        all = all.join(tally?);
    }
    reported(alloc, settings, all)
}

// The report of a tally, whose first wrong schedule is run again and shortened.
fn reported(alloc: Global, settings: Settings, all: Tally) -> Result<Report, AllocError> {
    let Tally {
        schedules,
        events,
        wrong,
        first,
    } = all;
    let first = match first {
        None => None,
        Some(found) => {
            let choices = found.choices.as_slice();
            match examine(alloc, settings.limits, found.alphabet, choices)? {
                None => None,
                Some(wrong) => Some(shorten(alloc, settings.limits, found.alphabet, wrong)?),
            }
        }
    };
    Ok(Report {
        schedules,
        events,
        wrong,
        first,
    })
}

// What there is to do, in the order of the schedules.
fn share_out(
    alloc: Global,
    settings: Settings,
    tasks: &mut Vec<Task>,
) -> Result<Tally, AllocError> {
    let mut tally = Tally::new();
    // Seed 1 has the schedules of the generators 1, 2, .., and each seed those after.
    let before = settings.seed.wrapping_sub(1).wrapping_mul(RANDOM_SCHEDULES);
    let first = before.wrapping_add(1);
    for alphabet in Alphabet::ALL {
        if settings.events > MAX_EXHAUSTED {
            for i in 0..RANDOM_SCHEDULES {
                tasks.push(Task::Random(alphabet, first.wrapping_add(i)))?;
            }
        } else {
            let events = share_out_beginnings(alloc, settings, alphabet, tasks)?;
            tally.events = tally.events.saturating_add(events);
        }
    }
    Ok(tally)
}

// Each beginning of a schedule. Returns how many events there were. A beginning with a wrong answer is a whole schedule, and is run again
// with all probes.
fn share_out_beginnings(
    alloc: Global,
    settings: Settings,
    alphabet: Alphabet,
    tasks: &mut Vec<Task>,
) -> Result<u64, AllocError> {
    let depth = SHARED.min(settings.events as usize);
    let mut path = Path::new(alloc);
    let mut new_from = 0;
    let mut events = 0u64;
    for _ in 0..u64::MAX {
        let ran = run(alloc, settings, alphabet, &mut path, depth, new_from)?;
        events = events.saturating_add(ran.events);
        let probed = if ran.wrong > 0 { 0 } else { path.len() };
        tasks.push(Task::Beginning(alphabet, path.copy(alloc)?, probed))?;
        if !path.advance(0) {
            break;
        }
        new_from = path.len().saturating_sub(1);
    }
    Ok(events)
}

// Takes one task after another, until there are none.
fn work<P: Progress>(
    alloc: Global,
    settings: Settings,
    tasks: &[Task],
    next: &AtomicU64,
    done: &AtomicU64,
    progress: &P,
) -> Result<Tally, AllocError> {
    let mut all = Tally::new();
    for _ in 0..tasks.len() {
        let number = next.fetch_add(1, Ordering::SeqCst);
        let Some(task) = tasks.get(number as usize) else {
            break;
        };
        all = all.join(run_task(alloc, settings, number, task)?);
        let before = done.fetch_add(1, Ordering::SeqCst);
        progress.told(before.saturating_add(1), tasks.len() as u64);
    }
    Ok(all)
}

// The schedules of a task.
fn run_task(
    alloc: Global,
    settings: Settings,
    number: u64,
    task: &Task,
) -> Result<Tally, AllocError> {
    let mut tally = match task {
        Task::Random(alphabet, seed) => run_random(alloc, settings, *alphabet, *seed)?,
        Task::Beginning(alphabet, path, probed) => {
            run_beginning(alloc, settings, *alphabet, path, *probed)?
        }
    };
    if let Some(found) = &mut tally.first {
        found.task = number;
    }
    Ok(tally)
}

// All schedules with one beginning.
fn run_beginning(
    alloc: Global,
    settings: Settings,
    alphabet: Alphabet,
    beginning: &Path,
    probed: usize,
) -> Result<Tally, AllocError> {
    let mut tally = Tally::new();
    let mut path = beginning.copy(alloc)?;
    let mut new_from = probed;
    for _ in 0..u64::MAX {
        let depth = settings.events as usize;
        tally = tally.join(run(alloc, settings, alphabet, &mut path, depth, new_from)?);
        if !path.advance(beginning.len()) {
            break;
        }
        new_from = path.len().saturating_sub(1);
    }
    Ok(tally)
}

// One schedule. If an answer is wrong, the path ends there.
fn run(
    alloc: Global,
    settings: Settings,
    alphabet: Alphabet,
    path: &mut Path,
    depth: usize,
    new_from: usize,
) -> Result<Tally, AllocError> {
    let mut play = Play::new(alloc, alphabet, settings.limits)?;
    let mut world = new_world(alloc, settings.limits)?;
    let ended = play.follow(&mut world, path, depth, new_from);
    close(world);
    if let Err(Halt::Wrong(_)) = &ended {
        path.cut(play.taken.len());
    }
    tally_of(alphabet, play, ended)
}

// One schedule by chance.
fn run_random(
    alloc: Global,
    settings: Settings,
    alphabet: Alphabet,
    seed: u64,
) -> Result<Tally, AllocError> {
    let mut play = Play::new(alloc, alphabet, settings.limits)?;
    let mut world = new_world(alloc, settings.limits)?;
    let ended = play.wander(&mut world, &mut generator(seed), settings.events);
    close(world);
    tally_of(alphabet, play, ended)
}

// What a schedule gave.
fn tally_of(alphabet: Alphabet, play: Play, ended: Result<(), Halt>) -> Result<Tally, AllocError> {
    let mut tally = Tally::new();
    tally.schedules = 1;
    tally.events = play.events;
    match ended {
        Ok(()) => Ok(tally),
        Err(Halt::OutOfMemory) => Err(AllocError),
        Err(Halt::Wrong(_)) => {
            let Play { taken: choices, .. } = play;
            tally.wrong = 1;
            tally.first = Some(Found {
                task: 0,
                alphabet,
                choices,
            });
            Ok(tally)
        }
    }
}
