//! What the threads of a run share.

use crate::bench::Bench;
use crate::clock::ClockKind;
use crate::error::{NO_NODE, TimingError};
use lsm_coord::CoordError;
use lsm_msg::NodeIndex;
use std::sync::atomic::{AtomicBool, AtomicU64, Ordering};
use std::sync::{Mutex, MutexGuard, Wait};
use std::time::Duration;
use std::{io, thread};

/// How many milliseconds a thread sleeps that has nothing to do.
const REST: u64 = 1;

/// What the threads of a run share.
#[derive(Drop)]
pub(crate) struct Course {
    pub(crate) bench: Bench,
    /// Whether dispatchers with workers run.
    pub(crate) has_workers: bool,
    /// How many readers there are.
    pub(crate) readers: u64,
    // Two indices of nodes of one kind.
    pub(crate) first: NodeIndex,
    pub(crate) second: NodeIndex,
    /// When it began, by the clock that was asked for.
    pub(crate) start: Duration,
    // When it is over, by the clock of the wall.
    end: Duration,
    pub(crate) is_over: AtomicBool,
    // Whose turn it is to flush.
    turn: Mutex<()>,
    /// How many entries are written.
    pub(crate) entries: AtomicU64,
    /// How many readers have begun.
    pub(crate) begun: AtomicU64,
    /// How often there was no memory.
    pub(crate) missed: AtomicU64,
}

impl Course {
    /// Begins a run.
    pub(crate) fn begin(
        bench: Bench,
        seconds: u64,
        readers: u64,
        has_workers: bool,
    ) -> Result<Course, TimingError> {
        let Some(first) = NodeIndex::new(1) else {
            return Err(NO_NODE);
        };
        let Some(second) = NodeIndex::new(2) else {
            return Err(NO_NODE);
        };
        let now = ClockKind::Wall.now(&bench.rt)?;
        Ok(Course {
            bench,
            has_workers,
            readers,
            first,
            second,
            start: bench.now()?,
            end: now.saturating_add(Duration::from_secs(seconds)),
            is_over: AtomicBool::new(false),
            turn: Mutex::new(()),
            entries: AtomicU64::new(0),
            begun: AtomicU64::new(0),
            missed: AtomicU64::new(0),
        })
    }

    /// What the clock of the wall shows, of which a pause is taken.
    pub(crate) fn now(&self) -> io::Result<Duration> {
        ClockKind::Wall.now(&self.bench.rt)
    }

    /// Whether the time is over.
    pub(crate) fn is_due(&self) -> io::Result<bool> {
        Ok(self.now()? >= self.end)
    }

    /// Whether it was ended.
    pub(crate) fn is_over(&self) -> bool {
        self.is_over.load(Ordering::SeqCst)
    }

    /// Waits until no other writer flushes.
    pub(crate) fn turn<R: Wait>(&self, rt: &R) -> MutexGuard<'_, ()> {
        self.turn.lock(rt)
    }

    /// Counts that there was no memory.
    pub(crate) fn miss(&self) {
        self.missed.fetch_add(1, Ordering::SeqCst);
    }

    /// Counts a call that was refused since memory ran out, and says that it is not done. Any other refusal ends the run.
    pub(crate) fn outlive(&self, why: CoordError) -> Result<bool, TimingError> {
        if why != CoordError::OutOfMemory {
            return Err(TimingError::from(why));
        }
        self.miss();
        Ok(false)
    }

    /// Lets other threads run for a while.
    pub(crate) fn rest(&self) {
        thread::sleep(&self.bench.rt, Duration::from_millis(REST));
    }
}
