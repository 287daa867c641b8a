//! The thread of a writer, which flushes what is full.

use super::course::Course;
use crate::error::{NO_PART, TimingError};
use crate::load::{BATCH, Load};
use lsm_coord::CoordError;
use lsm_key::Batch;
use lsm_nodes::{Hub, Start, Tally, Witness};
use lsm_vault::Vault;
use std::sync::Wait;
use std::sync::atomic::Ordering;
use std::time::Duration;

/// How many writers there are. A batch is of the writer whose index is its number modulo this one.
const WRITERS: u64 = 2;

/// What was written.
#[derive(Clone, Copy)]
pub(crate) struct Writing {
    pub(crate) entries: u64,
    /// How long the longest write of a batch took, with the flush and the trim that it had to wait for.
    pub(crate) longest: Duration,
    /// How long the run took until the end of the writes, by the clock that was asked for.
    pub(crate) time: Duration,
}

/// Where nothing is written yet.
pub(crate) const UNWRITTEN: Writing = Writing {
    entries: 0,
    longest: Duration::ZERO,
    time: Duration::ZERO,
};

// What came of a batch.
#[derive(Clone, Copy)]
enum Wrote {
    All,
    /// The memtable has no room for it.
    Full,
    NoMemory,
}

impl Writing {
    /// With what another writer wrote.
    pub(crate) fn and(self, other: Writing) -> Writing {
        Writing {
            entries: self.entries.wrapping_add(other.entries),
            longest: self.longest.max(other.longest),
            time: self.time.max(other.time),
        }
    }
}

/// Lets a writer write one batch after another until the time is over.
pub(crate) fn write_until_due<V: Vault, J: Start, N: Witness + Drop, R: Wait>(
    rt: &R,
    course: &Course,
    hub: &Hub<V, J, N>,
    index: u64,
    tally: &mut Tally<J>,
) -> Result<Writing, TimingError> {
    let mut writing = UNWRITTEN;
    for _ in rt.forever() {
        if course.is_due()? {
            break;
        }
        writing = write_next(rt, course, hub, index, tally, writing)?;
    }
    let time = course.bench.now()?.saturating_sub(course.start);
    Ok(Writing { time, ..writing })
}

// Writes the next batch of one of the writers, unless there is no memory for it.
fn write_next<V: Vault, J: Start, N: Witness + Drop, R: Wait>(
    rt: &R,
    course: &Course,
    hub: &Hub<V, J, N>,
    index: u64,
    tally: &mut Tally<J>,
    writing: Writing,
) -> Result<Writing, TimingError> {
    let before = writing.entries / BATCH;
    let number = before.wrapping_mul(WRITERS).wrapping_add(index);
    match Load::puts(u64::MAX, BATCH).batch(course.bench, number) {
        Ok(batch) => write_timed_once(rt, course, hub, tally, &batch, writing),
        Err(_) => {
            course.miss();
            Ok(writing)
        }
    }
}

// Writes a batch, and counts it if it is written.
fn write_timed_once<V: Vault, J: Start, N: Witness + Drop, R: Wait>(
    rt: &R,
    course: &Course,
    hub: &Hub<V, J, N>,
    tally: &mut Tally<J>,
    batch: &Batch,
    writing: Writing,
) -> Result<Writing, TimingError> {
    let start = course.now()?;
    let wrote = write(rt, course, hub, tally, batch)?;
    let took = course.now()?.saturating_sub(start);
    let longest = writing.longest.max(took);
    let Wrote::All = wrote else {
        return Ok(Writing { longest, ..writing });
    };
    course.entries.fetch_add(BATCH, Ordering::SeqCst);
    let entries = writing.entries.wrapping_add(BATCH);
    Ok(Writing {
        entries,
        longest,
        ..writing
    })
}

// Writes a batch. If the memtable is full, one writer flushes it while the other one waits, and then it is written if the other one has not filled it.
fn write<V: Vault, J: Start, N: Witness + Drop, R: Wait>(
    rt: &R,
    course: &Course,
    hub: &Hub<V, J, N>,
    tally: &mut Tally<J>,
    batch: &Batch,
) -> Result<Wrote, TimingError> {
    match write_once(rt, course, hub, tally, batch)? {
        Wrote::Full => {}
        ended => return Ok(ended),
    }
    let _turn = course.turn(rt);
    write_in_turn(rt, course, hub, tally, batch)
}

// The same in this writer's turn.
fn write_in_turn<V: Vault, J: Start, N: Witness + Drop, R: Wait>(
    rt: &R,
    course: &Course,
    hub: &Hub<V, J, N>,
    tally: &mut Tally<J>,
    batch: &Batch,
) -> Result<Wrote, TimingError> {
    match write_once(rt, course, hub, tally, batch)? {
        Wrote::Full => {}
        ended => return Ok(ended),
    }
    if !flush(rt, course, hub, tally)? {
        return Ok(Wrote::NoMemory);
    }
    write_once(rt, course, hub, tally, batch)
}

// Writes a batch if the memtable has room for it.
fn write_once<V: Vault, J: Start, N: Witness + Drop, R: Wait>(
    rt: &R,
    course: &Course,
    hub: &Hub<V, J, N>,
    tally: &mut Tally<J>,
    batch: &Batch,
) -> Result<Wrote, TimingError> {
    if tally.parts() == 0 {
        return Err(NO_PART);
    }
    match hub.write(rt, batch, tally) {
        Ok(_) => Ok(Wrote::All),
        Err(CoordError::MemtableFull) => Ok(Wrote::Full),
        Err(why) => {
            course.outlive(why)?;
            Ok(Wrote::NoMemory)
        }
    }
}

// Flushes the memtable and lets go of the tables that no version has any more. Says whether there was the memory for it.
fn flush<V: Vault, J: Start, N: Witness + Drop, R: Wait>(
    rt: &R,
    course: &Course,
    hub: &Hub<V, J, N>,
    tally: &mut Tally<J>,
) -> Result<bool, TimingError> {
    if tally.parts() == 0 {
        return Err(NO_PART);
    }
    let version = match hub.flush(rt, tally) {
        Ok(flushed) => flushed.number,
        Err(why) => return course.outlive(why),
    };
    match hub.trim(rt, version, tally) {
        Ok(_) => Ok(true),
        Err(why) => course.outlive(why),
    }
}
