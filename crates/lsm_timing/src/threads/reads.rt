//! Gets of readers, each in a thread of its own.

ghost use Rattle.std.specs.Prelude.{◌≡◌, [], IfOk};

use super::course::Course;
use crate::error::{NO_READERS, OUT_OF_MEMORY, TimingError};
use crate::keys::random_below;
use lsm_readers::{FollowerReader, LogName, MAX_READERS, NewLog, Publisher, ReadersError, readers};
use std::io;
use std::sync::Wait;
use std::sync::atomic::Ordering;
use std::time::Duration;

/// How many random numbers a reader has for itself.
const SPAN: u64 = 1 << 40;

/// What readers read.
#[derive(Clone, Copy)]
pub(crate) struct Reads {
    pub(crate) count: u64,
    pub(crate) found: u64,
    /// How many were not answered.
    pub(crate) missed: u64,
    /// What it took each reader, added up.
    pub(crate) time: Duration,
}

/// No reads.
pub(crate) const NONE: Reads = Reads {
    count: 0,
    found: 0,
    missed: 0,
    time: Duration::ZERO,
};

/// Where the reads of a thread would be, of which there was no memory or no clock.
pub(crate) const LOST: Reads = Reads { missed: 1, ..NONE };

impl Reads {
    /// With those of another reader.
    pub(crate) fn and(self, other: Reads) -> Reads {
        Reads {
            count: self.count.wrapping_add(other.count),
            found: self.found.wrapping_add(other.found),
            missed: self.missed.wrapping_add(other.missed),
            time: self.time.saturating_add(other.time),
        }
    }
}

/// The end of a log that publishes, and the readers.
pub(crate) fn readers_of<'a, J: LogName, R: Wait>(
    rt: &'a R,
    course: &Course,
    log: NewLog,
) -> Result<(Publisher<J, &'a R>, Vec<FollowerReader<J>>), TimingError>
    requires log { log ≡ J.log }
    ensures { IfOk result (λ r. r.0 ≡ record { published = []; taken = [] }) }
{
    let alloc = course.bench.alloc();
    let made = (course.readers as usize).clamp(1, MAX_READERS);
    match readers::<J, &R>(alloc, rt, log, made) {
        Ok((publisher, _none)) if course.readers == 0 => Ok((publisher, Vec::new(alloc))),
        Ok(made) => Ok(made),
        Err(ReadersError::OutOfMemory) => Err(OUT_OF_MEMORY),
        Err(ReadersError::NoReader) => Err(NO_READERS),
    }
}

/// The gets of a reader until the run is over, with what they took.
pub(crate) fn read_until_over<J: LogName>(
    course: &Course,
    reader: &mut FollowerReader<J>,
) -> Reads {
    match read_timed(course, reader) {
        Ok(reads) => reads,
        Err(_) => LOST,
    }
}

fn read_timed<J: LogName>(course: &Course, reader: &mut FollowerReader<J>) -> io::Result<Reads> {
    let (rt, clock) = (course.bench.rt, course.bench.clock);
    let start = clock.now_of_thread(&rt)?;
    let reads = read(course, reader);
    let time = clock.now_of_thread(&rt)?.saturating_sub(start);
    Ok(Reads { time, ..reads })
}

fn read<J: LogName>(course: &Course, reader: &mut FollowerReader<J>) -> Reads {
    let first = course
        .begun
        .fetch_add(1, Ordering::SeqCst)
        .wrapping_mul(SPAN);
    let mut reads = NONE;
    for get in 0..u64::MAX {
        if course.is_over() {
            break;
        }
        reads = reads.and(one_read(course, reader, first.wrapping_add(get)));
    }
    reads
}

// The get of the key that belongs to a number.
fn one_read<J: LogName>(course: &Course, reader: &mut FollowerReader<J>, number: u64) -> Reads {
    let index = random_below(course.entries.load(Ordering::SeqCst), number);
    let key = course.bench.shape.key(index);
    let Ok((_at, value)) = reader.get(key.as_slice()) else {
        return LOST;
    };
    Reads {
        count: 1,
        found: if value.is_some() { 1 } else { 0 },
        ..NONE
    }
}
