//! Why a figure is not taken: a line of words for whoever runs the program.

use lsm_coord::CoordError;
use lsm_key::KeyError;
use lsm_store::StoreError;
use std::alloc::{AllocError, AllocFailed};
use std::{fmt, io};

/// Why a figure is not taken, in words.
#[derive(Clone, Copy)]
pub(crate) enum TimingError {
    /// What failed, in words: run the figure again, or a smaller one if memory ran out.
    Plain(&'static str),
    /// The coordinator refused a call, which ends the figure. What helps is said at the reason.
    Coord(CoordError),
}

pub(crate) const OUT_OF_MEMORY: TimingError = TimingError::Plain("out of memory");

pub(crate) const STREAM: TimingError = TimingError::Plain(
    "the clock, a folder, standard output or standard error failed",
);

pub(crate) const NO_STORE: TimingError = TimingError::Plain("the vault was not opened");

pub(crate) const NO_MERGE: TimingError = TimingError::Plain("a merge was refused");

pub(crate) const NO_FOLDER: TimingError = TimingError::Plain(
    "the folder of the store was not opened",
);

pub(crate) const USED_FOLDER: TimingError = TimingError::Plain(
    "the folder of the store is there already",
);

pub(crate) const GONE: TimingError = TimingError::Plain("a table was not served");

pub(crate) const NO_JOB: TimingError = TimingError::Plain("no job was made of the tables");

pub(crate) const NO_PICK: TimingError = TimingError::Plain("no merge was picked");

pub(crate) const EXHAUSTED: TimingError = TimingError::Plain("numbers are exhausted");

pub(crate) const NO_READERS: TimingError = TimingError::Plain("a reader could not be made");

pub(crate) const NO_NODE: TimingError = TimingError::Plain("there is no node of this index");

pub(crate) const NO_PART: TimingError = TimingError::Plain("a tally has no part of the ledger");

pub(crate) const NO_CLOSE: TimingError = TimingError::Plain(
    "the history of the store is not what its threads recorded",
);

impl fmt::Display for TimingError {
    fn fmt<W: fmt::Write>(&self, f: &mut fmt::Formatter<W>) -> fmt::Result {
        match *self {
            TimingError::Plain(reason) => f.write_str(reason),
            TimingError::Coord(why) => write!(f, "the coordinator refused a call: {why}"),
        }
    }
}

impl From<AllocError> for TimingError {
    fn from(_e: AllocError) -> TimingError {
        OUT_OF_MEMORY
    }
}

impl<T: Drop> From<AllocFailed<T>> for TimingError {
    fn from(_e: AllocFailed<T>) -> TimingError {
        OUT_OF_MEMORY
    }
}

impl From<io::Error> for TimingError {
    fn from(error: io::Error) -> TimingError {
        if error.kind() == io::ErrorKind::OutOfMemory {
            OUT_OF_MEMORY
        } else {
            STREAM
        }
    }
}

impl From<KeyError> for TimingError {
    fn from(why: KeyError) -> TimingError {
        match why {
            KeyError::OutOfMemory => OUT_OF_MEMORY,
            _ => TimingError::Plain("a batch refused an operation"),
        }
    }
}

impl From<StoreError> for TimingError {
    fn from(why: StoreError) -> TimingError {
        match why {
            StoreError::Key(why) => TimingError::from(why),
            StoreError::Coord(why) => TimingError::from(why),
        }
    }
}

impl From<CoordError> for TimingError {
    fn from(why: CoordError) -> TimingError {
        match why {
            CoordError::OutOfMemory => OUT_OF_MEMORY,
            why => TimingError::Coord(why),
        }
    }
}
