//! Threads over one store: two writers, dispatchers with their workers, a follower, and its readers.

ghost use Rattle.std.specs.Prelude.{◌≡◌, []};

mod course;
mod dispatcher;
mod follower;
mod reads;
mod role;
mod tell;
mod writer;

use crate::bench::Bench;
use crate::error::{NO_CLOSE, NO_STORE, TimingError};
use course::Course;
use follower::follow_until_over;
use lsm_coord::Coord;
use lsm_edit::Served;
use lsm_nodes::{Hub, PARTS, Start, Tally, Witness};
use lsm_readers::{LogName, NewLog};
use lsm_vault::{MemoryVault, Vault};
use reads::readers_of;
use role::{ends_of, play_all, roles_of};
use std::marker::Brand;
use std::snapshot::Snapshot;
use std::sync::Wait;
use std::sync::ledger::Blank;
use std::thread::{Threads, join};
use tell::{Ends, tell_ends};

/// Lets all threads run over one new store in memory for some seconds, and prints what they did. All that they recorded has to be the
/// history of the store.
pub(crate) fn time_threads<R: Threads + Wait + Sync>(
    rt: &R,
    bench: Bench,
    seconds: u64,
    readers: u64,
    has_workers: bool,
) -> Result<(), TimingError> {
    let course = Course::begin(bench, seconds, readers, has_workers)?;
    let ends = over_anew(rt, &course)?;
    tell_ends(bench, ends)?;
    Ok(())
}

// What has to be dropped dearly is lent from here on, so that no refusal drops it.
fn over_anew<R: Threads + Wait + Sync>(rt: &R, course: &Course) -> Result<Ends, TimingError> {
    let alloc = course.bench.alloc();
    let Ok(coord) = Coord::open(alloc, MemoryVault::new(alloc), course.bench.limits) else {
        return Err(NO_STORE);
    };
    over_hub::<MemoryVault, Brand, Snapshot<Served>, R>(
        rt,
        course,
        coord,
        Blank::new(PARTS),
        NewLog::new(),
    )
}

// The same over a coordinator that was just opened.
fn over_hub<
    V: Vault + Drop + Send,
    J: Start + LogName + Send + Sync,
    N: Witness + Drop + Send,
    R: Threads + Wait + Sync,
>(rt: &R, course: &Course, coord: Coord<V>, blank: Blank, log: NewLog) -> Result<Ends, TimingError>
    requires ledger { (blank.name ≡ J.name) × (blank.parts ≡ J.parts) × (J.parts ≡ PARTS) }
    requires start { coord ≡ J.start }
    requires idle { coord.book.live ≡ [] }
    requires log { log ≡ J.log }
{
    let (hub, tally) = Hub::<V, J, N>::new(course.bench.alloc(), coord, blank);
    match run_all(rt, course, &hub, tally, log) {
        Ok((tally, ends)) => closed(hub, tally, ends),
        Err(why) => Err(why),
    }
}

// What the threads did, if all that they recorded is the history.
fn closed<V: Vault + Drop, J: Start, N: Witness + Drop>(
    hub: Hub<V, J, N>,
    tally: Tally<J>,
    ends: Ends,
) -> Result<Ends, TimingError>
    requires { J.parts ≡ PARTS }
{
    match hub.close(tally) {
        Ok(_history) => Ok(ends),
        Err(_) => Err(NO_CLOSE),
    }
}

// Lets all threads run, and returns the tally with the records of all, and what they did.
fn run_all<
    V: Vault + Send,
    J: Start + LogName + Send + Sync,
    N: Witness + Drop + Send,
    R: Threads + Wait + Sync,
>(
    rt: &R,
    course: &Course,
    hub: &Hub<V, J, N>,
    tally: Tally<J>,
    log: NewLog,
) -> Result<(Tally<J>, Ends), TimingError>
    requires parts { tally.parts ≡ PARTS }
    requires log { log ≡ J.log }
{
    let (publisher, readers) = readers_of::<J, R>(rt, course, log)?;
    let mut roles = roles_of(course, tally, readers)?;
    // The follower waits for the end that the others bring, so it comes second, where there is no thread for it too.
    let (_played, followed) = join(
        rt,
        || play_all(rt, course, hub, &mut roles),
        move || -> u64
            requires { publisher ≡ record { published = []; taken = [] } }
        { follow_until_over(rt, course, hub, publisher) },
    );
    ends_of(course, roles, followed)
}
