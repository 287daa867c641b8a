//! A store that threads share, from its writes to the reads of a follower.

ghost use Rattle.std.specs.Prelude.{◌≡◌, ◌≤◌, All, IfOk, []};
ghost use Rattle.lsm_threads.specs.Rounds.{AreSettled};

mod fill;
mod follow;
mod merge;
mod script;

use crate::ending::Ending;
use crate::error::ThreadsError;
use bytes::Bytes;
use fill::{fill, reason_of};
use follow::follow;
use lsm_coord::{Coord, ShownVersion};
use lsm_edit::Served;
use lsm_key::{DEFAULT_BASE, DEFAULT_BLOCK, Limits, VersionNumber};
use lsm_nodes::{Hub, PARTS, Start, Tally, Witness};
use lsm_readers::{LogName, NewLog};
use lsm_vault::{MemoryVault, Vault};
use merge::merge;
pub use script::{KeyPuts, ThreadsScript};
use std::alloc::Global;
use std::marker::Brand;
use std::snapshot::Snapshot;
use std::sync::Wait;
use std::sync::ledger::Blank;
use std::thread::Threads;

/// What the threads found.
#[derive(Debug, Drop)]
pub struct ThreadsReport {
    /// How many claims the dispatchers settled: as installed, as returned, or as stale.
    pub picked: u64,
    pub installed: u64,
    pub returned: u64,
    pub stale: u64,
    /// The coordinator's version.
    pub shown: ShownVersion,
    /// The reads of a follower that came to it.
    pub reads: Vec<FollowerRead>,
}

/// A read of a follower.
#[derive(Debug, Drop)]
pub struct FollowerRead {
    pub key: &'static [u8],
    pub at: VersionNumber,
    pub value: Option<Bytes>,
}

/// `run_threads_of` of the script that the program runs: a is put as 1 and 2, m as 1 and 2, and both are read.
pub fn run_threads<R: Threads + Wait + Sync>(
    rt: &R,
    alloc: Global,
) -> Result<ThreadsReport, ThreadsError>
    ensures settled { IfOk result (λ r. AreSettled r.picked r.installed r.returned r.stale) }
    ensures fresh { IfOk result (λ r. All (λ read. r.shown.number ≤ read.at) r.reads.items) }
{
    run_threads_of(rt, alloc, &script::SHOWN)
}

/// The flushes of a script, two dispatchers of one round with a worker each, and a follower with a reader, all in threads of their own
/// over one new store in memory, whose level 0 is due at two files. Each dispatcher installs a compaction, and the follower's reads are at
/// the coordinator's version or a later one.
/// Refuses: `OutOfMemory` if a loop or a call found no memory, no thread could be made, or the script's keys are one, so that a dispatcher
/// has nothing to compact; `ReadFault` if what came is not what was sent.
pub fn run_threads_of<R: Threads + Wait + Sync>(
    rt: &R,
    alloc: Global,
    script: &ThreadsScript,
) -> Result<ThreadsReport, ThreadsError>
    ensures settled { IfOk result (λ r. AreSettled r.picked r.installed r.returned r.stale) }
    ensures fresh { IfOk result (λ r. All (λ read. r.shown.number ≤ read.at) r.reads.items) }
{
    let Some(limits) = Limits::new(2, DEFAULT_BASE, DEFAULT_BLOCK) else {
        return Err(ThreadsError::ReadFault);
    };
    let Ok(coord) = Coord::open(alloc, MemoryVault::new(alloc), limits) else {
        return Err(ThreadsError::OutOfMemory);
    };
    over_hub::<MemoryVault, Brand, Snapshot<Served>, R>(
        rt,
        alloc,
        script,
        coord,
        Blank::new(PARTS),
        NewLog::new(),
    )
}

// The same over a coordinator that was just opened.
fn over_hub<
    V: Vault + Drop + Send,
    J: Start + LogName + Send + Sync,
    N: Witness + Drop + Send,
    R: Threads + Wait + Sync,
>(
    rt: &R,
    alloc: Global,
    script: &ThreadsScript,
    coord: Coord<V>,
    blank: Blank,
    log: NewLog,
) -> Result<ThreadsReport, ThreadsError>
    requires ledger { (blank.name ≡ J.name) × (blank.parts ≡ J.parts) × (J.parts ≡ PARTS) }
    requires start { coord ≡ J.start }
    requires idle { coord.book.live ≡ [] }
    requires log { log ≡ J.log }
    ensures settled { IfOk result (λ r. AreSettled r.picked r.installed r.returned r.stale) }
    ensures fresh { IfOk result (λ r. All (λ read. r.shown.number ≤ read.at) r.reads.items) }
{
    let (hub, tally) = Hub::<V, J, N>::new(alloc, coord, blank);
    let (tally, report) = in_turn(rt, alloc, &hub, script, tally, log)?;
    match hub.close(tally) {
        Ok(history) => {
            drop(history);
            Ok(report)
        }
        Err(back) => {
            drop(back);
            Err(ThreadsError::ReadFault)
        }
    }
}

// The writes, the dispatchers and the follower, one after another.
fn in_turn<
    V: Vault + Send,
    J: Start + LogName + Send + Sync,
    N: Witness + Drop + Send,
    R: Threads + Wait + Sync,
>(
    rt: &R,
    alloc: Global,
    hub: &Hub<V, J, N>,
    script: &ThreadsScript,
    tally: Tally<J>,
    log: NewLog,
) -> Result<(Tally<J>, ThreadsReport), ThreadsError>
    requires parts { tally.parts ≡ PARTS }
    requires log { log ≡ J.log }
    ensures settled { IfOk result (λ r. AreSettled r.1.picked r.1.installed r.1.returned r.1.stale) }
    ensures fresh { IfOk result (λ r. All (λ read. r.1.shown.number ≤ read.at) r.1.reads.items) }
{
    let mut tally = tally;
    fill(rt, alloc, hub, script, &mut tally)?;
    let mut tally = merge(rt, alloc, hub, tally)?;
    let shown = match hub.show(rt, &mut tally) {
        Ok(shown) => shown,
        Err(why) => return Err(reason_of(why)),
    };
    let reads = follow(rt, alloc, hub, script.reads, shown.number, log)?;
    let report = ThreadsReport {
        picked: tally.picked(),
        installed: tally.installed(),
        returned: tally.returned(),
        stale: tally.stale(),
        shown,
        reads,
    };
    Ok((tally, report))
}

// Only memory can be short over a new store in memory.
fn reason_of_ending(ending: Ending) -> ThreadsError {
    match ending {
        Ending::OutOfMemory => ThreadsError::OutOfMemory,
        _ => ThreadsError::ReadFault,
    }
}
