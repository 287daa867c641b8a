//! Two dispatchers, each with a worker.

ghost use Rattle.std.specs.Prelude.{◌≡◌, ◌+◌, ◌≤◌, IfOk};
ghost use Rattle.lsm_threads.specs.Rounds.{IsOneInstall};

use super::{ThreadsError, reason_of, reason_of_ending};
use crate::dispatcher::dispatch_with_worker;
use crate::ending::Ending;
use lsm_msg::NodeIndex;
use lsm_nodes::{Hub, PARTS, RoundEnd, Start, Tally, Witness};
use lsm_vault::Vault;
use std::alloc::Global;
use std::sync::Wait;
use std::sync::atomic::AtomicBool;
use std::thread::{Threads, join};

// Two dispatchers of one round, in threads of their own, and the tally with theirs merged into it.
pub(super) fn merge<
    V: Vault + Send,
    J: Start + Send + Sync,
    N: Witness + Drop + Send,
    R: Threads + Wait + Sync,
>(rt: &R, alloc: Global, hub: &Hub<V, J, N>, tally: Tally<J>) -> Result<Tally<J>, ThreadsError>
    requires { tally.parts ≡ PARTS }
    ensures parts { IfOk result (λ t. t.parts ≡ PARTS) }
    ensures settled { IfOk result (λ t. (t.picked ≡ 2) × (t.installed ≡ 2)) }
{
    let mut tally = tally;
    let Some((one, two)) = workers() else {
        return Err(ThreadsError::ReadFault);
    };
    if tally.picked() > 0 {
        return Err(ThreadsError::ReadFault);
    }
    let first = tally.split();
    let second = tally.split();
    let (first, second) = both(rt, alloc, hub, (one, first), (two, second));
    let tally = merged(tally, first?)?;
    merged(tally, second?)
}

fn workers() -> Option<(NodeIndex, NodeIndex)> {
    Some((NodeIndex::new(1)?, NodeIndex::new(2)?))
}

// The tally with that of a dispatcher merged into it.
fn merged<J: Start>(tally: Tally<J>, other: Tally<J>) -> Result<Tally<J>, ThreadsError>
    requires tally { (tally.parts ≤ PARTS) × (tally.picked ≤ 1) }
    requires other { IsOneInstall other }
    ensures parts { IfOk result (λ t. t.parts ≡ tally.parts + 1) }
    ensures settled { IfOk result (λ t. (t.picked ≡ tally.picked + 1) × (t.installed ≡ tally.installed + 1)) }
{
    let mut tally = tally;
    match tally.merge(other) {
        Ok(()) => Ok(tally),
        Err(_) => Err(ThreadsError::OutOfMemory),
    }
}

fn both<
    V: Vault + Send,
    J: Start + Send + Sync,
    N: Witness + Drop + Send,
    R: Threads + Wait + Sync,
>(
    rt: &R,
    alloc: Global,
    hub: &Hub<V, J, N>,
    first: (NodeIndex, Tally<J>),
    second: (NodeIndex, Tally<J>),
) -> (
    Result<Tally<J>, ThreadsError>,
    Result<Tally<J>, ThreadsError>,
)
    requires first { (first.1.parts ≡ 1) × (first.1.picked ≡ 0) }
    requires second { (second.1.parts ≡ 1) × (second.1.picked ≡ 0) }
    ensures first { IfOk result.0 IsOneInstall }
    ensures second { IfOk result.1 IsOneInstall }
{
    let (one, first) = first;
    let (two, second) = second;
    join(
        rt,
        move || -> Result<Tally<J>, ThreadsError>
            requires { (first.parts ≡ 1) × (first.picked ≡ 0) }
            ensures { IfOk result IsOneInstall }
        { one_round(rt, alloc, hub, one, first) },
        move || -> Result<Tally<J>, ThreadsError>
            requires { (second.parts ≡ 1) × (second.picked ≡ 0) }
            ensures { IfOk result IsOneInstall }
        { one_round(rt, alloc, hub, two, second) },
    )
}

// A dispatcher of one round, which has a compaction to make. Refuses if it was not installed.
fn one_round<
    V: Vault + Send,
    J: Start + Send + Sync,
    N: Witness + Drop + Send,
    R: Threads + Wait + Sync,
>(
    rt: &R,
    alloc: Global,
    hub: &Hub<V, J, N>,
    index: NodeIndex,
    tally: Tally<J>,
) -> Result<Tally<J>, ThreadsError>
    requires { (tally.parts ≡ 1) × (tally.picked ≡ 0) }
    ensures { IfOk result IsOneInstall }
{
    let is_over = AtomicBool::new(false);
    let Ok((tally, last, lost)) = dispatch_with_worker(rt, alloc, hub, index, 1, &is_over, tally)
    else {
        return Err(ThreadsError::OutOfMemory);
    };
    if tally.picked() == 1 && tally.installed() == 1 {
        return Ok(tally);
    }
    Err(reason_of_round(last, lost))
}

// Why a round installed nothing. Of keys that differ there is a compaction that is due for each dispatcher, so if none was due, or a result
// came back, there was no memory for it.
fn reason_of_round(last: Option<RoundEnd>, lost: Option<Ending>) -> ThreadsError {
    match (last, lost) {
        (Some(RoundEnd::Refused(why)), _) => reason_of(why),
        (_, Some(ending)) => reason_of_ending(ending),
        (_, None) => ThreadsError::OutOfMemory,
    }
}
