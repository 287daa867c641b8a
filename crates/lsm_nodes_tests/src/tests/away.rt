//! Two dispatchers whose jobs are away at the same time, and a hub that closes with both tallies alone.

ghost use Rattle.std.specs.Prelude.{◌≡◌, ◌≤◌, IfSome, []};

use super::{Meeting, fill, new_store, one_round, tables_of};
use bytes::Bytes;
use lsm_coord::Coord;
use lsm_edit::Served;
use lsm_nodes::{CloseError, Hub, PARTS, Start, Tally, Witness};
use lsm_vault::{MemoryVault, Vault};
use std::alloc::Global;
use std::marker::Brand;
use std::process::Abort;
use std::snapshot::Snapshot;
use std::sync::Wait;
use std::sync::atomic::AtomicBool;
use std::sync::ledger::Blank;
use std::test::Fail;
use std::thread::{Threads, join};

/// What two dispatchers left.
#[derive(Clone, Copy, Debug, PartialEq, Eq)]
struct Counts {
    picked: u64,
    installed: u64,
    returned: u64,
    stale: u64,
    calls: usize,
}

// Two dispatchers in threads of their own.
fn both<
    V: Vault + Send,
    J: Start + Send + Sync,
    N: Witness + Drop + Send,
    R: Threads + Wait + Sync,
>(
    rt: &R,
    alloc: Global,
    hub: &Hub<V, J, N>,
    tables: &[(u64, Bytes)],
    first: Tally<J>,
    second: Tally<J>,
) -> (Tally<J>, Tally<J>)
    requires first { (first.parts ≡ 1) × (first.picked ≡ 0) }
    requires second { (second.parts ≡ 1) × (second.picked ≡ 0) }
    ensures first { (result.0.parts ≡ 1) × (result.0.picked ≤ 1) }
    ensures second { (result.1.parts ≡ 1) × (result.1.picked ≤ 1) }
{
    let is_answered = AtomicBool::new(false);
    let answered = &is_answered;
    join(
        rt,
        move || -> Tally<J>
            requires { (first.parts ≡ 1) × (first.picked ≡ 0) }
            ensures { (result.parts ≡ 1) × (result.picked ≤ 1) }
        {
            one_round(
                rt,
                hub,
                &mut Meeting {
                    alloc,
                    tables,
                    answered,
                },
                first,
            )
        },
        move || -> Tally<J>
            requires { (second.parts ≡ 1) × (second.picked ≡ 0) }
            ensures { (result.parts ≡ 1) × (result.picked ≤ 1) }
        {
            one_round(
                rt,
                hub,
                &mut Meeting {
                    alloc,
                    tables,
                    answered,
                },
                second,
            )
        },
    )
}

// The tally of a hub that was not closed, with the one that was missing.
fn joined<J: Start>(why: CloseError, mut tally: Tally<J>, missing: Tally<J>) -> Option<Tally<J>>
    requires missing { (missing.parts ≡ 1) × (missing.picked ≤ 1) }
{
    if why != CloseError::MissingTally || tally.parts() > 3 || tally.picked() > 1 {
        return None;
    }
    match tally.merge(missing) {
        Ok(()) => Some(tally),
        Err(_missing) => None,
    }
}

// Closes a hub, and counts.
fn settled_in<V: Vault + Drop, J: Start, N: Witness + Drop>(
    hub: Hub<V, J, N>,
    tally: Tally<J>,
) -> Option<Counts>
    requires ledger { J.parts ≡ PARTS }
{
    let (picked, installed) = (tally.picked(), tally.installed());
    let (returned, stale) = (tally.returned(), tally.stale());
    let shared = hub.close(tally).ok()?;
    Some(Counts {
        picked,
        installed,
        returned,
        stale,
        calls: shared.history().len(),
    })
}

// Closes a hub, which takes the tally that is missing, too.
fn closed<V: Vault + Drop, J: Start, N: Witness + Drop>(
    hub: Hub<V, J, N>,
    tally: Tally<J>,
    missing: Tally<J>,
) -> Option<Counts>
    requires ledger { J.parts ≡ PARTS }
    requires missing { (missing.parts ≡ 1) × (missing.picked ≤ 1) }
{
    match hub.close(tally) {
        Ok(_shared) => None,
        Err((why, hub, tally)) => match joined(why, tally, missing) {
            Some(tally) => settled_in(hub, tally),
            None => None,
        },
    }
}

// The tallies after two dispatchers over a store of four files, the second one's apart.
fn dispatched<
    V: Vault + Send,
    J: Start + Send + Sync,
    N: Witness + Drop + Send,
    R: Threads + Wait + Sync,
>(rt: &R, alloc: Global, hub: &Hub<V, J, N>, mut tally: Tally<J>) -> Option<(Tally<J>, Tally<J>)>
    requires { tally.parts ≡ PARTS }
    ensures { IfSome result (λ t. (t.1.parts ≡ 1) × (t.1.picked ≤ 1)) }
{
    fill(rt, alloc, hub, &mut tally)?;
    if tally.picked() > 0 {
        return None;
    }
    let tables = tables_of(rt, alloc, hub)?;
    let first = tally.split();
    let second = tally.split();
    let (first, second) = both(rt, alloc, hub, tables.as_slice(), first, second);
    drop(tables);
    match tally.merge(first) {
        Ok(()) => Some((tally, second)),
        Err(_first) => None,
    }
}

// Two dispatchers over a store of four files.
fn counted<
    V: Vault + Drop + Send,
    J: Start + Send + Sync,
    N: Witness + Drop + Send,
    R: Threads + Wait + Sync,
>(rt: &R, alloc: Global, coord: Coord<V>, blank: Blank) -> Option<Counts>
    requires ledger { (blank.name ≡ J.name) × (blank.parts ≡ J.parts) × (J.parts ≡ PARTS) }
    requires start { coord ≡ J.start }
    requires idle { coord.book.live ≡ [] }
{
    let (hub, tally) = Hub::<V, J, N>::new(alloc, coord, blank);
    match dispatched(rt, alloc, &hub, tally) {
        Some((tally, missing)) => closed(hub, tally, missing),
        None => None,
    }
}

// The same of a new store.
fn counted_anew<R: Threads + Wait + Sync>(rt: &R, alloc: Global) -> Option<Counts> {
    let coord = new_store(alloc)?;
    counted::<MemoryVault, Brand, Snapshot<Served>, R>(rt, alloc, coord, Blank::new(PARTS))
}

#[test]
fn two_jobs_are_away_at_once(rt: HostRuntime) -> Result<(), Fail> {
    let counts = counted_anew(&rt, rt.alloc()).ok_or("refused, or out of memory")?;
    if counts.installed < 2 {
        return Err("a job came back, or was not picked: is it out of memory?")?;
    }
    assert!(rt;
        counts
            == Counts {
                picked: 2,
                installed: 2,
                returned: 0,
                stale: 0,
                calls: 12
            }
    );
    Ok(())
}
