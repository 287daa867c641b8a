//! Calls of which one finds no memory: the hub is closed with the tallies all the same.

ghost use Rattle.std.specs.Prelude.{◌≡◌, ◌<◌, ◌≤◌, []};

use super::{Meeting, fill, new_store, one_round, tables_of};
use lsm_coord::Coord;
use lsm_edit::Served;
use lsm_key::VersionNumber;
use lsm_nodes::{Hub, PARTS, Start, Tally, Witness};
use lsm_vault::{MemoryVault, Vault};
use std::alloc::Global;
use std::marker::Brand;
use std::process::Abort;
use std::snapshot::Snapshot;
use std::sync::Wait;
use std::sync::atomic::AtomicBool;
use std::sync::ledger::Blank;
use std::test::Fail;

// Reads of each kind, whatever comes of them.
fn read<V: Vault, J: Start, N: Witness + Drop, R: Wait>(
    rt: &R,
    hub: &Hub<V, J, N>,
    tally: &mut Tally<J>,
)
    requires { 0 < tally.old.parts }
    ensures parts { tally.new.parts ≡ tally.old.parts }
    ensures picked { tally.new.picked ≡ tally.old.picked }
{
    let _ = hub.get(rt, b"a", None, tally);
    let _ = hub.scan(rt, b"a", b"z", None, 10, tally);
    let _ = hub.show(rt, tally);
}

// A snapshot that is released, a freeze, and a trim, whatever comes of them.
fn change<V: Vault, J: Start, N: Witness + Drop, R: Wait>(
    rt: &R,
    hub: &Hub<V, J, N>,
    tally: &mut Tally<J>,
)
    requires { 0 < tally.old.parts }
    ensures parts { tally.new.parts ≡ tally.old.parts }
    ensures picked { tally.new.picked ≡ tally.old.picked }
{
    if let Ok((id, _at)) = hub.snapshot(rt, tally) {
        let _ = hub.release(rt, id, tally);
    }
    let _ = hub.freeze(rt, tally);
    let _ = hub.trim(rt, VersionNumber::new(2), tally);
}

// A merge by another caller, if the tables are found.
fn compact<V: Vault, J: Start, N: Witness + Drop, R: Wait>(
    rt: &R,
    alloc: Global,
    hub: &Hub<V, J, N>,
    tally: Tally<J>,
) -> Tally<J>
    requires { (tally.parts ≡ 1) × (tally.picked ≡ 0) }
    ensures { (result.parts ≡ 1) × (result.picked ≤ 1) }
{
    let Some(tables) = tables_of(rt, alloc, hub) else {
        return tally;
    };
    let is_answered = AtomicBool::new(true);
    let mut link = Meeting {
        alloc,
        tables: tables.as_slice(),
        answered: &is_answered,
    };
    one_round(rt, hub, &mut link, tally)
}

// Merges a tally into another, the second time if there is no memory the first time.
fn merge_twice<J: Start>(tally: &mut Tally<J>, other: Tally<J>) -> bool
    requires { (other.parts ≡ 1) × (other.picked ≤ 1) }
{
    if tally.parts() > 3 || tally.picked() > 1 {
        return false;
    }
    match tally.merge(other) {
        Ok(()) => true,
        Err(other) => tally.merge(other).is_ok(),
    }
}

// Whether the hub is closed after all calls.
fn closes<V: Vault + Drop, J: Start, N: Witness + Drop, R: Wait>(
    rt: &R,
    alloc: Global,
    coord: Coord<V>,
    blank: Blank,
) -> bool
    requires ledger { (blank.name ≡ J.name) × (blank.parts ≡ J.parts) × (J.parts ≡ PARTS) }
    requires start { coord ≡ J.start }
    requires idle { coord.book.live ≡ [] }
{
    let (hub, mut tally) = Hub::<V, J, N>::new(alloc, coord, blank);
    let other = tally.split();
    let _ = fill(rt, alloc, &hub, &mut tally);
    let other = compact(rt, alloc, &hub, other);
    read(rt, &hub, &mut tally);
    change(rt, &hub, &mut tally);
    merge_twice(&mut tally, other) && hub.close(tally).is_ok()
}

// The same of a new store, if it can be opened.
fn closes_anew<R: Wait>(rt: &R, alloc: Global) -> Option<bool> {
    let coord = new_store(alloc)?;
    Some(closes::<MemoryVault, Brand, Snapshot<Served>, R>(rt, alloc, coord, Blank::new(PARTS)))
}

#[test]
fn a_hub_closes_if_a_call_found_no_memory(rt: HostRuntime) -> Result<(), Fail> {
    assert!(rt; closes_anew(&rt, rt.alloc()).ok_or("out of memory")?);
    Ok(())
}
