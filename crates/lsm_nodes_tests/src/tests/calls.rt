//! What a thread wrote and flushed is there for the calls after it.

ghost use Rattle.std.specs.Prelude.{◌≡◌, ◌<◌, []};

use super::{new_store, put};
use lsm_coord::Coord;
use lsm_edit::Served;
use lsm_key::Seq;
use lsm_nodes::{Hub, PARTS, Start, Tally, Witness};
use lsm_vault::{MemoryVault, Vault};
use std::alloc::Global;
use std::marker::Brand;
use std::process::Abort;
use std::snapshot::Snapshot;
use std::sync::Wait;
use std::sync::ledger::Blank;
use std::test::Fail;
use std::thread;
use std::thread::{Threads, join};

// A write of one key, and its flush.
fn put_a<V: Vault, J: Start, N: Witness + Drop, R: Wait>(
    rt: &R,
    alloc: Global,
    hub: &Hub<V, J, N>,
    mut tally: Tally<J>,
) -> bool
    requires { 0 < tally.parts }
{
    put(rt, alloc, hub, &mut tally, b"a", b"1").is_some()
}

/// What there is after a thread has put a key.
#[derive(Clone, Copy)]
struct Found {
    has_value: bool,
    version: u64,
    flushed: Seq,
    files: usize,
}

// What the calls find after it.
fn find<V: Vault, J: Start, N: Witness + Drop, R: Wait>(
    rt: &R,
    hub: &Hub<V, J, N>,
    mut tally: Tally<J>,
) -> Option<Found>
    requires { 0 < tally.parts }
{
    let value = hub.get(rt, b"a", None, &mut tally).ok()?;
    let has_value = value.is_some_and(|v| v.as_slice() == b"1".as_slice());
    let shown = hub.show(rt, &mut tally).ok()?;
    Some(Found {
        has_value,
        version: shown.number.number(),
        flushed: shown.flushed,
        files: shown.files.len(),
    })
}

// What is found of a key after a thread has put it.
fn seen<
    V: Vault + Drop + Send,
    J: Start + Send + Sync,
    N: Witness + Drop + Send,
    R: Threads + Wait + Sync,
>(rt: &R, alloc: Global, coord: Coord<V>, blank: Blank) -> Option<Found>
    requires ledger { (blank.name ≡ J.name) × (blank.parts ≡ J.parts) × (J.parts ≡ PARTS) }
    requires start { coord ≡ J.start }
    requires idle { coord.book.live ≡ [] }
{
    let (hub, mut tally) = Hub::<V, J, N>::new(alloc, coord, blank);
    let other = tally.split();
    let shared = &hub;
    let (is_put, ()) = join(
        rt,
        move || -> bool
            requires { 0 < other.parts }
        { put_a(rt, alloc, shared, other) },
        move || thread::yield_now(),
    );
    if is_put { find(rt, &hub, tally) } else { None }
}

// The same of a new store.
fn seen_anew<R: Threads + Wait + Sync>(rt: &R, alloc: Global) -> Option<Found> {
    let coord = new_store(alloc)?;
    seen::<MemoryVault, Brand, Snapshot<Served>, R>(rt, alloc, coord, Blank::new(PARTS))
}

#[test]
fn what_a_thread_wrote_is_read(rt: HostRuntime) -> Result<(), Fail> {
    let seen = seen_anew(&rt, rt.alloc()).ok_or("out of memory")?;
    assert!(rt; seen.has_value);
    assert!(rt; seen.version == 2 && seen.flushed == Seq::new(1));
    assert!(rt; seen.files == 1);
    Ok(())
}
