//! A claim that outlives its hub, and is given back to one over the same store, which was restarted, or installed there.

ghost use Rattle.std.specs.Prelude.{◌≡◌, ◌<◌, ◌+◌, ◌^◌, IfOk, []};

use super::{fill, new_store};
use lsm_claim::{Claim, Settled};
use lsm_coord::{Coord, Install, Seat};
use lsm_edit::Served;
use lsm_key::Items;
use lsm_msg::JobResult;
use lsm_nodes::{Hub, PARTS, Start, Tally, Witness};
use lsm_vault::{MemoryVault, Vault};
use std::alloc::Global;
use std::marker::Brand;
use std::process::Abort;
use std::snapshot::Snapshot;
use std::sync::Wait;
use std::sync::ledger::Blank;
use std::test::Fail;

/// How a hub gets a claim of another one.
#[derive(Clone, Copy)]
enum Handing {
    GivenBack,
    /// With a result that has no table.
    Installed,
}

// The coordinator, restarted, or the seat if it is not.
fn restarted<V: Vault>(alloc: Global, seat: Seat<V>) -> Result<Coord<V>, Seat<V>>
    ensures { IfOk result (λ c. c.book.live ≡ []) }
{
    let (seat, opened) = seat.restart(alloc);
    if opened.is_err() {
        return Err(seat);
    }
    match seat {
        Seat::Up(coord) => Ok(coord),
        down => Err(down),
    }
}

// How a hub settles a claim.
fn settled<V: Vault, J: Start, N: Witness + Drop, R: Wait>(
    rt: &R,
    alloc: Global,
    hub: &Hub<V, J, N>,
    tally: &mut Tally<J>,
    handing: Handing,
    claim: Claim,
) -> Settled
    requires part { 0 < tally.old.parts }
    requires fits { tally.old.picked + 1 < 2 ^ 64 }
{
    let made = JobResult {
        job: claim.id(),
        tables: Items::new(alloc),
    };
    match handing {
        Handing::GivenBack => hub.give_back(rt, claim),
        Handing::Installed => match hub.install(rt, claim, &made, tally) {
            Install::Done(_number, _files) => Settled::Live,
            Install::Stale(_, _) => Settled::Stale,
            Install::Kept(claim, _) => hub.give_back(rt, claim),
        },
    }
}

// How a claim ends at a new hub.
fn given_to_another<V: Vault + Drop, J: Start, N: Witness + Drop, R: Wait>(
    rt: &R,
    alloc: Global,
    coord: Coord<V>,
    blank: Blank,
    handing: Handing,
    claim: Claim,
) -> Settled
    requires ledger { (blank.name ≡ J.name) × (blank.parts ≡ J.parts) × (J.parts ≡ PARTS) }
    requires start { coord ≡ J.start }
    requires idle { coord.book.live ≡ [] }
{
    let (hub, mut tally) = Hub::<V, J, N>::new(alloc, coord, blank);
    settled(rt, alloc, &hub, &mut tally, handing, claim)
}

// How a claim ends at a new hub over a seat, restarted.
fn given_on<V: Vault + Drop, N: Witness + Drop, R: Wait>(
    rt: &R,
    alloc: Global,
    seat: Seat<V>,
    handing: Handing,
    claim: Claim,
) -> Option<Settled> {
    match restarted(alloc, seat) {
        Ok(coord) => Some(given_to_another::<V, Brand, N, R>(
            rt,
            alloc,
            coord,
            Blank::new(PARTS),
            handing,
            claim,
        )),
        Err(mut seat) => {
            let _settled = seat.give_back(claim);
            None
        }
    }
}

// The claim of a job of four files.
fn claimed<V: Vault, J: Start, N: Witness + Drop, R: Wait>(
    rt: &R,
    alloc: Global,
    hub: &Hub<V, J, N>,
    tally: &mut Tally<J>,
) -> Option<Claim>
    requires { 0 < tally.old.parts }
{
    fill(rt, alloc, hub, tally)?;
    match hub.pick(rt, tally) {
        Ok(Some((claim, _job))) => Some(claim),
        _ => None,
    }
}

// How a claim of a hub ends at another, over the coordinator that was restarted.
fn outlives<V: Vault + Drop, J: Start, N: Witness + Drop, R: Wait>(
    rt: &R,
    alloc: Global,
    coord: Coord<V>,
    blank: Blank,
    handing: Handing,
) -> Option<Settled>
    requires ledger { (blank.name ≡ J.name) × (blank.parts ≡ J.parts) × (J.parts ≡ PARTS) }
    requires start { coord ≡ J.start }
    requires idle { coord.book.live ≡ [] }
{
    let (hub, mut tally) = Hub::<V, J, N>::new(alloc, coord, blank);
    let Some(claim) = claimed(rt, alloc, &hub, &mut tally) else {
        return None;
    };
    match hub.close(tally) {
        Ok(shared) => given_on::<V, N, R>(rt, alloc, shared.into_seat(), handing, claim),
        Err((_why, hub, _tally)) => {
            let _settled = hub.give_back(rt, claim);
            None
        }
    }
}

// The same of a new store.
fn outlives_anew<R: Wait>(rt: &R, alloc: Global, handing: Handing) -> Option<Settled> {
    let coord = new_store(alloc)?;
    let blank = Blank::new(PARTS);
    outlives::<MemoryVault, Brand, Snapshot<Served>, R>(rt, alloc, coord, blank, handing)
}

#[test]
fn a_claim_that_outlives_its_hub_is_stale(rt: HostRuntime) -> Result<(), Fail> {
    for handing in [Handing::GivenBack, Handing::Installed] {
        let settled = outlives_anew(&rt, rt.alloc(), handing).ok_or("out of memory")?;
        assert!(rt; settled == Settled::Stale);
    }
    Ok(())
}
