//! How often the calls of a coordinator ask their vault: no more often than they need.

use super::results::{MERGED, flush, result_of};
use bytes::Bytes;
use lsm_coord::{Coord, CoordError, Install, Seat};
use lsm_key::{DEFAULT_BLOCK, Limits, Op, VersionNumber};
use lsm_msg::JobResult;
use lsm_vault::{FusedVault, MemoryVault, Vault};
use lsm_versions::OpenError;
use std::alloc::{AllocError, Global};
use std::process::Abort;
use std::test::Fail;

#[derive(Clone, Copy, Debug)]
enum Call {
    /// A put of a is written and flushed.
    Flush,
    /// The job of both files is picked, and its result installed, which is one table.
    Install,
    /// The floor rises to version 4, which lists neither input.
    Trim,
    /// The log is synced.
    Sync,
}

/// More calls than these ask of their vault.
const MOST: u64 = 64;

/// An opening of an empty vault reads the edits, the log and the numbers, appends the edit of the epoch, and cuts the log.
const OPENING: u64 = 5;

/// What is called, and how often it has to ask the vault: for each table that it puts, reads or removes, for each edit and each record
/// that it appends, for the edits, the log and the numbers, and for each cut and each sync of the log.
const CALLS: [(Call, u64); 5] = [
    (Call::Flush, 4),
    (Call::Flush, 4),
    (Call::Install, 2),
    (Call::Trim, 3),
    (Call::Sync, 1),
];

/// And a restart after them.
const RESTART: u64 = 6;

fn put_of_a() -> Op {
    Op::Put(Bytes::from_static(b"a"), Bytes::from_static(b"1"))
}

fn install<V: Vault>(coord: &mut Coord<V>, made: &JobResult) -> Result<(), Fail> {
    let Some((claim, _job)) = coord.pick()? else {
        return Err("nothing is due".into());
    };
    match coord.install(claim, made) {
        Install::Done(_number, _files) => Ok(()),
        Install::Kept(claim, why) => {
            coord.give_back(claim);
            Err(why.into())
        }
        Install::Stale(_job, _epoch) => Err("the claim is stale".into()),
    }
}

fn trim<V: Vault>(coord: &mut Coord<V>) -> Result<(), CoordError> {
    let _trimmed = coord.trim(VersionNumber::new(4))?;
    Ok(())
}

fn make<V: Vault>(
    alloc: Global,
    coord: &mut Coord<V>,
    made: &JobResult,
    call: Call,
) -> Result<(), Fail> {
    match call {
        Call::Flush => flush(alloc, coord, put_of_a()),
        Call::Install => install(coord, made),
        Call::Trim => Ok(trim(coord)?),
        Call::Sync => Ok(coord.sync_log()?),
    }
}

fn make_all<V: Vault>(
    alloc: Global,
    coord: &mut Coord<V>,
    made: &JobResult,
    calls: &[(Call, u64)],
) -> Result<(), Fail> {
    for (call, _needed) in calls {
        make(alloc, coord, made, *call)?;
    }
    Ok(())
}

/// The seat of a coordinator, which is restarted if it is to be.
fn seated<V: Vault>(
    alloc: Global,
    coord: Coord<V>,
    restarts: bool,
) -> (Seat<V>, Result<(), OpenError>) {
    let seat = Seat::Up(coord);
    if restarts {
        return seat.restart(alloc);
    }
    (seat, Ok(()))
}

/// How often a vault is asked by an opening, these calls after it, and a restart if there is to be one.
fn asked(
    alloc: Global,
    made: &JobResult,
    calls: &[(Call, u64)],
    restarts: bool,
) -> Result<u64, Fail> {
    let limits = Limits::new(2, 10_485_760, DEFAULT_BLOCK).ok_or("no limits")?;
    let vault = FusedVault::new(MemoryVault::new(alloc), MOST);
    let Ok(mut coord) = Coord::open(alloc, vault, limits) else {
        return Err(AllocError.into());
    };
    let are_made = make_all(alloc, &mut coord, made, calls);
    let (seat, restarted) = seated(alloc, coord, restarts);
    let left = seat.close().left();
    are_made?;
    restarted?;
    Ok(MOST.saturating_sub(left.ok_or("the device failed")?))
}

fn see(rt: &impl Abort, alloc: Global, made: &JobResult) -> Result<(), Fail> {
    let mut needed = OPENING;
    let count = asked(alloc, made, &[], false)?;
    assert!(rt; count == needed, "an opening asks too often");
    for (place, (call, needs)) in CALLS.iter().enumerate() {
        needed = needed.saturating_add(*needs);
        let count = asked(alloc, made, &CALLS[..place + 1], false)?;
        assert!(rt;
            count == needed,
            "{call:?}: {count} in all, and not {needed}"
        );
    }
    let count = asked(alloc, made, &CALLS, true)?;
    assert!(rt;
        count == needed.saturating_add(RESTART),
        "a restart: {count} in all"
    );
    Ok(())
}

#[test]
fn a_call_asks_the_vault_no_more_than_it_needs(rt: HostRuntime) -> Result<(), Fail> {
    let made = result_of(rt.alloc(), 1, &[MERGED])?;
    let seen = see(&rt, rt.alloc(), &made);
    drop(made);
    seen
}
