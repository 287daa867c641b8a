//! Schedules over a vault of which one call fails, each call in turn: an event that is refused for it is done once more, and all
//! replies are then those over a vault that does not fail.

use super::schedules::{
    EventReply, FROZEN, MERGED, PICKED, REFUSED, RESTARTED_TWICE, TWO, TWO_JOBS,
};
use super::{Wrong, new_world, play};
use lsm_vault::{Vault, VaultError};
use std::alloc::Global;
use std::process::Abort;
use std::test::Fail;

/// More calls than any of these schedules asks of its vault.
const MOST: u64 = 64;

/// Whether a call failed in these schedules, if it is the one after so many; the first wrong reply; and whether the vault has no table
/// then. A call that fails is made once more.
fn tried(
    alloc: Global,
    calls: u64,
    schedules: &[&'static [EventReply]],
) -> Result<(bool, Wrong, bool), Fail> {
    let mut world = new_world(alloc, calls)?;
    let wrong = play(alloc, &mut world, true, schedules);
    let mut vault = world.close();
    let failed = vault.failures() > 0;
    let is_bare = has_no_table(&mut vault);
    drop(vault);
    Ok((failed, wrong?, is_bare?))
}

/// Whether the vault has no table. A call that fails is made once more.
fn has_no_table<V: Vault>(vault: &mut V) -> Result<bool, VaultError> {
    let numbers = match vault.numbers() {
        Err(VaultError::Device) => vault.numbers()?,
        answer => answer?,
    };
    Ok(numbers.is_empty())
}

/// Lets each call fail in turn, until none does. At the end there is no table if there is to be none.
fn see_each(
    rt: &impl Abort,
    alloc: Global,
    leaves_none: bool,
    schedules: &[&'static [EventReply]],
) -> Result<(), Fail> {
    for calls in 0..MOST {
        let (failed, wrong, is_bare) = tried(alloc, calls, schedules)?;
        assert!(rt; wrong.is_none(), "{calls}: {wrong:?}");
        assert!(rt; is_bare || !leaves_none, "{calls}: a table");
        if !failed {
            assert!(rt; calls > 10, "only {calls} calls");
            return Ok(());
        }
    }
    Err("a call fails each time".into())
}

#[test]
fn each_call_fails_while_a_store_restarts_twice(rt: HostRuntime) -> Result<(), Fail> {
    see_each(&rt, rt.alloc(), true, &[&PICKED, &MERGED, &RESTARTED_TWICE])
}

#[test]
fn each_call_fails_while_a_frozen_memtable_outlives_a_restart(rt: HostRuntime) -> Result<(), Fail> {
    see_each(&rt, rt.alloc(), false, &[&FROZEN])
}

#[test]
fn each_call_fails_while_a_result_is_refused_after_a_restart(rt: HostRuntime) -> Result<(), Fail> {
    see_each(&rt, rt.alloc(), false, &[&PICKED, &MERGED, &REFUSED])
}

#[test]
fn each_call_fails_while_two_jobs_run(rt: HostRuntime) -> Result<(), Fail> {
    see_each(&rt, rt.alloc(), false, &[&TWO, &TWO_JOBS])
}
