//! Worked schedules over a device that fails, which no script has: each event with the line of its reply. Out of memory is reported, and
//! never another reply in its place. The other schedules are scripts (`tests/schedules/rows`).

mod followers;
mod fuses;
mod schedules;

use bytes::Bytes;
use lsm_coord::CoordError;
use lsm_key::{DEFAULT_BLOCK, Limits, Refused};
use lsm_line::{write_number, write_text};
use lsm_script::{events_in, write_line};
use lsm_vault::{FusedVault, MemoryVault, Vault};
use lsm_versions::OpenError;
use lsm_world::{Event, Refusal, Reply, World};
use schedules::*;
use std::alloc::{AllocError, Global};
use std::process::Abort;
use std::test::Fail;

/// A vault in memory, of which one call can fail.
type Fused = FusedVault<MemoryVault>;

/// An event that has another reply, and what is told of that.
type Wrong = Option<Bytes>;

const BASE: u64 = 10_485_760;

/// A new world, whose level 0 is due at two files, over a vault of which the call after so many fails. It is opened once more if that is
/// a call of the opening.
fn new_world(alloc: Global, calls: u64) -> Result<World<Fused>, Fail> {
    let limits = Limits::new(2, BASE, DEFAULT_BLOCK).ok_or("no limits")?;
    Ok(opened(alloc, limits, calls)?)
}

fn opened(alloc: Global, limits: Limits, calls: u64) -> Result<World<Fused>, OpenError> {
    let vault = FusedVault::new(MemoryVault::new(alloc), calls);
    match World::new(alloc, vault, limits) {
        Ok(world) => Ok(world),
        Err((OpenError::Device, vault)) => match World::new(alloc, vault, limits) {
            Ok(world) => Ok(world),
            Err((why, _vault)) => Err(why),
        },
        Err((why, _vault)) => Err(why),
    }
}

/// The event of a line.
fn event_of(alloc: Global, line: &str) -> Result<Event, Fail> {
    match events_in(alloc, line.as_bytes()) {
        Ok(mut events) => match events.pop() {
            Some(event) => Ok(event),
            None => Err("a line of no event".into()),
        },
        Err(Refused::OutOfMemory) => Err(AllocError.into()),
        Err(Refused::Fault(_why)) => Err("a faulty line".into()),
    }
}

/// The call without its promises, which a test that runs does not need: so its proof is short.
fn step<V: Vault>(world: &mut World<V>, event: Event) -> Reply {
    world.step(event)
}

/// Whether the device failed.
fn has_failed(reply: &Reply) -> bool {
    match reply {
        Reply::Refused(why) => *why == Refusal::Coord(CoordError::Device)
            || *why == Refusal::Open(OpenError::Device),
        _ => false,
    }
}

/// The reply to the event of a line, which is done once more if the device fails and it is to be.
fn reply_to<V: Vault>(
    alloc: Global,
    world: &mut World<V>,
    again: bool,
    line: &str,
) -> Result<Reply, Fail> {
    let reply = step(world, event_of(alloc, line)?);
    if again && has_failed(&reply) {
        return Ok(step(world, event_of(alloc, line)?));
    }
    Ok(reply)
}

/// Appends what the line of a reply does not say: which files a trim removed, and that it is an opening that is refused.
fn write_more(out: &mut Vec<u8>, reply: &Reply) -> Result<(), AllocError> {
    match reply {
        Reply::Trimmed(_floor, files) => {
            for file in files.as_slice() {
                write_text(out, "file ")?;
                write_number(out, file.number())?;
            }
            Ok(())
        }
        Reply::Refused(Refusal::Open(_why)) => write_text(out, "to open"),
        _ => Ok(()),
    }
}

/// What is told of a reply.
fn told_of(alloc: Global, reply: &Reply) -> Result<Vec<u8>, AllocError> {
    if reply.lacks_memory() {
        return Err(AllocError);
    }
    let mut out = Vec::new(alloc);
    write_line(alloc, &mut out, reply)?;
    write_more(&mut out, reply)?;
    Ok(out)
}

/// What is told of the event of a line.
fn told<V: Vault>(
    alloc: Global,
    world: &mut World<V>,
    again: bool,
    line: &str,
) -> Result<Vec<u8>, Fail> {
    let reply = reply_to(alloc, world, again, line)?;
    let told = told_of(alloc, &reply);
    drop(reply);
    Ok(told?)
}

/// The line of an event, and what is told of it.
fn named(alloc: Global, line: &str, told: &[u8]) -> Result<Bytes, AllocError> {
    let mut out = Vec::new(alloc);
    write_text(&mut out, line)?;
    write_text(&mut out, ": ")?;
    out.extend_from_slice(told)?;
    Ok(Bytes::from_vec(out)?)
}

/// Plays schedules in a world, one after another, up to the first wrong reply.
fn play<V: Vault>(
    alloc: Global,
    world: &mut World<V>,
    again: bool,
    schedules: &[&'static [EventReply]],
) -> Result<Wrong, Fail> {
    for schedule in schedules {
        for (line, wanted) in *schedule {
            let told = told(alloc, world, again, line)?;
            if *wanted != ANY && told.as_slice() != wanted.as_bytes() {
                return Ok(Some(named(alloc, line, told.as_slice())?));
            }
        }
    }
    Ok(None)
}

/// The same in a new world over a vault of which the call after so many fails.
fn see_fail(
    rt: &impl Abort,
    alloc: Global,
    calls: u64,
    schedules: &[&'static [EventReply]],
) -> Result<(), Fail> {
    let mut world = new_world(alloc, calls)?;
    let wrong = play(alloc, &mut world, false, schedules);
    drop(world.close());
    let wrong = wrong?;
    assert!(rt; wrong.is_none(), "{wrong:?}");
    Ok(())
}

#[test]
fn a_write_whose_device_fails(rt: HostRuntime) -> Result<(), Fail> {
    // The call of the write, after five of the opening.
    see_fail(&rt, rt.alloc(), 5, &[&UNWRITTEN])
}

#[test]
fn a_freeze_whose_device_fails(rt: HostRuntime) -> Result<(), Fail> {
    // The call of the freeze, after five of the opening and that of the write.
    see_fail(&rt, rt.alloc(), 6, &[&UNFROZEN])
}

#[test]
fn a_cut_whose_device_fails_is_not_told(rt: HostRuntime) -> Result<(), Fail> {
    // The last call of the first flush, after five of the opening, that of the write and two of the flush.
    see_fail(&rt, rt.alloc(), 8, &[&UNCUT])
}

#[test]
fn a_flush_whose_device_fails(rt: HostRuntime) -> Result<(), Fail> {
    // The first call of the flush, after five of the opening and that of the write.
    see_fail(&rt, rt.alloc(), 6, &[&FAILED])
}

#[test]
fn a_restart_whose_device_fails(rt: HostRuntime) -> Result<(), Fail> {
    // The first call of the restart, after five of the opening, one of each write and three of each flush.
    see_fail(&rt, rt.alloc(), 13, &[&PICKED, &STOPPED])
}

#[test]
fn a_trim_whose_device_fails(rt: HostRuntime) -> Result<(), Fail> {
    // After the opening, two writes with their flushes and an edit: the numbers are read, the first table is removed, the second one is
    // not.
    see_fail(
        &rt,
        rt.alloc(),
        16,
        &[&PICKED, &MERGED, &INSTALLED, &TRIMMED],
    )
}

fn run<V: Vault>(world: &mut World<V>, events: &[Event]) -> Result<Vec<Reply>, AllocError> {
    world.run(events)
}

/// Runs these events, and says how many replies there are, how many events are in the trace, and what is told of the last reply.
fn run_in<V: Vault>(
    alloc: Global,
    world: &mut World<V>,
    events: &[Event],
) -> Result<(usize, usize, Vec<u8>), AllocError> {
    let mut replies = run(world, events)?;
    let count = replies.len();
    let told = match replies.pop() {
        Some(reply) => told_of(alloc, &reply)?,
        None => Vec::new(alloc),
    };
    Ok((count, world.trace().len(), told))
}

#[test]
fn runs_of_no_event_and_of_one(rt: HostRuntime) -> Result<(), Fail> {
    let events = [event_of(rt.alloc(), "put a 1")?];
    let mut world = new_world(rt.alloc(), u64::MAX)?;
    let none = run_in(rt.alloc(), &mut world, &[]);
    let one = run_in(rt.alloc(), &mut world, &events);
    drop(world.close());
    let (count, traced, _told) = none?;
    assert!(rt; count == 0 && traced == 0);
    let (count, traced, told) = one?;
    assert!(rt; count == 1 && traced == 1);
    assert!(rt; told.as_slice() == b"seq 1\n".as_slice());
    Ok(())
}
