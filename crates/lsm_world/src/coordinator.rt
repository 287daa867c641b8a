//! What the coordinator answers to its events.

ghost use Rattle.std.specs.Prelude.{◌≡◌, ◌⊎◌, IfErr, IfOk, None, OnOk, Some};
ghost use Rattle.lsm_key.specs.Limits.{batch_fault};
ghost use Rattle.lsm_coord.specs.Contract.Memory.{IsFit};
ghost use Rattle.lsm_coord.specs.Contract.Shows.{Follows, Shows};
ghost use Rattle.lsm_coord.specs.Model.State.{State};
ghost use Rattle.lsm_world.specs.declared.event.Event.TheVariants.{Flush, Freeze, Get, Release, Scan, Show, Snap, Trim, Write};
ghost use Rattle.lsm_world.specs.Asks.Coordinator.{Calls};
ghost use Rattle.lsm_world.specs.Asks.Store.{restarted_as};
ghost use Rattle.lsm_world.specs.Events.{event_of};
ghost use Rattle.lsm_world.specs.Inner.Batches.{RefusesBatch};
ghost use Rattle.lsm_world.specs.Inner.Handing.{IsOfCoordinator};
ghost use Rattle.lsm_world.specs.Inner.Upkeep.{KeepsFiles};
ghost use Rattle.lsm_world.specs.Memory.{IsNotShort, LacksMemory};
ghost use Rattle.lsm_world.specs.Replies.{reply_of};
ghost use Rattle.lsm_world.specs.Schedules.{IsPlain};

use crate::event::Event;
use crate::refusal::Refusal;
use crate::reply::Reply;
use bytes::Bytes;
use lsm_coord::{Coord, ScanRange, ShownVersion, SnapId};
use lsm_key::{Batch, Items, Op, VersionNumber};
use lsm_vault::Vault;
use std::alloc::Global;

/// Answers one of its events.
pub(crate) fn answer<V: Vault>(alloc: Global, coord: &mut Coord<V>, event: &Event) -> Reply
    requires own { IsOfCoordinator event.now }
    requires shown { (s : State) × Shows coord.old s }
    ensures own { IsOfCoordinator event.now }
    ensures calls { LacksMemory coord.old result coord.new ⊎ Calls coord.old event.now result coord.new }
    ensures follows { Follows coord.old (event_of event.now) (reply_of result) coord.new }
    ensures files { KeepsFiles coord.old coord.new }
    ensures plain { IsPlain result }
    ensures memory { IsNotShort event.now result }
{
    match event {
        Event::Write(ops) => write(alloc, coord, ops),
        Event::Freeze => freeze(coord),
        Event::Flush => flush(coord),
        Event::Snap => snapshot(coord),
        Event::Release(id) => release(coord, *id),
        Event::Get(key, at) => get(coord, key, *at),
        Event::Scan(range) => scan(coord, range),
        Event::Show => show(alloc, coord),
        Event::Trim(number) => trim(coord, *number),
        _ => unreachable!(),
    }
}

// Applies the operations as one batch.
fn write<V: Vault>(alloc: Global, coord: &mut Coord<V>, ops: &Items<Op>) -> Reply
    ensures calls { LacksMemory coord.old result coord.new ⊎ Calls coord.old (Write ops.now) result coord.new }
    ensures follows { Follows coord.old (event_of (Write ops.now)) (reply_of result) coord.new }
    ensures files { KeepsFiles coord.old coord.new }
    ensures plain { IsPlain result }
{
    match batch_of(alloc, ops) {
        Err(why) => Reply::Refused(why),
        Ok(batch) => match coord.write(&batch) {
            Err(error) => Reply::Refused(Refusal::Coord(error)),
            Ok((first, last)) => Reply::Wrote(first, last),
        },
    }
}

// The batch of the operations, which it copies.
fn batch_of(alloc: Global, ops: &Items<Op>) -> Result<Batch, Refusal>
    ensures ok { IfOk result (λ batch. batch ≡ ops.now) }
    ensures faultless { OnOk result (batch_fault ops.now ≡ None) }
    ensures refused { IfErr result (RefusesBatch ops.now) }
{
    let Ok(ops) = ops.as_slice().to_vec(alloc) else {
        return Err(Refusal::OutOfMemory);
    };
    match Batch::from_vec(ops) {
        Err(error) => Err(Refusal::Key(error)),
        Ok(batch) => Ok(batch),
    }
}

// Freezes the memtable.
fn freeze<V: Vault>(coord: &mut Coord<V>) -> Reply
    ensures calls { Calls coord.old Freeze result coord.new }
    ensures follows { Follows coord.old (event_of Freeze) (reply_of result) coord.new }
    ensures files { KeepsFiles coord.old coord.new }
    ensures plain { IsPlain result }
{
    match coord.freeze() {
        Err(error) => Reply::Refused(Refusal::Coord(error)),
        Ok(seq) => Reply::Froze(seq),
    }
}

// Writes a memtable as a table.
fn flush<V: Vault>(coord: &mut Coord<V>) -> Reply
    ensures calls { Calls coord.old Flush result coord.new }
    ensures follows { Follows coord.old (event_of Flush) (reply_of result) coord.new }
    ensures files { KeepsFiles coord.old coord.new }
    ensures plain { IsPlain result }
{
    // Proof hint: the coordinator's invariant, before and after.
    know_fit(coord);
    let flushed = coord.flush();
    know_fit(coord);
    match flushed {
        Err(error) => Reply::Refused(Refusal::Coord(error)),
        Ok(flushed) => Reply::Flushed(flushed),
    }
}

// Makes a snapshot.
fn snapshot<V: Vault>(coord: &mut Coord<V>) -> Reply
    requires shown { (s : State) × Shows coord.old s }
    ensures calls { Calls coord.old Snap result coord.new }
    ensures follows { Follows coord.old (event_of Snap) (reply_of result) coord.new }
    ensures files { KeepsFiles coord.old coord.new }
    ensures plain { IsPlain result }
{
    match coord.snapshot() {
        Err(error) => Reply::Refused(Refusal::Coord(error)),
        Ok((id, seq)) => Reply::Snapped(id, seq),
    }
}

// Releases a snapshot.
fn release<V: Vault>(coord: &mut Coord<V>, id: SnapId) -> Reply
    ensures calls { Calls coord.old (Release id) result coord.new }
    ensures follows { Follows coord.old (event_of (Release id)) (reply_of result) coord.new }
    ensures files { KeepsFiles coord.old coord.new }
    ensures plain { IsPlain result }
{
    match coord.release(id) {
        Err(error) => Reply::Refused(Refusal::Coord(error)),
        Ok(()) => Reply::Released(id),
    }
}

// Reads a key.
fn get<V: Vault>(coord: &mut Coord<V>, key: &Bytes, at: Option<SnapId>) -> Reply
    ensures calls { Calls coord.old (Get key.now at) result coord.new }
    ensures follows { Follows coord.old (event_of (Get key.now at)) (reply_of result) coord.new }
    ensures files { KeepsFiles coord.old coord.new }
    ensures plain { IsPlain result }
{
    match coord.get(key.as_slice(), at) {
        Err(error) => Reply::Refused(Refusal::Coord(error)),
        Ok(value) => Reply::Got(value),
    }
}

// Reads a range of keys.
fn scan<V: Vault>(coord: &mut Coord<V>, range: &ScanRange) -> Reply
    ensures calls { Calls coord.old (Scan range.now) result coord.new }
    ensures follows { Follows coord.old (event_of (Scan range.now)) (reply_of result) coord.new }
    ensures files { KeepsFiles coord.old coord.new }
    ensures plain { IsPlain result }
{
    match coord.scan(&range.lo, &range.hi, range.at, range.limit) {
        Err(error) => Reply::Refused(Refusal::Coord(error)),
        Ok(pairs) => Reply::Scanned(Items::from_vec(pairs)),
    }
}

// Lists the coordinator's version.
fn show<V: Vault>(alloc: Global, coord: &mut Coord<V>) -> Reply
    ensures calls { LacksMemory coord.old result coord.new ⊎ Calls coord.old Show result coord.new }
    ensures follows { Follows coord.old (event_of Show) (reply_of result) coord.new }
    ensures files { KeepsFiles coord.old coord.new }
    ensures plain { IsPlain result }
{
    match ShownVersion::of(alloc, coord.show()) {
        Err(_) => Reply::Refused(Refusal::OutOfMemory),
        Ok(version) => Reply::Shown(version),
    }
}

// Raises the floor.
fn trim<V: Vault>(coord: &mut Coord<V>, number: VersionNumber) -> Reply
    ensures calls { Calls coord.old (Trim number) result coord.new }
    ensures follows { Follows coord.old (event_of (Trim number)) (reply_of result) coord.new }
    ensures files { KeepsFiles coord.old coord.new }
    ensures plain { IsPlain result }
{
    match coord.trim(number) {
        Err(error) => Reply::Refused(Refusal::Coord(error)),
        Ok((floor, removed)) => Reply::Trimmed(floor, removed),
    }
}

// Proof hint: what a coordinator keeps is fit.
pub(crate) fn know_fit<V: Vault>(coord: &Coord<V>)
    ensures { IsFit coord.now }
{
    let _listing = coord.show();
}

/// The reply of a coordinator that was just opened.
pub(crate) fn restarted<V: Vault>(coord: &Coord<V>) -> Reply
    ensures { result ≡ restarted_as (Some coord.now) }
{
    let listing = coord.show();
    Reply::Restarted(coord.epoch(), listing.number, coord.latest_sequence())
}
