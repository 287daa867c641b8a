//! What a store answers to a call that a line asks for.

ghost use Rattle.lsm_line.specs.declared.call.Call.TheVariants.{Flush, Get, Release, Scan, Show, Snap, Write};
ghost use Rattle.lsm_commands.specs.Sessions.{AnswersCall};

use bytes::Bytes;
use lsm_coord::{CoordError, ScanRange, ShownVersion, SnapId};
use lsm_key::{Batch, Items, Op, Seq};
use lsm_line::Call;
use lsm_store::{Store, StoreError};
use lsm_vault::Vault;
use std::alloc::Global;

/// What a store answers to a call.
#[derive(Drop)]
pub(crate) enum Answer {
    /// The first and the last sequence of a batch.
    Wrote(Seq, Seq),
    /// All operations up to this sequence are in tables, and no others.
    Stored(Seq),
    /// A new snapshot, and the sequence that it reads at.
    Snapped(SnapId, Seq),
    Released(SnapId),
    Got(Option<Bytes>),
    /// The keys of a range, each with its value.
    Scanned(Items<(Bytes, Bytes)>),
    Shown(ShownVersion),
    Refused(StoreError),
}

/// Answers a call.
pub(crate) fn answer_call<V: Vault>(alloc: Global, store: &mut Store<V>, call: Call) -> Answer
    ensures { AnswersCall store.old call result store.new }
{
    match call {
        Call::Write(ops) => write(store, ops.into_vec()),
        Call::Flush => flush(store),
        Call::Snap => snapshot(store),
        Call::Release(id) => release(store, id),
        Call::Get(key, at) => get(store, &key, at),
        Call::Scan(range) => scan(store, &range),
        Call::Show => show(alloc, store),
    }
}

// Writes operations as one batch.
fn write<V: Vault>(store: &mut Store<V>, ops: Vec<Op>) -> Answer
    ensures { AnswersCall store.old (Write ops.items) result store.new }
{
    match Batch::from_vec(ops) {
        Err(why) => Answer::Refused(StoreError::Key(why)),
        Ok(batch) => write_batch(store, &batch),
    }
}

fn write_batch<V: Vault>(store: &mut Store<V>, batch: &Batch) -> Answer
    ensures { AnswersCall store.old (Write batch.now) result store.new }
{
    let before = store.latest_sequence();
    match store.write(batch) {
        Err(why) => Answer::Refused(why),
        Ok(()) => {
            let last = store.latest_sequence();
            // A batch has an operation, so the last one is not before the first.
            let first = Seq::new((before.number() + 1).min(last.number()));
            Answer::Wrote(first, last)
        }
    }
}

fn flush<V: Vault>(store: &mut Store<V>) -> Answer
    ensures { AnswersCall store.old Flush result store.new }
{
    match store.flush() {
        Err(why) => Answer::Refused(why),
        Ok(()) => Answer::Stored(store.flushed_sequence()),
    }
}

fn snapshot<V: Vault>(store: &mut Store<V>) -> Answer
    ensures { AnswersCall store.old Snap result store.new }
{
    match store.snapshot() {
        Err(why) => Answer::Refused(why),
        Ok(id) => Answer::Snapped(id, store.latest_sequence()),
    }
}

fn release<V: Vault>(store: &mut Store<V>, id: SnapId) -> Answer
    ensures { AnswersCall store.old (Release id) result store.new }
{
    match store.release(id) {
        Err(why) => Answer::Refused(why),
        Ok(()) => Answer::Released(id),
    }
}

fn get<V: Vault>(store: &mut Store<V>, key: &Bytes, at: Option<SnapId>) -> Answer
    ensures { AnswersCall store.old (Get key.now at) result store.new }
{
    match store.get(key.as_slice(), at) {
        Err(why) => Answer::Refused(why),
        Ok(value) => Answer::Got(value),
    }
}

fn scan<V: Vault>(store: &mut Store<V>, range: &ScanRange) -> Answer
    ensures { AnswersCall store.old (Scan range.now) result store.new }
{
    match store.scan(&range.lo, &range.hi, range.at, range.limit) {
        Err(why) => Answer::Refused(why),
        Ok(pairs) => Answer::Scanned(Items::from_vec(pairs)),
    }
}

// Lists the current version.
fn show<V: Vault>(alloc: Global, store: &mut Store<V>) -> Answer
    ensures { AnswersCall store.old Show result store.new }
{
    match ShownVersion::of(alloc, store.show()) {
        Err(_) => Answer::Refused(StoreError::Coord(CoordError::OutOfMemory)),
        Ok(shown) => Answer::Shown(shown),
    }
}
