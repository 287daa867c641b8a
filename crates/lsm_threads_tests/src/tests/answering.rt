//! The loop that answers, over a store of one file.

ghost use Rattle.std.specs.Prelude.{◌≡◌, ◌<◌, IfOk, []};

use super::vectors::{ASK_NEW, FETCH, FETCH_OTHER, GONE_OTHER, JUNK, OPENING, RESULT, TABLE};
use super::{Messages, are_sent, waiting};
use bytes::Bytes;
use crossbeam_channel::unbounded;
use lsm_coord::Coord;
use lsm_edit::Served;
use lsm_key::{Batch, DEFAULT_BASE, DEFAULT_BLOCK, Limits, Op};
use lsm_nodes::{Hub, PARTS, Start, Tally, Witness};
use lsm_threads::{ChannelPort, Ending, serve_loop};
use lsm_vault::{MemoryVault, Vault};
use std::alloc::Global;
use std::marker::Brand;
use std::snapshot::Snapshot;
use std::sync::Wait;
use std::sync::ledger::Blank;
use std::test::Fail;

// What comes, what is sent, and how the loop ends. A result is no question.
const ANSWERS: [(Messages, Messages, Ending); 3] = [
    (&[], &[], Ending::Closed),
    (&[FETCH, JUNK, FETCH], &[TABLE], Ending::NoMessage),
    (
        &[ASK_NEW, RESULT, FETCH_OTHER, FETCH],
        &[OPENING, GONE_OTHER, TABLE],
        Ending::Closed,
    ),
];

/// A new coordinator whose level 0 is due at one file.
pub(super) fn new_coord(alloc: Global) -> Result<Coord<MemoryVault>, Fail>
    ensures { IfOk result (λ c. c.book.live ≡ []) }
{
    let Some(limits) = Limits::new(1, DEFAULT_BASE, DEFAULT_BLOCK) else {
        return Err("no limits")?;
    };
    match Coord::open(alloc, MemoryVault::new(alloc), limits) {
        Ok(coord) => Ok(coord),
        Err(_) => Err("out of memory")?,
    }
}

/// Writes a key, and flushes it to a file of its own.
pub(super) fn put<V: Vault, J: Start, N: Witness + Drop, R: Wait>(
    rt: &R,
    alloc: Global,
    hub: &Hub<V, J, N>,
    key: &'static [u8],
    tally: &mut Tally<J>,
) -> Option<()>
    requires { 0 < tally.old.parts }
    ensures parts { tally.new.parts ≡ tally.old.parts }
    ensures picked { tally.new.picked ≡ tally.old.picked }
{
    let mut batch = Batch::new(alloc);
    let put = Op::Put(Bytes::from_static(key), Bytes::from_static(b"1"));
    batch.push(put).ok()?;
    hub.write(rt, &batch, tally).ok()?;
    hub.flush(rt, tally).ok()?;
    Some(())
}

// How the loop ends, if it sends these messages.
fn answer<V: Vault + Drop, J: Start, N: Witness + Drop, R: Wait>(
    rt: &R,
    alloc: Global,
    coord: Coord<V>,
    blank: Blank,
    come: Messages,
    wanted: Messages,
) -> Result<Ending, Fail>
    requires ledger { (blank.name ≡ J.name) × (blank.parts ≡ J.parts) × (J.parts ≡ PARTS) }
    requires start { coord ≡ J.start }
    requires idle { coord.book.live ≡ [] }
{
    let (hub, mut tally) = Hub::<V, J, N>::new(alloc, coord, blank);
    put(rt, alloc, &hub, b"a", &mut tally).ok_or("out of memory")?;
    let inbox = waiting(rt, alloc, come)?;
    let (outbox, sent) = unbounded(alloc)?;
    let mut port = ChannelPort::new(rt, alloc, inbox, outbox);
    let ending = serve_loop(rt, &hub, &mut port);
    if !are_sent(rt, &sent, wanted) {
        return Err("out of memory, or other messages were sent")?;
    }
    Ok(ending)
}

// The same over a new store.
fn answer_anew<R: Wait>(
    rt: &R,
    alloc: Global,
    come: Messages,
    wanted: Messages,
) -> Result<Ending, Fail> {
    let coord = new_coord(alloc)?;
    let blank = Blank::new(PARTS);
    answer::<MemoryVault, Brand, Snapshot<Served>, R>(rt, alloc, coord, blank, come, wanted)
}

#[test]
fn each_question_is_answered_and_nothing_else(rt: HostRuntime) -> Result<(), Fail> {
    for (come, wanted, ending) in ANSWERS {
        if answer_anew(&rt, rt.alloc(), come, wanted)? != ending {
            return Err("out of memory, or another ending")?;
        }
    }
    Ok(())
}
