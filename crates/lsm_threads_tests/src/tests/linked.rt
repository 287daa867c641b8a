//! A dispatcher whose link leads to a worker over channels.

ghost use Rattle.std.specs.Prelude.{◌≡◌, []};

use super::answering::{new_coord, put};
use super::vectors::{FETCH, JOB, JUNK, LATE_RESULT, RESULT, TABLE};
use super::{Messages, are_sent, waiting};
use crossbeam_channel::unbounded;
use lsm_coord::Coord;
use lsm_edit::Served;
use lsm_msg::NodeIndex;
use lsm_nodes::{Hub, PARTS, Start, Witness, dispatch};
use lsm_threads::{ChannelPort, Ending, WorkerLink};
use lsm_vault::{MemoryVault, Vault};
use std::alloc::Global;
use std::marker::Brand;
use std::snapshot::Snapshot;
use std::sync::Wait;
use std::sync::ledger::Blank;
use std::test::Fail;

/// What a round left: how many jobs were installed and given back, and why the last one came back without a result.
#[derive(Clone, Copy, Debug, PartialEq, Eq)]
struct Left {
    installed: u64,
    returned: u64,
    lost: Option<Ending>,
}

// What comes, what is sent, and what the round leaves. The result of another job is passed over.
const ROUNDS: [(Messages, Messages, Left); 3] = [
    (
        &[LATE_RESULT, FETCH, RESULT],
        &[JOB, TABLE],
        Left {
            installed: 1,
            returned: 0,
            lost: None,
        },
    ),
    (
        &[FETCH],
        &[JOB, TABLE],
        Left {
            installed: 0,
            returned: 1,
            lost: Some(Ending::Closed),
        },
    ),
    (
        &[JUNK, RESULT],
        &[JOB],
        Left {
            installed: 0,
            returned: 1,
            lost: Some(Ending::NoMessage),
        },
    ),
];

// What a round leaves, if the link sends these messages.
fn carry<V: Vault + Drop, J: Start, N: Witness + Drop, R: Wait>(
    rt: &R,
    alloc: Global,
    coord: Coord<V>,
    blank: Blank,
    come: Messages,
    wanted: Messages,
) -> Result<Left, Fail>
    requires ledger { (blank.name ≡ J.name) × (blank.parts ≡ J.parts) × (J.parts ≡ PARTS) }
    requires start { coord ≡ J.start }
    requires idle { coord.book.live ≡ [] }
{
    let (hub, mut tally) = Hub::<V, J, N>::new(alloc, coord, blank);
    put(rt, alloc, &hub, b"a", &mut tally).ok_or("out of memory")?;
    let index = NodeIndex::new(1).ok_or("no index")?;
    let inbox = waiting(rt, alloc, come)?;
    let (outbox, sent) = unbounded(alloc)?;
    let port = ChannelPort::new(rt, alloc, inbox, outbox);
    let mut link = WorkerLink::new(rt, &hub, index, port);
    let (tally, _end) = dispatch(rt, &hub, &mut link, tally);
    if !are_sent(rt, &sent, wanted) {
        return Err("out of memory, or other messages were sent")?;
    }
    Ok(Left {
        installed: tally.installed(),
        returned: tally.returned(),
        lost: link.lost(),
    })
}

// The same over a new store.
fn carry_anew<R: Wait>(
    rt: &R,
    alloc: Global,
    come: Messages,
    wanted: Messages,
) -> Result<Left, Fail> {
    let coord = new_coord(alloc)?;
    let blank = Blank::new(PARTS);
    carry::<MemoryVault, Brand, Snapshot<Served>, R>(rt, alloc, coord, blank, come, wanted)
}

#[test]
fn a_link_takes_the_result_of_its_job(rt: HostRuntime) -> Result<(), Fail> {
    for (come, wanted, left) in ROUNDS {
        if carry_anew(&rt, rt.alloc(), come, wanted)? != left {
            return Err("out of memory, or the job ended otherwise")?;
        }
    }
    Ok(())
}
