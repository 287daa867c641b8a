//! A dispatcher and its worker in two threads, and after which round it ends.

ghost use Rattle.std.specs.Prelude.{◌≡◌, []};

use super::answering::{new_coord, put};
use lsm_coord::Coord;
use lsm_edit::Served;
use lsm_msg::NodeIndex;
use lsm_nodes::{Hub, PARTS, RoundEnd, Start, Witness};
use lsm_threads::dispatch_with_worker;
use lsm_vault::{MemoryVault, Vault};
use std::alloc::Global;
use std::marker::Brand;
use std::snapshot::Snapshot;
use std::sync::Wait;
use std::sync::atomic::AtomicBool;
use std::sync::ledger::Blank;
use std::test::Fail;
use std::thread::Threads;

/// What two rounds at most left: how many jobs were picked and installed, and how the last round ended, if one did not follow.
#[derive(Clone, Copy, Debug, PartialEq, Eq)]
struct Left {
    picked: u64,
    installed: u64,
    last: Option<RoundEnd>,
}

// Whether the rounds are over, and what is left of two jobs that are due then.
const ROUNDS: [(bool, Left); 2] = [
    (
        false,
        Left {
            picked: 2,
            installed: 2,
            last: None,
        },
    ),
    (
        true,
        Left {
            picked: 1,
            installed: 1,
            last: Some(RoundEnd::Installed),
        },
    ),
];

// What the rounds leave of files with a key each, whose jobs meet nowhere.
fn dispatch<
    V: Vault + Drop + Send,
    J: Start + Send + Sync,
    N: Witness + Drop + Send,
    R: Threads + Wait + Sync,
>(rt: &R, alloc: Global, coord: Coord<V>, blank: Blank, is_over: bool) -> Result<Left, Fail>
    requires ledger { (blank.name ≡ J.name) × (blank.parts ≡ J.parts) × (J.parts ≡ PARTS) }
    requires start { coord ≡ J.start }
    requires idle { coord.book.live ≡ [] }
{
    let (hub, mut tally) = Hub::<V, J, N>::new(alloc, coord, blank);
    put(rt, alloc, &hub, b"a", &mut tally).ok_or("out of memory")?;
    put(rt, alloc, &hub, b"m", &mut tally).ok_or("out of memory")?;
    let index = NodeIndex::new(1).ok_or("no index")?;
    let flag = AtomicBool::new(is_over);
    let Ok((tally, last, _lost)) = dispatch_with_worker(rt, alloc, &hub, index, 2, &flag, tally)
    else {
        return Err("out of memory")?;
    };
    Ok(Left {
        picked: tally.picked(),
        installed: tally.installed(),
        last,
    })
}

// The same over a new store.
fn dispatch_anew<R: Threads + Wait + Sync>(
    rt: &R,
    alloc: Global,
    is_over: bool,
) -> Result<Left, Fail> {
    let coord = new_coord(alloc)?;
    let blank = Blank::new(PARTS);
    dispatch::<MemoryVault, Brand, Snapshot<Served>, R>(rt, alloc, coord, blank, is_over)
}

#[test]
fn rounds_end_once_they_are_over_and_not_before(rt: HostRuntime) -> Result<(), Fail> {
    for (is_over, left) in ROUNDS {
        if dispatch_anew(&rt, rt.alloc(), is_over)? != left {
            return Err("out of memory, or more or fewer rounds")?;
        }
    }
    Ok(())
}
