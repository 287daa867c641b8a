//! Claims that a dispatcher gives back: its link brings nothing, or the result of another job.

ghost use Rattle.std.specs.Prelude.{◌≡◌, ◌<◌, []};

use super::{fill, new_store};
use lsm_claim::JobId;
use lsm_coord::Coord;
use lsm_edit::Served;
use lsm_key::Items;
use lsm_msg::{Job, JobResult};
use lsm_nodes::{Hub, Link, PARTS, Start, Tally, Witness, dispatch};
use lsm_vault::{MemoryVault, Vault};
use std::alloc::Global;
use std::marker::Brand;
use std::process::Abort;
use std::snapshot::Snapshot;
use std::sync::Wait;
use std::sync::ledger::Blank;
use std::test::Fail;

/// A link that brings no result, or an empty one of another job.
#[derive(Drop)]
struct Idle {
    alloc: Global,
    brings_another: bool,
}

impl Link for Idle {
    fn carry(&mut self, _job: Job) -> Option<JobResult> {
        if !self.brings_another {
            return None;
        }
        Some(JobResult {
            job: JobId {
                epoch: 1,
                number: 9,
            },
            tables: Items::new(self.alloc),
        })
    }
}

/// What a round of a dispatcher counted, and the job that is picked after it.
#[derive(Clone, Copy, Debug, PartialEq, Eq)]
struct RoundCounts {
    picked: u64,
    installed: u64,
    returned: u64,
    stale: u64,
    next: JobId,
}

// The job that is picked, if one is. Its claim is given back.
fn next_job<V: Vault, J: Start, N: Witness + Drop, R: Wait>(
    rt: &R,
    hub: &Hub<V, J, N>,
    tally: &mut Tally<J>,
) -> Option<JobId>
    requires { 0 < tally.old.parts }
{
    match hub.pick(rt, tally) {
        Ok(Some((claim, job))) => {
            let _settled = hub.give_back(rt, claim);
            Some(job.id())
        }
        _ => None,
    }
}

// A round over a store of four files, and a pick after it.
fn round_and_pick<V: Vault, J: Start, N: Witness + Drop, R: Wait>(
    rt: &R,
    alloc: Global,
    hub: &Hub<V, J, N>,
    link: &mut Idle,
    mut tally: Tally<J>,
) -> Option<RoundCounts>
    requires { 0 < tally.parts }
{
    fill(rt, alloc, hub, &mut tally)?;
    if tally.picked() > 0 {
        return None;
    }
    let (mut tally, _end) = dispatch(rt, hub, link, tally);
    let next = next_job(rt, hub, &mut tally)?;
    Some(RoundCounts {
        picked: tally.picked(),
        installed: tally.installed(),
        returned: tally.returned(),
        stale: tally.stale(),
        next,
    })
}

// The same in a hub.
fn round<V: Vault + Drop, J: Start, N: Witness + Drop, R: Wait>(
    rt: &R,
    alloc: Global,
    coord: Coord<V>,
    blank: Blank,
    link: &mut Idle,
) -> Option<RoundCounts>
    requires ledger { (blank.name ≡ J.name) × (blank.parts ≡ J.parts) × (J.parts ≡ PARTS) }
    requires start { coord ≡ J.start }
    requires idle { coord.book.live ≡ [] }
{
    let (hub, tally) = Hub::<V, J, N>::new(alloc, coord, blank);
    round_and_pick(rt, alloc, &hub, link, tally)
}

// The same of a new store.
fn round_anew<R: Wait>(rt: &R, alloc: Global, brings_another: bool) -> Option<RoundCounts> {
    let coord = new_store(alloc)?;
    let mut link = Idle {
        alloc,
        brings_another,
    };
    round::<MemoryVault, Brand, Snapshot<Served>, R>(rt, alloc, coord, Blank::new(PARTS), &mut link)
}

// One claim went back while it was live, and its number is used.
const RETURNED: RoundCounts = RoundCounts {
    picked: 1,
    installed: 0,
    returned: 1,
    stale: 0,
    next: JobId {
        epoch: 1,
        number: 2,
    },
};

// Sees that a round gives its claim back.
fn see(rt: &(impl Abort + Wait), alloc: Global, brings_another: bool) -> Result<(), Fail> {
    let round = round_anew(rt, alloc, brings_another).ok_or("out of memory")?;
    if round.picked == 0 {
        return Err("out of memory")?;
    }
    assert!(rt; round == RETURNED);
    Ok(())
}

#[test]
fn a_claim_without_a_result_goes_back(rt: HostRuntime) -> Result<(), Fail> {
    see(&rt, rt.alloc(), false)
}

#[test]
fn a_claim_with_the_result_of_another_job_goes_back(rt: HostRuntime) -> Result<(), Fail> {
    see(&rt, rt.alloc(), true)
}
