//! A dispatcher and its worker, in two threads.

ghost use Rattle.std.specs.Prelude.{◌≡◌, ◌↔◌, ◌+◌, ◌<◌, ◌^◌, IfErr, IfOk, IsTrue, false};
ghost use Rattle.lsm_nodes.specs.Tallies.{IsDispatched};
ghost use Rattle.lsm_threads.specs.Endings.{IsOfWorker};
ghost use Rattle.lsm_threads.specs.Rounds.{EndsRounds};

use crate::ending::Ending;
use crate::link::WorkerLink;
use crate::mail::ChannelPort;
use crate::worker::worker_loop;
use bytes::Bytes;
use crossbeam_channel::{Receiver, Sender, unbounded};
use lsm_msg::NodeIndex;
use lsm_nodes::{Hub, Link, RoundEnd, Start, Tally, Witness, dispatch};
use lsm_vault::Vault;
use lsm_work::Worker;
use std::alloc::Global;
use std::sync::Wait;
use std::sync::atomic::{AtomicBool, Ordering};
use std::thread;
use std::thread::Threads;

/// At most this many rounds of a dispatcher, beside a new worker in a thread of its own. A round is the last one if the flag is set, or if it
/// installs nothing: nothing is due, memory ran out, or the worker has ended. Each job that it was given is settled: all but the last one are
/// installed. Says too how the last round ended, unless each was made and installed its claim; and, if the last job came back without a
/// result, why: how the link ended, or the worker if it closed its channels.
/// Refuses if there is no memory for channels, or no thread can be made, and hands the tally back.
pub fn dispatch_with_worker<
    V: Vault + Send,
    J: Start + Send + Sync,
    N: Witness + Drop + Send,
    R: Threads + Wait + Sync,
>(
    rt: &R,
    alloc: Global,
    hub: &Hub<V, J, N>,
    index: NodeIndex,
    rounds: u64,
    is_over: &AtomicBool,
    tally: Tally<J>,
) -> Result<(Tally<J>, Option<RoundEnd>, Option<Ending>), Tally<J>>
    requires part { 0 < tally.parts }
    requires fits { tally.picked + rounds < 2 ^ 64 }
    ensures dispatched { IfOk result (λ r. IsDispatched tally rounds r.0) }
    ensures ends { IfOk result (λ r. EndsRounds tally rounds r.0 r.1) }
    ensures refused { IfErr result (λ t. t ≡ tally) }
{
    let Ok((to_worker, inbox)) = unbounded(alloc) else {
        return Err(tally);
    };
    let Ok((outbox, from_worker)) = unbounded(alloc) else {
        return Err(tally);
    };
    thread::scope(
        thread::scope_env(),
        rt,
        move |scope| -> Result<(Tally<J>, Option<RoundEnd>, Option<Ending>), Tally<J>>
            requires { (0 < tally.parts) × (tally.picked + rounds < 2 ^ 64) }
            ensures ok { IfOk result (λ r. IsDispatched tally rounds r.0 × EndsRounds tally rounds r.0 r.1) }
            ensures err { IfErr result (λ t. t ≡ tally) }
        {
            let Ok(working) = scope.spawn(move || work(rt, alloc, index, inbox, outbox)) else {
                return Err(tally);
            };
            let port = ChannelPort::new(rt, alloc, from_worker, to_worker);
            let mut link = WorkerLink::new(rt, hub, index, port);
            let (tally, last) = rounds_by(rt, hub, &mut link, rounds, is_over, tally);
            let lost = link.lost();
            drop(link);
            let worked = working.join(rt);
            Ok((tally, last, lost.map(|ending| ending.cause(worked))))
        },
    )
}

// A worker's loop, and how it ended.
fn work<R: Wait>(
    rt: &R,
    alloc: Global,
    index: NodeIndex,
    from: Receiver<Bytes>,
    to: Sender<Bytes>,
) -> Ending
    ensures { IsOfWorker result }
{
    let mut port = ChannelPort::new(rt, alloc, from, to);
    let (_worker, ending) = worker_loop(rt, Worker::new(alloc, index), &mut port);
    ending
}

// Rounds up to one that installs nothing or sees the flag, at most this many, and how that one ended.
#[tactic(auto, using(lsm_nodes::proofs::SettledRounds::dispatched_then, lsm_nodes::proofs::SettledRounds::dispatched_within, lsm_nodes::proofs::SettledRounds::dispatched_none, crate::proofs::RoundSteps::installs_then, crate::proofs::RoundSteps::stops_after))]
fn rounds_by<V: Vault, J: Start, N: Witness + Drop, L: Link, R: Wait>(
    rt: &R,
    hub: &Hub<V, J, N>,
    link: &mut L,
    rounds: u64,
    is_over: &AtomicBool,
    tally: Tally<J>,
) -> (Tally<J>, Option<RoundEnd>)
    requires part { 0 < tally.parts }
    requires fits { tally.picked + rounds < 2 ^ 64 }
    ensures dispatched { IsDispatched tally rounds result.0 }
    ensures ends { EndsRounds tally rounds result.0 result.1 }
{
    let mut tally = tally;
    for _round in 0..rounds {
        let (next, end) = dispatch(rt, hub, link, tally);
        tally = next;
        if !goes_on(end, is_over.load(Ordering::SeqCst)) {
            return (tally, Some(end));
        }
    }
    (tally, None)
}

// Whether a round follows one that ended so: it installed its claim, and the rounds are not over.
fn goes_on(end: RoundEnd, is_over: bool) -> bool
    ensures { IsTrue result ↔ (end ≡ RoundEnd.Installed) × (is_over ≡ false) }
{
    match end {
        RoundEnd::Installed => !is_over,
        RoundEnd::NotInstalled | RoundEnd::Idle | RoundEnd::Refused(_) => false,
    }
}
