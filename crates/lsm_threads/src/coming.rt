//! A follower and what answers it, in two threads.

ghost use Rattle.std.specs.Prelude.{◌≡◌, ◌≢◌, ◌≤◌, IfErr, IfOk};
ghost use mathlib.Core.List.{IsPrefix};
ghost use Rattle.lsm_threads.specs.Endings.{EndsAt, IsOfMail};
ghost use Rattle.lsm_threads.specs.Following.{IsInStep, LeavesFollower, IsShown};
ghost use Rattle.lsm_threads.specs.declared.ending.Ending.TheVariants.{OutOfMemory};

use crate::ending::{Ending, OfMail};
use crate::follower::follower_loop;
use crate::mail::ChannelPort;
use crate::serve::serve_loop;
use bytes::Bytes;
use crossbeam_channel::{Receiver, Sender, unbounded};
use lsm_follow::Follower;
use lsm_key::VersionNumber;
use lsm_nodes::{Hub, Start, Witness};
use lsm_readers::{LogName, Publisher};
use lsm_vault::Vault;
use std::alloc::Global;
use std::sync::Wait;
use std::thread;
use std::thread::Threads;

/// Lets a follower come to the goal, or to the current version, by `follower_loop`, beside the loop that answers it in a thread of its own,
/// and returns how it ended; if a channel was closed, how what answers it ended. Refuses if there is no memory for channels, or no thread
/// can be made, and hands both back.
#[tactic(auto, using(crate::proofs::Ended::left_by_cause))]
pub fn come_to<
    'a,
    V: Vault + Send,
    J: Start + LogName + Send + Sync,
    N: Witness + Drop + Send,
    R: Threads + Wait + Sync,
>(
    rt: &'a R,
    alloc: Global,
    hub: &Hub<V, J, N>,
    follower: Follower,
    writer: Publisher<J, &'a R>,
    goal: VersionNumber,
) -> Result<(Follower, Publisher<J, &'a R>, Ending), (Follower, Publisher<J, &'a R>)>
    requires { IsInStep follower.served writer.taken }
    ensures onward { IfOk result (λ r. follower.served.version.number ≤ r.0.served.version.number) }
    ensures in_step { IfOk result (λ r. IsInStep r.0.served r.1.taken) }
    ensures taken { IfOk result (λ r. IsPrefix writer.entry.taken r.1.taken) }
    ensures shown { IfOk result (λ r. r.2 ≢ OutOfMemory → IsShown r.0.served r.1) }
    ensures ends { IfOk result (λ r. EndsAt goal r.0.served.version.number r.2) }
    ensures refused { IfErr result (λ r. (r.0 ≡ follower) × (r.1 ≡ writer.entry)) }
{
    let Ok((to_coordinator, questions)) = unbounded(alloc) else {
        return Err((follower, writer));
    };
    let Ok((answers, inbox)) = unbounded(alloc) else {
        return Err((follower, writer));
    };
    thread::scope(
        thread::scope_env(),
        rt,
        move |scope| -> Result<(Follower, Publisher<J, &R>, Ending), (Follower, Publisher<J, &R>)>
            requires { IsInStep follower.served writer.taken }
            ensures ok { IfOk result (λ r. (follower.served.version.number ≤ r.0.served.version.number) × IsInStep r.0.served r.1.taken × IsPrefix writer.entry.taken r.1.taken × LeavesFollower goal r.0.served r.1 r.2) }
            ensures err { IfErr result (λ r. (r.0 ≡ follower) × (r.1 ≡ writer.entry)) }
        {
            let answering = scope.spawn_with(
                OfMail,
                move || -> Ending
                    ensures { IsOfMail result }
                { serve(rt, alloc, hub, questions, answers) },
            );
            let Ok(answering) = answering else {
                return Err((follower, writer));
            };
            let mut port = ChannelPort::new(rt, alloc, inbox, to_coordinator);
            let (follower, writer, ending) = follower_loop(rt, follower, writer, &mut port, goal);
            drop(port);
            Ok((follower, writer, ending.cause(answering.join(rt))))
        },
    )
}

// The loop that answers a follower, and how it ended.
fn serve<V: Vault, J: Start, N: Witness + Drop, R: Wait>(
    rt: &R,
    alloc: Global,
    hub: &Hub<V, J, N>,
    from: Receiver<Bytes>,
    to: Sender<Bytes>,
) -> Ending
    ensures { IsOfMail result }
{
    let mut port = ChannelPort::new(rt, alloc, from, to);
    serve_loop(rt, hub, &mut port)
}
