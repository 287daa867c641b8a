//! Dispatchers: how they pick jobs, and give them back.

ghost use Rattle.std.specs.Prelude.{◌≡◌, ◌≤◌, [], vec_capacity};
ghost use Rattle.lsm_key.specs.declared.limits.TheConstants.{MAX_INPUTS};
ghost use Rattle.lsm_coord.specs.declared.dispatcher.Dispatcher.TheVariants.{Idle, Busy};
ghost use Rattle.lsm_coord.specs.Contract.Desks.{dispatcher_of, with_dispatcher};
ghost use Rattle.lsm_msg.specs.Messages.{IsMessage};
ghost use Rattle.lsm_world.specs.declared.event.Event.TheVariants.{GiveUp, Pick};
ghost use Rattle.lsm_world.specs.Asks.Dispatchers.{TellsJob, job_message};
ghost use Rattle.lsm_world.specs.Asks.WhileUp.{Asks, AsksNode};
ghost use Rattle.lsm_world.specs.Events.{event_of};
ghost use Rattle.lsm_world.specs.Inner.Handing.{TellsPicked, settled_reply};
ghost use Rattle.lsm_world.specs.Memory.{IsNotShort};
ghost use Rattle.lsm_world.specs.Replies.{reply_of};
ghost use Rattle.lsm_world.specs.Nodes.{up_store};
ghost use Rattle.lsm_world.specs.Schedules.{IsPlain};
ghost use Rattle.lsm_world.specs.Shown.{FollowsStore};

use super::Nodes;
use crate::coordinator::know_fit;
use crate::network::Network;
use crate::refusal::Refusal;
use crate::reply::{PickedJob, Reply};
use lsm_claim::{Claim, JobId, Settled};
use lsm_coord::Desk;
use lsm_key::{FileNumber, Items, MAX_INPUTS};
use lsm_msg::{Job, Message, NodeIndex};
use lsm_vault::Vault;

impl<V: Vault> Nodes<V> {
    /// Lets a dispatcher pick a job and send it to its worker. What the reply takes is reserved before the pick, so that a
    /// refusal leaves no claim.
    pub(super) fn pick(&mut self, dispatcher: NodeIndex) -> Reply
        ensures asks { Asks self.old (Pick dispatcher) result self.new }
        ensures follows { FollowsStore (up_store self.old) (event_of (Pick dispatcher)) (reply_of result) (up_store self.new) }
        ensures plain { IsPlain result }
    {
        if self.desk.dispatcher(dispatcher).id().is_some() {
            return Reply::Refused(Refusal::Busy);
        }
        let Ok(inputs) = Vec::with_capacity(self.alloc, MAX_INPUTS) else {
            return Reply::Refused(Refusal::OutOfMemory);
        };
        know_fit(&self.coord);
        match self.coord.pick() {
            Err(error) => Reply::Refused(Refusal::Coord(error)),
            Ok(None) => Reply::Idle,
            Ok(Some((claim, job))) => hand_out(
                &mut self.desk,
                &mut self.network,
                dispatcher,
                claim,
                job,
                inputs,
            ),
        }
    }

    /// Lets a dispatcher give its claim back. Allocates nothing, so it is never refused since memory ran out.
    pub(super) fn give_up(&mut self, dispatcher: NodeIndex) -> Reply
        ensures asks { AsksNode self.old (GiveUp dispatcher) result self.new }
        ensures follows { FollowsStore (up_store self.old) (event_of (GiveUp dispatcher)) (reply_of result) (up_store self.new) }
        ensures plain { IsPlain result }
        ensures memory { IsNotShort (GiveUp dispatcher) result }
    {
        if self.desk.dispatcher(dispatcher).id().is_none() {
            return Reply::Refused(Refusal::NoClaim);
        }
        let Some(claim) = self.desk.take(dispatcher) else {
            unreachable!()
        };
        let id = claim.id();
        returned(id, self.coord.give_back(claim))
    }
}

// The reply to a claim that was given back.
fn returned(id: JobId, settled: Settled) -> Reply
    ensures { result ≡ settled_reply id settled }
{
    match settled {
        Settled::Live => Reply::Returned(id),
        Settled::Stale => Reply::StaleClaim(id),
    }
}

// Lets an idle dispatcher hold a claim, and sends its job.
fn hand_out(
    desk: &mut Desk,
    network: &mut Network,
    dispatcher: NodeIndex,
    claim: Claim,
    job: Job,
    inputs: Vec<FileNumber>,
) -> Reply
    requires idle { dispatcher_of desk.old dispatcher ≡ Idle }
    requires empty { inputs.items ≡ [] }
    requires room { MAX_INPUTS ≤ vec_capacity inputs }
    ensures desk { desk.new ≡ with_dispatcher desk.old dispatcher (Busy claim) }
    ensures reply { TellsPicked network.old.messages dispatcher job result network.new.messages }
    ensures network { network.new ≡ record network.old { messages = network.new.messages } }
    ensures job { IsMessage (job_message dispatcher job) }
{
    let told = picked_job(&job, inputs);
    match desk.hold(dispatcher, claim) {
        None => {}
        Some(_before) => unreachable!(),
    }
    let sent = network.send(&Message::to_worker(dispatcher, job));
    Reply::Picked(told, sent)
}

// What a reply says of a job. Takes no memory.
fn picked_job(job: &Job, inputs: Vec<FileNumber>) -> PickedJob
    requires empty { inputs.items ≡ [] }
    requires room { MAX_INPUTS ≤ vec_capacity inputs }
    ensures { TellsJob result job.now }
{
    let mut inputs = inputs;
    for file in job.inputs() {
        inputs.push_reserved(FileNumber::new(file.number));
    }
    PickedJob {
        id: job.id(),
        level: job.level(),
        inputs: Items::from_vec(inputs),
    }
}
