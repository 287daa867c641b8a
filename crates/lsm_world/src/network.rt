//! The workers and the followers, and the messages that all nodes sent. They need no coordinator.

mod followers;

ghost use Rattle.std.specs.Prelude.{◌≡◌, ◌⊎◌, ◌≤◌, ◌∷◌, [], All, IfErr, IfOk, None, OnErr, map};
ghost use Rattle.lsm_msg.specs.Messages.{IsMessage};
ghost use Rattle.lsm_world.specs.declared.refusal.Refusal.TheVariants.{NoMessage, OutOfMemory};
ghost use Rattle.lsm_world.specs.declared.event.Event.TheVariants.{RestartWorker};
ghost use Rattle.lsm_world.specs.Asks.Messages.{Sends, stored_message};
ghost use Rattle.lsm_world.specs.Asks.Network.{AsksNetwork, DeliversOn};
ghost use Rattle.lsm_world.specs.Asks.Workers.{IsWork, worker_reply};
ghost use Rattle.lsm_world.specs.History.{History, IsNetwork, first_indices};
ghost use Rattle.lsm_world.specs.Inner.Handing.{IsOfNetwork, IsOther, IsStored};
ghost use Rattle.lsm_world.specs.Inner.Working.{HasWorked, IsMessageAt, IsSoundAsk, KeepsNetwork};
ghost use Rattle.lsm_world.specs.Memory.{IsNotShort, LacksMemory};
ghost use Rattle.lsm_world.specs.Schedules.{first_followers, idle_worker};

use crate::event::Event;
use crate::four::Four;
use crate::messages::{Messages, message_of};
use crate::refusal::Refusal;
use crate::reply::{Reply, Sent};
use followers::new_followers;
use lsm_follow::Follower;
use lsm_msg::{Message, Node, NodeIndex};
use lsm_work::{WorkChange, Worker};
use std::alloc::{AllocError, Global};
use std::marker::Model;

/// Four workers and four followers, and the messages that were sent.
#[derive(Debug, Drop)]
pub(crate) struct Network {
    alloc: Global,
    workers: Four<Worker>,
    followers: Four<Follower>,
    messages: Messages,
}

impl Model for Network {
    ghost use Rattle.lsm_world.specs.Nodes.{NetworkValue};

    ghost Value = { NetworkValue };

    ghost view = { λ n. record { workers = n.workers; followers = n.followers; messages = n.messages } };
}

impl Network {
    /// Four idle workers, four followers at version 0, and no message.
    pub(crate) fn new(alloc: Global) -> Network
        ensures workers { result.workers ≡ map idle_worker first_indices }
        ensures followers { result.followers ≡ first_followers }
        ensures messages { result.messages ≡ [] }
    {
        let workers = Four::new(
            worker(alloc, 1),
            worker(alloc, 2),
            worker(alloc, 3),
            worker(alloc, 4),
        );
        Network {
            alloc,
            workers,
            followers: new_followers(alloc),
            messages: Messages::new(alloc),
        }
    }

    /// Lets a worker or a follower answer an event.
    pub(crate) fn answer(&mut self, event: &Event) -> Reply
        requires { IsOfNetwork event.now }
        ensures own { IsOfNetwork event.now }
        ensures asks { LacksMemory self.old result self.new ⊎ AsksNetwork self.old event.now result self.new }
        ensures keeps { KeepsNetwork self.old self.new }
        ensures sound { IsSoundAsk self.old event.now }
        ensures memory { IsNotShort event.now result }
    {
        match event {
            Event::RestartWorker(index) => self.restart_worker(*index),
            Event::RestartFollower(index) => self.restart_follower(*index),
            Event::Ask(index) => self.ask(*index),
            Event::Read(index, key) => self.read(*index, key),
            Event::ShowFollower(index) => self.show(*index),
            _ => unreachable!(),
        }
    }

    /// Stores a message under the next number. If memory runs out or it is too large, it is lost, and uses no number.
    pub(crate) fn send(&mut self, message: &Message) -> Sent
        requires { IsMessage message.now }
        ensures sends { Sends self.old.messages (message.now ∷ []) result self.new.messages }
        ensures rest { self.new ≡ record self.old { messages = self.new.messages } }
    {
        self.messages.send_one(message)
    }

    /// The message of a number.
    pub(crate) fn message(&self, number: u64) -> Result<Message, Refusal>
        requires { (h : History) × IsNetwork h self.now }
        ensures ok { IfOk result (λ m. IsMessageAt self.now.messages number m) }
        ensures err { IfErr result (λ why. (why ≡ OutOfMemory) ⊎ ((why ≡ NoMessage) × (stored_message self.now.messages number ≡ None))) }
    {
        let Some(text) = self.messages.text(number) else {
            return Err(Refusal::NoMessage);
        };
        match message_of(self.alloc, text) {
            Err(_) => Err(Refusal::OutOfMemory),
            Ok(message) => Ok(message),
        }
    }

    /// Lets a worker or a follower have a message that was sent.
    pub(crate) fn hand_over(&mut self, message: &Message) -> Reply
        requires other { IsOther message.now.dst }
        requires stored { IsStored self.old.messages message.now }
        ensures delivers { LacksMemory self.old result self.new ⊎ DeliversOn self.old message.now message.now.dst result self.new }
        ensures keeps { KeepsNetwork self.old self.new }
    {
        match message.dst {
            Node::Coordinator => unreachable!(),
            Node::Worker(index) => self.work(index, message),
            Node::Follower(index) => self.follow(index, message),
        }
    }

    // Lets a worker have a message that was sent.
    fn work(&mut self, index: NodeIndex, message: &Message) -> Reply
        requires { IsStored self.old.messages message.now }
        ensures works { LacksMemory self.old result self.new ⊎ IsWork self.old index message.now.body result self.new }
        ensures keeps { KeepsNetwork self.old self.new }
    {
        match tell(self.alloc, &mut self.workers, index, message) {
            Err(_) => Reply::Refused(Refusal::OutOfMemory),
            Ok((change, sent)) => reply_of(change, send_all(&mut self.messages, sent)),
        }
    }

    // Starts a worker anew.
    fn restart_worker(&mut self, index: NodeIndex) -> Reply
        ensures asks { AsksNetwork self.old (RestartWorker index) result self.new }
        ensures keeps { KeepsNetwork self.old self.new }
        ensures sound { IsSoundAsk self.old (RestartWorker index) }
    {
        let mut worker = self.workers.replace(index, Worker::new(self.alloc, index));
        worker.restart();
        self.workers.replace(index, worker);
        Reply::RestartedWorker(index)
    }
}

// The worker of this number, idle.
fn worker(alloc: Global, number: u8) -> Worker
    requires low { 1 ≤ number }
    requires high { number ≤ 4 }
    ensures { result ≡ idle_worker number }
{
    Worker::new(alloc, NodeIndex::new(number).unwrap())
}

// Stores messages.
fn send_all(messages: &mut Messages, sent: Vec<Message>) -> Sent
    requires { All IsMessage sent.items }
    ensures { Sends messages.old sent.items result messages.new }
{
    messages.send(sent.as_slice())
}

// Lets the worker of an index have a message.
fn tell(
    alloc: Global,
    workers: &mut Four<Worker>,
    index: NodeIndex,
    message: &Message,
) -> Result<(WorkChange, Vec<Message>), AllocError>
    ensures ok { IfOk result (λ r. HasWorked workers.old index message.now.body r.0 r.1.items workers.new) }
    ensures err { OnErr result (workers.new ≡ workers.old) }
    ensures sound { IfOk result (λ r. All IsMessage r.1.items) }
{
    let mut worker = workers.replace(index, Worker::new(alloc, index));
    let done = worker.on_message(message);
    workers.replace(index, worker);
    done
}

// The reply to a message that reached a worker.
fn reply_of(change: WorkChange, sent: Sent) -> Reply
    ensures { result ≡ worker_reply change sent }
{
    match change {
        WorkChange::Collecting(missing) => Reply::Collecting(missing, sent),
        WorkChange::Merged => Reply::Merged(sent),
        WorkChange::Dropped => Reply::Dropped,
        WorkChange::Ignored => Reply::Ignored,
    }
}
