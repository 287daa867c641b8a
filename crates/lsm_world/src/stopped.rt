//! The nodes of a store whose coordinator is down.

ghost use Rattle.std.specs.Prelude.{◌≡◌, ◌⊎◌};
ghost use Rattle.lsm_key.specs.Limits.{batch_fault};
ghost use Rattle.lsm_world.specs.Asks.WhileDown.{AsksDown, DeliversDown, down_write};
ghost use Rattle.lsm_world.specs.Memory.{LacksMemory};
ghost use Rattle.lsm_world.specs.declared.event.Event.TheVariants.{Deliver};
ghost use Rattle.lsm_world.specs.Inner.Handing.{IsForCoordinator};
ghost use Rattle.lsm_world.specs.declared.refusal.Refusal.TheVariants.{Down, OutOfMemory};
ghost use Rattle.lsm_world.specs.declared.reply.Reply.TheVariants.{Refused};

use crate::event::Event;
use crate::network::Network;
use crate::refusal::Refusal;
use crate::reply::Reply;
use lsm_claim::ClaimBook;
use lsm_coord::{Desk, Seat};
use lsm_key::{Batch, Items, Limits, Op};
use lsm_msg::{Message, Node};
use lsm_vault::Vault;
use std::alloc::Global;
use std::marker::Model;

/// A vault, four dispatchers, four workers, four followers, and the messages that they sent, with what the next opening takes. It is not
/// `Drop`: a dispatcher may hold a claim, which only `close` settles.
///
/// Invariant: no claim is live in the book, and one history has all that the vault, the nodes and the messages hold.
pub(crate) struct Stopped<V: Vault> {
    alloc: Global,
    vault: V,
    book: ClaimBook,
    limits: Limits,
    desk: Desk,
    network: Network,
}

impl<V: Vault> Model for Stopped<V> {
    ghost use Rattle.std.specs.Prelude.{◌≡◌, []};
    ghost use Rattle.std.specs.Coded.{codes};
    ghost use Rattle.lsm_vault.specs.Stored.{vault_code};
    ghost use Rattle.lsm_world.specs.History.{History, IsDownHistory};
    ghost use Rattle.lsm_world.specs.Inner.Stopping.{StoppedValue};

    ghost Value = { StoppedValue };

    ghost coded = { Prim.hlevel (codes, vault_code) };

    ghost view = { λ s. record { stored = V.stored s.vault; failures = V.failures s.vault; book = s.book; limits = s.limits; desk = s.desk; network = s.network } };

    ghost invariant = { λ s. (s.book.live ≡ []) × (h : History) × IsDownHistory h (V.stored s.vault) s.desk s.network };
}

impl<V: Vault> Stopped<V> {
    ghost use Rattle.std.specs.Prelude.{◌≡◌, ◌⊎◌, ℕ, []};
    ghost use Rattle.lsm_coord.specs.Model.Event as say;
    ghost use Rattle.lsm_world.specs.Events.{event_of};
    ghost use Rattle.lsm_world.specs.Replies.{reply_of};
    ghost use Rattle.lsm_coord.specs.Contract.Restarts.{seat_of};
    ghost use Rattle.lsm_world.specs.History.{History, IsDownHistory};
    ghost use Rattle.lsm_world.specs.Inner.Handing.{IsNoRestart, IsOther, IsStored};
    ghost use Rattle.lsm_world.specs.Inner.Stopping.{down_store};
    ghost use Rattle.lsm_world.specs.Memory.{IsNotShort};
    ghost use Rattle.lsm_world.specs.Shown.{FollowsStore};

    /// Lets a worker or a follower answer an event, or refuses what the coordinator or a dispatcher is asked.
    pub(crate) fn answer(&mut self, event: &Event) -> Reply
        requires { IsNoRestart event.now }
        ensures asks { LacksMemory (down_store self.old) result (down_store self.new) ⊎ AsksDown (down_store self.old) event.now result (down_store self.new) }
        ensures follows { FollowsStore (down_store self.old) (event_of event.now) (reply_of result) (down_store self.new) }
        ensures memory { IsNotShort event.now result }
    {
        match event {
            Event::Write(ops) => refused_write(self.alloc, ops),
            Event::Deliver(message) => self.deliver(*message),
            Event::RestartWorker(_)
            | Event::RestartFollower(_)
            | Event::Ask(_)
            | Event::Read(_, _)
            | Event::ShowFollower(_) => self.network.answer(event),
            _ => refuse(event),
        }
    }

    // Delivers the message of a number, if it is for a worker or a follower.
    fn deliver(&mut self, number: u64) -> Reply
        ensures asks { LacksMemory (down_store self.old) result (down_store self.new) ⊎ AsksDown (down_store self.old) (Deliver number) result (down_store self.new) }
        ensures follows { FollowsStore (down_store self.old) (event_of (Deliver number)) (reply_of result) (down_store self.new) }
    {
        match self.network.message(number) {
            Err(why) => Reply::Refused(why),
            Ok(message) => self.hand_over(&message),
        }
    }

    // Lets its receiver have a message that was sent.
    fn hand_over(&mut self, message: &Message) -> Reply
        requires stored { IsStored self.old.network.messages message.now }
        ensures asks { LacksMemory (down_store self.old) result (down_store self.new) ⊎ DeliversDown (down_store self.old) message.now message.now.dst result (down_store self.new) }
        ensures follows { (number : ℕ) → FollowsStore (down_store self.old) (say.Deliver number) (reply_of result) (down_store self.new) }
    {
        match message.dst {
            Node::Coordinator => Reply::Refused(Refusal::Down),
            Node::Worker(_) | Node::Follower(_) => self.pass_on(message),
        }
    }

    // Lets a worker or a follower have it.
    fn pass_on(&mut self, message: &Message) -> Reply
        requires other { IsOther message.now.dst }
        requires stored { IsStored self.old.network.messages message.now }
        ensures asks { LacksMemory (down_store self.old) result (down_store self.new) ⊎ DeliversDown (down_store self.old) message.now message.now.dst result (down_store self.new) }
        ensures follows { (number : ℕ) → FollowsStore (down_store self.old) (say.Deliver number) (reply_of result) (down_store self.new) }
    {
        self.network.hand_over(message)
    }

    /// The nodes with these parts.
    pub(crate) fn of(
        alloc: Global,
        vault: V,
        book: ClaimBook,
        limits: Limits,
        desk: Desk,
        network: Network,
    ) -> Stopped<V>
        requires idle { book.live ≡ [] }
        requires history { (h : History) × IsDownHistory h (V.stored vault) desk network }
        ensures { result ≡ record { stored = V.stored vault; failures = V.failures vault; book = book; limits = limits; desk = desk; network = network } }
    {
        Stopped {
            alloc,
            vault,
            book,
            limits,
            desk,
            network,
        }
    }

    /// The seat, and what goes on without a coordinator.
    pub(crate) fn parts(self) -> (Seat<V>, Desk, Network)
        ensures seat { seat_of V.stored V.failures result.0 ≡ (down_store self).seat }
        ensures desk { result.1 ≡ self.desk }
        ensures network { result.2 ≡ self.network }
        ensures history { (h : History) × IsDownHistory h self.stored self.desk self.network }
    {
        self.known();
        let Stopped {
            alloc: _,
            vault,
            book,
            limits,
            desk,
            network,
        } = self;
        (Seat::Down(vault, book, limits), desk, network)
    }

    /// Proof hint: the nodes' invariant.
    pub(crate) fn known(&self)
        ensures idle { self.now.book.live ≡ [] }
        ensures history { (h : History) × IsDownHistory h self.now.stored self.now.desk self.now.network }
    {
        let _vault = &self.vault;
    }
}

// Refuses what the coordinator or a dispatcher is asked.
fn refuse(event: &Event) -> Reply
    requires { IsForCoordinator event.now }
    ensures own { IsForCoordinator event.now }
    ensures down { result ≡ Refused Down }
{
    let _asked = event;
    Reply::Refused(Refusal::Down)
}

// What a write is refused for: its batch, or that the coordinator is down.
fn refused_write(alloc: Global, ops: &Items<Op>) -> Reply
    ensures { (result ≡ Refused OutOfMemory) ⊎ (result ≡ Refused (down_write (batch_fault ops.now))) }
{
    let Ok(ops) = ops.as_slice().to_vec(alloc) else {
        return Reply::Refused(Refusal::OutOfMemory);
    };
    match Batch::from_vec(ops) {
        Err(error) => Reply::Refused(Refusal::Key(error)),
        Ok(_) => Reply::Refused(Refusal::Down),
    }
}
