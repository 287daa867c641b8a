//! Deliveries: a message reaches its receiver, the coordinator with its dispatchers, a worker or a follower.

ghost use Rattle.std.specs.Prelude.{◌≡◌, ◌⊎◌, ◌∷◌, [], ℕ};
ghost use Rattle.lsm_coord.specs.Model.Event as say;
ghost use Rattle.lsm_msg.specs.Messages.{IsMessage};
ghost use Rattle.lsm_world.specs.declared.event.Event.TheVariants.{Deliver};
ghost use Rattle.lsm_world.specs.Asks.Deliveries.{Delivers, Receives};
ghost use Rattle.lsm_world.specs.Asks.Messages.{Sends};
ghost use Rattle.lsm_world.specs.Asks.WhileUp.{Asks};
ghost use Rattle.lsm_world.specs.Memory.{LacksMemory};
ghost use Rattle.lsm_world.specs.Events.{event_of};
ghost use Rattle.lsm_world.specs.Inner.Handing.{IsOther, IsQuestion, IsStored};
ghost use Rattle.lsm_world.specs.Nodes.{up_store};
ghost use Rattle.lsm_world.specs.Replies.{reply_of};
ghost use Rattle.lsm_world.specs.Schedules.{IsPlain};
ghost use Rattle.lsm_world.specs.Shown.{FollowsStore};

use super::Nodes;
use crate::coordinator::know_fit;
use crate::network::Network;
use crate::refusal::Refusal;
use crate::reply::{Reply, Sent};
use lsm_msg::{Body, Message, Node};
use lsm_vault::Vault;

impl<V: Vault> Nodes<V> {
    /// Delivers the message of a number to its receiver.
    pub(super) fn deliver(&mut self, number: u64) -> Reply
        ensures asks { Asks self.old (Deliver number) result self.new }
        ensures follows { FollowsStore (up_store self.old) (event_of (Deliver number)) (reply_of result) (up_store self.new) }
        ensures plain { IsPlain result }
    {
        match self.network.message(number) {
            Err(why) => Reply::Refused(why),
            Ok(message) => self.hand_over(&message),
        }
    }

    // Lets its receiver have a message that was sent.
    fn hand_over(&mut self, message: &Message) -> Reply
        requires stored { IsStored self.old.network.messages message.now }
        ensures asks { LacksMemory self.old result self.new ⊎ Delivers self.old message.now message.now.dst result self.new }
        ensures follows { (number : ℕ) → FollowsStore (up_store self.old) (say.Deliver number) (reply_of result) (up_store self.new) }
        ensures plain { IsPlain result }
    {
        match message.dst {
            Node::Coordinator => self.receive(message),
            Node::Worker(_) | Node::Follower(_) => self.pass_on(message),
        }
    }

    // Lets the coordinator, or a dispatcher, have it.
    fn receive(&mut self, message: &Message) -> Reply
        requires stored { IsStored self.old.network.messages message.now }
        ensures asks { LacksMemory self.old result self.new ⊎ Receives self.old message.now message.now.src message.now.body result self.new }
        ensures follows { (number : ℕ) → FollowsStore (up_store self.old) (say.Deliver number) (reply_of result) (up_store self.new) }
        ensures plain { IsPlain result }
    {
        match (&message.body, message.src) {
            (Body::Fetch(_), _) | (Body::Ask(_), _) => self.serve(message),
            (Body::Result(made), Node::Worker(dispatcher)) => {
                // Proof hint: what was sent is known.
                self.known();
                self.install(dispatcher, made)
            }
            _ => Reply::Ignored,
        }
    }

    // Answers a fetch or an ask.
    fn serve(&mut self, message: &Message) -> Reply
        requires stored { IsStored self.old.network.messages message.now }
        requires question { IsQuestion message.now.body }
        ensures asks { LacksMemory self.old result self.new ⊎ Receives self.old message.now message.now.src message.now.body result self.new }
        ensures follows { (number : ℕ) → FollowsStore (up_store self.old) (say.Deliver number) (reply_of result) (up_store self.new) }
        ensures plain { IsPlain result }
    {
        know_fit(&self.coord);
        match self.coord.serve(message) {
            Err(_) => Reply::Refused(Refusal::OutOfMemory),
            Ok(None) => unreachable!(),
            Ok(Some(answer)) => Reply::Served(send(&mut self.network, answer)),
        }
    }

    // Lets a worker or a follower have it.
    fn pass_on(&mut self, message: &Message) -> Reply
        requires other { IsOther message.now.dst }
        requires stored { IsStored self.old.network.messages message.now }
        ensures asks { LacksMemory self.old result self.new ⊎ Delivers self.old message.now message.now.dst result self.new }
        ensures follows { (number : ℕ) → FollowsStore (up_store self.old) (say.Deliver number) (reply_of result) (up_store self.new) }
        ensures plain { IsPlain result }
    {
        self.network.hand_over(message)
    }
}

// Stores a message.
fn send(network: &mut Network, message: Message) -> Sent
    requires { IsMessage message }
    ensures sends { Sends network.old.messages (message ∷ []) result network.new.messages }
    ensures rest { network.new ≡ record network.old { messages = network.new.messages } }
{
    network.send(&message)
}
