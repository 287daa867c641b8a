//! The nodes of a store, and what an event asks of them.

mod claims;
mod deliver;
mod install;

use crate::coordinator::{self, know_fit};
use crate::event::Event;
use crate::network::Network;
use crate::reply::Reply;
use lsm_coord::{Coord, Desk};
use lsm_vault::Vault;
use std::alloc::Global;
use std::marker::Model;

/// A coordinator, four dispatchers, four workers, four followers, and the messages that they sent. It is not `Drop`: a dispatcher may hold a
/// claim, which only a close settles.
///
/// Invariant: one history of versions, files and jobs has all that the nodes and the messages hold.
pub(crate) struct Nodes<V: Vault> {
    alloc: Global,
    coord: Coord<V>,
    desk: Desk,
    network: Network,
}

impl<V: Vault> Model for Nodes<V> {
    ghost use Rattle.std.specs.Coded.{codes};
    ghost use Rattle.lsm_vault.specs.Stored.{vault_code};
    ghost use Rattle.lsm_world.specs.History.{History, IsHistory};
    ghost use Rattle.lsm_world.specs.Nodes.{NodesValue, nodes_of};

    ghost Value = { NodesValue };

    ghost coded = { Prim.hlevel (codes, vault_code) };

    ghost view = { λ n. nodes_of n.coord n.desk n.network };

    ghost invariant = { λ n. (h : History) × IsHistory h (nodes_of n.coord n.desk n.network) };
}

impl<V: Vault> Nodes<V> {
    ghost use Rattle.std.specs.Prelude.{◌≡◌};
    ghost use Rattle.lsm_coord.specs.Contract.Memory.{IsFit};
    ghost use Rattle.lsm_coord.specs.Contract.Shows.{Shows};
    ghost use Rattle.std.specs.FinMap.{empty};
    ghost use Rattle.lsm_claim.specs.Book.{new_book};
    ghost use Rattle.lsm_coord.specs.Model.State.{State, first_state};
    ghost use Rattle.lsm_world.specs.Asks.WhileUp.{Asks};
    ghost use Rattle.lsm_world.specs.Events.{event_of};
    ghost use Rattle.lsm_world.specs.History.{History, IsHistory};
    ghost use Rattle.lsm_world.specs.Inner.Handing.{IsNoRestart};
    ghost use Rattle.lsm_world.specs.Memory.{IsNotShort};
    ghost use Rattle.lsm_world.specs.Replies.{reply_of};
    ghost use Rattle.lsm_world.specs.Nodes.{nodes_of, up_store};
    ghost use Rattle.lsm_world.specs.Schedules.{AreNew, IsPlain};
    ghost use Rattle.lsm_world.specs.Shown.{FollowsStore};

    /// The nodes of a new store, whose coordinator was just opened. None has been asked.
    pub(crate) fn new(alloc: Global, coord: Coord<V>) -> Nodes<V>
        requires shown { Shows coord first_state }
        requires book { coord.book ≡ new_book 1 }
        requires kept { coord.stored.tables ≡ empty }
        ensures new { AreNew coord.limits result }
        ensures core { result.core ≡ coord }
        ensures fit { IsFit result.core }
    {
        // Proof hint: the history of a new store has no file.
        know_fit(&coord);
        Nodes {
            alloc,
            coord,
            desk: Desk::new(),
            network: Network::new(alloc),
        }
    }

    /// Lets one node answer an event.
    pub(crate) fn answer(&mut self, event: &Event) -> Reply
        requires shown { (s : State) × Shows self.old.core s }
        requires other { IsNoRestart event.now }
        ensures asks { Asks self.old event.now result self.new }
        ensures follows { FollowsStore (up_store self.old) (event_of event.now) (reply_of result) (up_store self.new) }
        ensures plain { IsPlain result }
        ensures memory { IsNotShort event.now result }
    {
        match event {
            Event::Pick(dispatcher) => self.pick(*dispatcher),
            Event::GiveUp(dispatcher) => self.give_up(*dispatcher),
            Event::Deliver(message) => self.deliver(*message),
            Event::RestartWorker(_)
            | Event::RestartFollower(_)
            | Event::Ask(_)
            | Event::Read(_, _)
            | Event::ShowFollower(_) => self.network.answer(event),
            _ => coordinator::answer(self.alloc, &mut self.coord, event),
        }
    }

    /// Proof hint: the nodes' invariant.
    pub(crate) fn known(&self)
        ensures history { (h : History) × IsHistory h self.now }
        ensures fit { IsFit self.now.core }
    {
        know_fit(&self.coord);
    }

    /// The coordinator, the dispatchers, and the other nodes with the messages.
    pub(crate) fn parts(self) -> (Coord<V>, Desk, Network)
        ensures core { result.0 ≡ self.core }
        ensures desk { result.1 ≡ self.desk }
        ensures network { result.2 ≡ self.network }
        ensures history { (h : History) × IsHistory h self }
        ensures fit { IsFit self.core }
    {
        self.known();
        let Nodes {
            alloc: _,
            coord,
            desk,
            network,
        } = self;
        (coord, desk, network)
    }

    /// The nodes with these parts.
    pub(crate) fn of(alloc: Global, coord: Coord<V>, desk: Desk, network: Network) -> Nodes<V>
        requires { (h : History) × IsHistory h (nodes_of coord desk network) }
        ensures { result ≡ nodes_of coord desk network }
    {
        Nodes {
            alloc,
            coord,
            desk,
            network,
        }
    }
}
