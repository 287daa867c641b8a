//! Followers: which version one serves, and how it is read. What messages do to one stands in `messages`.

ghost use Rattle.std.specs.Prelude.{◌≡◌};

mod messages;

use crate::pending::Pending;
use lsm_edit::{Listing, Served};
use lsm_key::VersionNumber;
use lsm_msg::{Body, Message, NodeIndex};
use std::alloc::Global;
use std::marker::Model;

/// A follower: it serves a version, and may be about to move to another one.
///
/// Invariant: a version that it is to move to is later than the one that it serves, and lacks a table; what has come
/// for it is as its files' records say.
#[derive(Debug, Drop)]
pub struct Follower {
    alloc: Global,
    index: NodeIndex,
    served: Served,
    pending: Option<Pending>,
}

impl Model for Follower {
    ghost use Rattle.lsm_follow.specs.Followers.{FollowerValue};
    ghost use Rattle.lsm_follow.specs.Pending.{IsFollower};

    ghost Value = { FollowerValue };

    ghost view = { λ f. record { index = f.index; served = f.served; pending = f.pending } };

    ghost invariant = { λ f. IsFollower (record { index = f.index; served = f.served; pending = f.pending }) };
}

impl Follower {
    ghost use Rattle.std.specs.Prelude.{◌≡◌};
    ghost use Rattle.std.specs.Option.{option_and_then, option_copied};
    ghost use Rattle.lsm_key.specs.Places.{AreOrdered, all_entries, first_visible};
    ghost use Rattle.lsm_key.specs.Visible.{entry_value, value_at};
    ghost use Rattle.lsm_edit.specs.Served.{tables_of};
    ghost use Rattle.lsm_msg.specs.declared.message.Body.TheVariants as body;
    ghost use Rattle.lsm_msg.specs.declared.node.Node.TheVariants as node;
    ghost use Rattle.lsm_msg.specs.Messages.{IsMessage, to_coordinator};
    ghost use Rattle.lsm_follow.specs.Followers.{new_follower};

    /// The follower of this index, at version 0.
    pub fn new(alloc: Global, index: NodeIndex) -> Follower
        ensures { result ≡ new_follower index }
    {
        Follower {
            alloc,
            index,
            served: Served::new(alloc),
            pending: None,
        }
    }

    /// Forgets all tables, as a follower that is started anew: it serves version 0.
    pub fn restart(&mut self)
        ensures { self.new ≡ new_follower self.old.index }
    {
        self.served = Served::new(self.alloc);
        self.pending = None;
    }

    /// The version with its tables.
    pub fn served(&self) -> &Served
        ensures { result.now ≡ self.now.served }
    {
        &self.served
    }

    /// What the version lists.
    pub fn show(&self) -> Listing<'_>
        ensures number { result.number ≡ self.now.served.version.number }
        ensures flushed { result.flushed ≡ self.now.served.version.flushed }
        ensures files { result.files.now ≡ self.now.served.version.files }
    {
        self.served.listing()
    }

    /// The number of its version, and the value that a key has there: the newest put no later than the version's flushed
    /// sequence, unless a delete is newer. Allocates nothing.
    pub fn read(&self, key: &[u8]) -> (u64, Option<&[u8]>)
        ensures number { result.0 ≡ self.now.served.version.number }
        ensures first { option_copied result.1 ≡ option_and_then entry_value (first_visible (tables_of self.now.served.places) key.now self.now.served.version.flushed) }
        ensures found { AreOrdered (tables_of self.now.served.places) → option_copied result.1 ≡ value_at (all_entries (tables_of self.now.served.places)) key.now self.now.served.version.flushed }
    {
        (self.served.version().number(), self.served.read(key))
    }

    /// Asks the coordinator what comes after its version.
    pub fn ask(&self) -> Message
        ensures all { result ≡ to_coordinator (node.Follower self.now.index) (body.Ask self.now.served.version.number) }
        ensures sound { IsMessage result }
    {
        let number = VersionNumber::new(self.served.version().number());
        Message::from_follower(self.index, Body::Ask(number))
    }
}
