//! What followers do: they take messages, ask, read, list their version, and start anew.

ghost use Rattle.std.specs.Prelude.{◌≡◌, ◌⊎◌, ◌≤◌, All, IfOk, OnErr};
ghost use Rattle.std.specs.Option.{option_copied};
ghost use Rattle.lsm_follow.specs.Followers.{new_follower};
ghost use Rattle.lsm_msg.specs.Messages.{IsMessage};
ghost use Rattle.lsm_world.specs.declared.event.Event.TheVariants.{Ask, Read, RestartFollower, ShowFollower};
ghost use Rattle.lsm_world.specs.declared.refusal.Refusal.TheVariants.{OutOfMemory};
ghost use Rattle.lsm_world.specs.declared.reply.Reply.TheVariants.{Refused};
ghost use Rattle.lsm_world.specs.Asks.Followers.{IsFollowed, follower_reply, looked_up};
ghost use Rattle.lsm_world.specs.Asks.Network.{AsksNetwork};
ghost use Rattle.lsm_world.specs.Memory.{LacksMemory};
ghost use Rattle.lsm_world.specs.Inner.Handing.{IsStored};
ghost use Rattle.lsm_world.specs.Inner.Working.{HasFollowed, IsSoundAsk, KeepsNetwork};
ghost use Rattle.lsm_world.specs.Schedules.{first_followers};

use super::{Network, send_all};
use crate::four::Four;
use crate::refusal::Refusal;
use crate::reply::{Reply, Sent};
use bytes::Bytes;
use lsm_coord::ShownVersion;
use lsm_follow::{FollowChange, Follower};
use lsm_key::VersionNumber;
use lsm_msg::{Message, NodeIndex};
use std::alloc::{AllocError, Global};

impl Network {
    // Lets a follower have a message that was sent.
    pub(super) fn follow(&mut self, index: NodeIndex, message: &Message) -> Reply
        requires { IsStored self.old.messages message.now }
        ensures follows { LacksMemory self.old result self.new ⊎ IsFollowed self.old index message.now.body result self.new }
        ensures keeps { KeepsNetwork self.old self.new }
    {
        match tell(self.alloc, &mut self.followers, index, message) {
            Err(_) => Reply::Refused(Refusal::OutOfMemory),
            Ok((change, sent)) => reply_of(change, send_all(&mut self.messages, sent)),
        }
    }

    // Lets a follower ask what comes after its version.
    pub(super) fn ask(&mut self, index: NodeIndex) -> Reply
        ensures asks { AsksNetwork self.old (Ask index) result self.new }
        ensures keeps { KeepsNetwork self.old self.new }
        ensures sound { IsSoundAsk self.old (Ask index) }
    {
        let message = self.followers.get(index).ask();
        Reply::Asked(self.messages.send_one(&message))
    }

    // Reads a key at a follower's version.
    pub(super) fn read(&self, index: NodeIndex, key: &Bytes) -> Reply
        ensures asks { (result ≡ Refused OutOfMemory) ⊎ AsksNetwork self.now (Read index key.now) result self.now }
        ensures sound { IsSoundAsk self.now (Read index key.now) }
    {
        let follower = self.followers.get(index);
        // Proof hint: the tables are those of the version.
        let _listing = follower.served().listing();
        let (number, found) = follower.read(key.as_slice());
        match copy_of(self.alloc, found) {
            Err(_) => Reply::Refused(Refusal::OutOfMemory),
            Ok(value) => Reply::ReadAt(VersionNumber::new(number), value),
        }
    }

    // Lists a follower's version.
    pub(super) fn show(&self, index: NodeIndex) -> Reply
        ensures asks { (result ≡ Refused OutOfMemory) ⊎ AsksNetwork self.now (ShowFollower index) result self.now }
        ensures sound { IsSoundAsk self.now (ShowFollower index) }
    {
        match ShownVersion::of(self.alloc, self.followers.get(index).show()) {
            Err(_) => Reply::Refused(Refusal::OutOfMemory),
            Ok(version) => Reply::Shown(version),
        }
    }

    // Starts a follower anew.
    pub(super) fn restart_follower(&mut self, index: NodeIndex) -> Reply
        ensures asks { AsksNetwork self.old (RestartFollower index) result self.new }
        ensures keeps { KeepsNetwork self.old self.new }
        ensures sound { IsSoundAsk self.old (RestartFollower index) }
    {
        let mut follower = self
            .followers
            .replace(index, Follower::new(self.alloc, index));
        follower.restart();
        self.followers.replace(index, follower);
        Reply::RestartedFollower(index)
    }
}

/// Four followers at version 0.
pub(super) fn new_followers(alloc: Global) -> Four<Follower>
    ensures { result ≡ first_followers }
{
    Four::new(
        follower(alloc, 1),
        follower(alloc, 2),
        follower(alloc, 3),
        follower(alloc, 4),
    )
}

// The follower of this number, at version 0.
fn follower(alloc: Global, number: u8) -> Follower
    requires low { 1 ≤ number }
    requires high { number ≤ 4 }
    ensures { result ≡ new_follower number }
{
    Follower::new(alloc, NodeIndex::new(number).unwrap())
}

// The same value, in memory of its own.
fn copy_of(alloc: Global, value: Option<&[u8]>) -> Result<Option<Bytes>, AllocError>
    ensures { IfOk result (λ copy. copy ≡ option_copied value.entry) }
{
    match value {
        None => Ok(None),
        Some(value) => Ok(Some(Bytes::copy_from_slice(alloc, value)?)),
    }
}

// Lets the follower of an index have a message.
fn tell(
    alloc: Global,
    followers: &mut Four<Follower>,
    index: NodeIndex,
    message: &Message,
) -> Result<(FollowChange, Vec<Message>), AllocError>
    ensures ok { IfOk result (λ r. HasFollowed followers.old index message.now.body r.0 r.1.items followers.new) }
    ensures err { OnErr result (followers.new ≡ followers.old) }
    ensures sound { IfOk result (λ r. All IsMessage r.1.items) }
{
    let mut follower = followers.replace(index, Follower::new(alloc, index));
    let done = follower.on_message(message);
    followers.replace(index, follower);
    done
}

// The reply to a message that reached a follower.
fn reply_of(change: FollowChange, sent: Sent) -> Reply
    ensures { result ≡ follower_reply change sent }
{
    match change {
        FollowChange::Waiting(missing) => Reply::Waiting(missing, sent),
        FollowChange::Version(number) => Reply::Advanced(VersionNumber::new(number)),
        FollowChange::Dropped => Reply::Dropped,
        FollowChange::Current => Reply::Current,
        FollowChange::Ignored => Reply::Ignored,
    }
}
