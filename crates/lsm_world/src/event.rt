//! What happens to a store and its nodes.

ghost use Rattle.std.specs.Prelude.{◌≡◌, IfOk};

use bytes::Bytes;
use lsm_coord::{ScanRange, SnapId};
use lsm_key::{Items, Op, VersionNumber};
use lsm_msg::NodeIndex;
use std::alloc::{AllocError, Global};

/// One event of a schedule.
#[derive(Debug, Drop)]
pub enum Event {
    /// Write these operations as one batch.
    Write(Items<Op>),
    /// Freeze the memtable, so that writes go to a new one.
    Freeze,
    /// Write a memtable as a table.
    Flush,
    /// Make a snapshot of the latest state.
    Snap,
    /// Release a snapshot.
    Release(SnapId),
    /// Read a key, latest or at a snapshot.
    Get(Bytes, Option<SnapId>),
    /// Read a range of keys, latest or at a snapshot.
    Scan(ScanRange),
    /// List the coordinator's version.
    Show,
    /// Raise the floor to a version, and let go the tables that only versions below it list.
    Trim(VersionNumber),
    /// Let a dispatcher pick a job and send it to its worker.
    Pick(NodeIndex),
    /// Let a dispatcher give its job back.
    GiveUp(NodeIndex),
    /// Deliver the message of this number, from 1, to its receiver, for the first time or once more.
    Deliver(u64),
    /// Stop the coordinator, if it is up, and open it again over what its vault has.
    RestartCoordinator,
    /// Start a worker anew.
    RestartWorker(NodeIndex),
    /// Let a follower ask the coordinator what comes after its version.
    Ask(NodeIndex),
    /// Read a key at a follower's version.
    Read(NodeIndex, Bytes),
    /// List a follower's version.
    ShowFollower(NodeIndex),
    /// Start a follower anew: it is at version 0 again.
    RestartFollower(NodeIndex),
}

impl Event {
    /// The same event. Keys and values share the bytes.
    pub fn copy(&self, alloc: Global) -> Result<Event, AllocError>
        ensures { IfOk result (λ copy. copy ≡ self.now) }
    {
        match self {
            Event::Write(ops) => {
                let ops = ops.as_slice().to_vec(alloc)?;
                Ok(Event::Write(Items::from_vec(ops)))
            }
            Event::Freeze => Ok(Event::Freeze),
            Event::Flush => Ok(Event::Flush),
            Event::Snap => Ok(Event::Snap),
            Event::Release(id) => Ok(Event::Release(*id)),
            Event::Get(key, at) => Ok(Event::Get(key.clone()?, *at)),
            Event::Scan(range) => Ok(Event::Scan(range.copy()?)),
            Event::Show => Ok(Event::Show),
            Event::Trim(number) => Ok(Event::Trim(*number)),
            Event::Pick(dispatcher) => Ok(Event::Pick(*dispatcher)),
            Event::GiveUp(dispatcher) => Ok(Event::GiveUp(*dispatcher)),
            Event::Deliver(message) => Ok(Event::Deliver(*message)),
            Event::RestartCoordinator => Ok(Event::RestartCoordinator),
            Event::RestartWorker(worker) => Ok(Event::RestartWorker(*worker)),
            Event::Ask(follower) => Ok(Event::Ask(*follower)),
            Event::Read(follower, key) => Ok(Event::Read(*follower, key.clone()?)),
            Event::ShowFollower(follower) => Ok(Event::ShowFollower(*follower)),
            Event::RestartFollower(follower) => Ok(Event::RestartFollower(*follower)),
        }
    }
}
