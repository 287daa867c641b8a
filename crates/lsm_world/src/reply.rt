//! What is answered to an event: the answer of the node that it asks.

ghost use Rattle.std.specs.Prelude.{◌↔◌, IsTrue};
ghost use Rattle.lsm_world.specs.Shortage.{SaysOutOfMemory};

use crate::refusal::Refusal;
use bytes::Bytes;
use lsm_claim::JobId;
use lsm_coord::{CoordError, Flushed, ShownVersion, SnapId};
use lsm_key::{FileNumber, Items, KeyError, Seq, VersionNumber};
use lsm_msg::NodeIndex;
use lsm_versions::OpenError;

/// What became of the messages of an event.
#[derive(Clone, Copy, Debug, PartialEq, Eq)]
pub enum Sent {
    /// There was none.
    Nothing,
    /// They were lost: they could not be encoded or stored. They have no number.
    Lost,
    /// They are under the numbers from the first to the last.
    Messages(u64, u64),
}

/// A job that was picked.
#[derive(Debug, Drop)]
pub struct PickedJob {
    pub id: JobId,
    /// It merges files of this level into the next one.
    pub level: u8,
    /// By number.
    pub inputs: Items<FileNumber>,
}

/// What is answered to an event.
#[derive(Debug, Drop)]
pub enum Reply {
    /// The first and the last sequence of a batch.
    Wrote(Seq, Seq),
    /// The last sequence of the frozen memtable.
    Froze(Seq),
    Flushed(Flushed),
    /// A new snapshot, and the sequence that it reads at.
    Snapped(SnapId, Seq),
    Released(SnapId),
    Got(Option<Bytes>),
    /// The keys of a range, each with its value.
    Scanned(Items<(Bytes, Bytes)>),
    Shown(ShownVersion),
    /// The job that a dispatcher sends to its worker.
    Picked(PickedJob, Sent),
    /// No job was picked.
    Idle,
    /// The job of a claim that was given back.
    Returned(JobId),
    /// The job of a claim that was given back, but was no longer live.
    StaleClaim(JobId),
    /// The floor, and the numbers of the tables that were let go, ascending.
    Trimmed(VersionNumber, Items<FileNumber>),
    /// The coordinator answered a fetch or an ask.
    Served(Sent),
    /// The version that an install made, and its new files.
    Installed(VersionNumber, Items<FileNumber>),
    /// The message changed nothing.
    Ignored,
    /// A worker lacks this many inputs.
    Collecting(u32, Sent),
    /// A worker merged its inputs, and sends the result.
    Merged(Sent),
    /// A worker gave its job up, or a follower the version that it was to move to.
    Dropped,
    /// The epoch and the version that an opening began, and the last sequence that the vault had.
    Restarted(u64, VersionNumber, Seq),
    RestartedWorker(NodeIndex),
    /// A follower asked what comes after its version.
    Asked(Sent),
    /// A follower's version, and the value that a key has there.
    ReadAt(VersionNumber, Option<Bytes>),
    /// A follower lacks this many tables of the version that it is to move to.
    Waiting(u32, Sent),
    /// A follower serves this version now.
    Advanced(VersionNumber),
    /// A follower serves the current version.
    Current,
    RestartedFollower(NodeIndex),
    Refused(Refusal),
}

impl Reply {
    /// Whether memory ran out: the event was refused for it, or its messages were lost.
    pub fn lacks_memory(&self) -> bool
        ensures { IsTrue result ↔ SaysOutOfMemory self.now }
    {
        match self {
            Reply::Refused(why) => {
                *why == Refusal::NotTaken
                    || *why == Refusal::OutOfMemory
                    || *why == Refusal::Coord(CoordError::OutOfMemory)
                    || *why == Refusal::Key(KeyError::OutOfMemory)
                    || *why == Refusal::Open(OpenError::OutOfMemory)
            }
            Reply::Picked(_, sent)
            | Reply::Served(sent)
            | Reply::Collecting(_, sent)
            | Reply::Merged(sent)
            | Reply::Asked(sent)
            | Reply::Waiting(_, sent) => *sent == Sent::Lost,
            _ => false,
        }
    }
}
