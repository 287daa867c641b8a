//! A plain slow model of a store and its nodes: the list of writes, the versions by number, and what is known of claims and messages.

ghost use Rattle.std.specs.Prelude.{◌<◌};

use bytes::Bytes;
use lsm_claim::JobId;
use lsm_coord::{ShownVersion, SnapId};
use lsm_key::Op;
use lsm_msg::NodeIndex;
use std::alloc::{AllocError, Global};

/// How many dispatchers, workers and followers there are of each.
const NODES: usize = 4;

/// A file and its level.
#[derive(Clone, Copy)]
pub(crate) struct ModelFile {
    pub(crate) level: u8,
    pub(crate) file: u64,
}

/// A version, as its number names it.
#[derive(Drop)]
pub(crate) struct ModelVersion {
    /// Every write up to it is in the files.
    pub(crate) flushed: u64,
    /// By number.
    pub(crate) files: Vec<ModelFile>,
}

/// A job whose claim a dispatcher holds.
#[derive(Drop)]
pub(crate) struct Held {
    pub(crate) id: JobId,
    pub(crate) level: u8,
    pub(crate) inputs: Vec<u64>,
}

/// What is known of a message from the reply that sent it.
#[derive(Clone, Copy)]
pub(crate) struct Note {
    /// The worker or the follower that sent it or is to get it.
    pub(crate) node: NodeIndex,
    pub(crate) kind: NoteKind,
}

/// Between which nodes a message goes.
#[derive(Clone, Copy)]
pub(crate) enum NoteKind {
    /// A job for a worker.
    Job(JobId),
    /// A fetch of a worker.
    WorkerRequest,
    /// What the coordinator answered a worker.
    WorkerAnswer,
    /// An ask or a fetch of a follower.
    FollowerRequest,
    /// What the coordinator answered a follower.
    FollowerAnswer,
    /// The result of a job from a worker, for its dispatcher.
    Result(JobId),
}

/// What the store has accepted, and what its nodes hold.
#[derive(Drop)]
pub(crate) struct Model {
    pub(crate) alloc: Global,
    /// Level 0 is due from this many files on.
    pub(crate) l0: u64,
    /// The sequence of a write is its place, from 1.
    pub(crate) writes: Vec<Op>,
    /// By number from 0.
    pub(crate) versions: Vec<ModelVersion>,
    /// The live ones, each with the sequence that it reads at.
    pub(crate) snapshots: Vec<(SnapId, u64)>,
    /// How many this epoch has made.
    pub(crate) made: u64,
    pub(crate) epoch: u64,
    /// The least version whose files are still served.
    pub(crate) floor: u64,
    pub(crate) next_file: u64,
    /// How many jobs this epoch has picked.
    pub(crate) picked: u64,
    /// By dispatcher.
    pub(crate) held: [Option<Held>; NODES],
    /// The job that each worker collects.
    pub(crate) collected: [Option<JobId>; NODES],
    /// The version of each follower.
    pub(crate) followers: [u64; NODES],
    /// By number from 1.
    pub(crate) messages: Vec<Note>,
}

/// Where a node stands among those of its kind.
pub(crate) fn place_of(node: NodeIndex) -> usize
    ensures { result < 4 }
{
    node.number() as usize - 1
}

impl Model {
    /// A new store, whose first edit began its first epoch.
    pub(crate) fn new(alloc: Global, l0: u64) -> Result<Model, AllocError> {
        let mut versions = Vec::new(alloc);
        for _ in 0..2 {
            versions.push(ModelVersion {
                flushed: 0,
                files: Vec::new(alloc),
            })?;
        }
        Ok(Model {
            alloc,
            l0,
            writes: Vec::new(alloc),
            versions,
            snapshots: Vec::new(alloc),
            made: 0,
            epoch: 1,
            floor: 1,
            next_file: 1,
            picked: 0,
            held: [None, None, None, None],
            collected: [None; NODES],
            followers: [0; NODES],
            messages: Vec::new(alloc),
        })
    }

    /// The sequence of the last write.
    pub(crate) fn last_seq(&self) -> u64 {
        self.writes.len() as u64
    }

    /// The number that the next version gets.
    pub(crate) fn next_version(&self) -> u64 {
        self.versions.len() as u64
    }

    /// The number of the current version.
    pub(crate) fn current(&self) -> u64 {
        self.next_version().saturating_sub(1)
    }

    /// The version of a number.
    pub(crate) fn version(&self, number: u64) -> Option<&ModelVersion> {
        self.versions.get(number as usize)
    }

    /// The flushed sequence of a version.
    pub(crate) fn flushed(&self, number: u64) -> u64 {
        self.version(number).map_or(0, |version| version.flushed)
    }

    /// The files of a version.
    pub(crate) fn files(&self, number: u64) -> &[ModelFile] {
        match self.version(number) {
            None => &[],
            Some(version) => version.files.as_slice(),
        }
    }

    /// How many messages were sent.
    pub(crate) fn sent(&self) -> u64 {
        self.messages.len() as u64
    }

    /// What is known of the message of a number.
    pub(crate) fn note(&self, number: u64) -> Option<Note> {
        if number == 0 {
            return None;
        }
        self.messages.get((number - 1) as usize).copied()
    }

    /// The value that the newest write of a key leaves, among those up to a sequence.
    pub(crate) fn newest(&self, key: &Bytes, point: u64) -> Option<&Bytes> {
        let up_to = (point as usize).min(self.writes.len());
        let newest = self.writes.as_slice()[..up_to]
            .iter()
            .rev()
            .find(|op| op.key() == key)?;
        match newest {
            Op::Put(_, value) => Some(value),
            Op::Delete(_) => None,
        }
    }

    /// The sequence of a read: the latest, or that of a live snapshot.
    pub(crate) fn point(&self, at: Option<SnapId>) -> Option<u64> {
        let Some(id) = at else {
            return Some(self.last_seq());
        };
        let live = self.snapshots.iter().find(|live| live.0 == id)?;
        Some(live.1)
    }

    /// Whether a version from this number on lists the file.
    pub(crate) fn lists(&self, from: u64, file: u64) -> bool {
        let from = (from as usize).min(self.versions.len());
        self.versions.as_slice()[from..].iter().any(|version| version
            .files
            .iter()
            .any(|place| place.file == file))
    }

    /// Whether a listing is that of the version of a number.
    pub(crate) fn shows(&self, number: u64, shown: &ShownVersion) -> bool {
        let wanted = self.files(number);
        let files = shown.files.as_slice();
        shown.number.number() == number
            && shown.flushed.number() == self.flushed(number)
            && files.len() == wanted.len()
            && files.iter().zip(wanted).all(|(file, place)| file.level == place.level
                && file.number == place.file)
    }

    /// Adds a version: the current one without some files, and with new ones of a level.
    pub(crate) fn add_version(
        &mut self,
        flushed: u64,
        removed: &[u64],
        level: u8,
        added: u64,
    ) -> Result<(), AllocError> {
        let mut files = Vec::new(self.alloc);
        for place in self.files(self.current()) {
            if !removed.contains(&place.file) {
                files.push(*place)?;
            }
        }
        for file in self.next_file..self.next_file.saturating_add(added) {
            files.push(ModelFile { level, file })?;
        }
        self.versions.push(ModelVersion { flushed, files })?;
        self.next_file = self.next_file.saturating_add(added);
        Ok(())
    }

    /// Whether a job is live: its claim is held, and of this epoch.
    pub(crate) fn is_live(&self, held: &Option<Held>) -> bool {
        match held {
            None => false,
            Some(held) => held.id.epoch == self.epoch,
        }
    }
}
