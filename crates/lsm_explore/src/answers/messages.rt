//! Messages: which numbers they get, and what a delivery may lead to.

use super::{is_refused, place_of};
use crate::model::{Model, Note, NoteKind};
use lsm_claim::JobId;
use lsm_key::{FileNumber, VersionNumber};
use lsm_msg::NodeIndex;
use lsm_world::{Event, Refusal, Reply, Sent};
use std::alloc::AllocError;

/// Whether a job is of an earlier name than another.
fn is_earlier(job: JobId, other: JobId) -> bool {
    (job.epoch, job.number) < (other.epoch, other.number)
}

impl Model {
    /// Takes this many messages, which must have the next numbers.
    pub(super) fn sends(
        &mut self,
        sent: Sent,
        count: u64,
        note: &Note,
    ) -> Result<bool, AllocError> {
        let first = self.sent().saturating_add(1);
        let last = self.sent().saturating_add(count);
        let wanted = Sent::Messages(first, last);
        if count == 0 || sent != wanted {
            return Ok(false);
        }
        for _ in 0..count {
            self.messages.push(*note)?;
        }
        Ok(true)
    }

    pub(super) fn asked(&mut self, event: &Event, reply: &Reply) -> Result<bool, AllocError> {
        match (event, reply) {
            (Event::Ask(follower), Reply::Asked(sent)) => {
                let node = *follower;
                let kind = NoteKind::FollowerRequest;
                self.sends(*sent, 1, &Note { node, kind })
            }
            _ => Ok(false),
        }
    }

    pub(super) fn delivered(&mut self, number: u64, reply: &Reply) -> Result<bool, AllocError> {
        let Some(Note { node, kind }) = self.note(number) else {
            return Ok(matches!(reply, Reply::Refused(Refusal::NoMessage)));
        };
        match kind {
            NoteKind::Job(id) => self.began(node, id, reply),
            NoteKind::WorkerRequest => self.served(node, NoteKind::WorkerAnswer, reply),
            NoteKind::FollowerRequest => self.served(node, NoteKind::FollowerAnswer, reply),
            NoteKind::WorkerAnswer => self.collects(node, reply),
            NoteKind::FollowerAnswer => self.moved(node, reply),
            NoteKind::Result(id) => self.came_back(node, id, reply),
        }
    }

    // The coordinator answered an ask or a fetch.
    fn served(
        &mut self,
        node: NodeIndex,
        kind: NoteKind,
        reply: &Reply,
    ) -> Result<bool, AllocError> {
        match reply {
            Reply::Served(sent) => self.sends(*sent, 1, &Note { node, kind }),
            _ => Ok(false),
        }
    }

    // A job reached its worker, which takes it unless it collects a later one.
    fn began(&mut self, worker: NodeIndex, id: JobId, reply: &Reply) -> Result<bool, AllocError> {
        let place = place_of(worker);
        match (self.collected[place], reply) {
            (Some(now), Reply::Ignored) => Ok(is_earlier(id, now)),
            (Some(now), _) if is_earlier(id, now) => Ok(false),
            (_, Reply::Collecting(missing, sent)) => {
                let note = Note {
                    node: worker,
                    kind: NoteKind::WorkerRequest,
                };
                if !self.sends(*sent, u64::from(*missing), &note)? {
                    return Ok(false);
                }
                self.collected[place] = Some(id);
                Ok(true)
            }
            _ => Ok(false),
        }
    }

    // A table, or that there is none, reached a worker.
    fn collects(&mut self, worker: NodeIndex, reply: &Reply) -> Result<bool, AllocError> {
        let place = place_of(worker);
        match (self.collected[place], reply) {
            (_, Reply::Ignored) => Ok(true),
            (Some(_), Reply::Collecting(missing, sent)) => {
                Ok(*missing > 0 && *sent == Sent::Nothing)
            }
            (Some(_), Reply::Dropped) => {
                self.collected[place] = None;
                Ok(true)
            }
            (Some(id), Reply::Merged(sent)) => {
                let note = Note {
                    node: worker,
                    kind: NoteKind::Result(id),
                };
                if !self.sends(*sent, 1, &note)? {
                    return Ok(false);
                }
                self.collected[place] = None;
                Ok(true)
            }
            _ => Ok(false),
        }
    }

    // An answer reached a follower, which never moves back, nor past the current version.
    fn moved(&mut self, follower: NodeIndex, reply: &Reply) -> Result<bool, AllocError> {
        let at = self.followers[place_of(follower)];
        match reply {
            Reply::Waiting(missing, Sent::Nothing) => Ok(*missing > 0),
            Reply::Waiting(missing, sent) => {
                let note = Note {
                    node: follower,
                    kind: NoteKind::FollowerRequest,
                };
                self.sends(*sent, u64::from(*missing), &note)
            }
            Reply::Advanced(number) => {
                let to = number.number();
                if to <= at || to > self.current() {
                    return Ok(false);
                }
                self.followers[place_of(follower)] = to;
                Ok(true)
            }
            Reply::Current | Reply::Dropped | Reply::Ignored => Ok(true),
            _ => Ok(false),
        }
    }

    // A result reached its dispatcher: it is installed if the dispatcher holds the claim of its job and the claim is live.
    fn came_back(
        &mut self,
        dispatcher: NodeIndex,
        id: JobId,
        reply: &Reply,
    ) -> Result<bool, AllocError> {
        let place = place_of(dispatcher);
        let is_held = match &self.held[place] {
            None => false,
            Some(held) => held.id == id,
        };
        let is_live = id.epoch == self.epoch;
        match (reply, is_held, is_live) {
            (Reply::Refused(Refusal::NoClaim), false, _) => Ok(true),
            (Reply::Refused(Refusal::OldEpoch), true, false) => {
                self.held[place] = None;
                Ok(true)
            }
            (Reply::Installed(number, files), true, true) => {
                self.installs(dispatcher, *number, files.as_slice())
            }
            _ => Ok(false),
        }
    }

    // A merge replaces the inputs of a held job by new files of the next level.
    fn installs(
        &mut self,
        dispatcher: NodeIndex,
        number: VersionNumber,
        files: &[FileNumber],
    ) -> Result<bool, AllocError> {
        let added = files.len() as u64;
        let next = self.next_file..self.next_file.saturating_add(added);
        if number.number() != self.next_version()
            || !next.eq(files.iter().map(|file| file.number()))
        {
            return Ok(false);
        }
        let Some(job) = self.held[place_of(dispatcher)].take() else {
            return Ok(false);
        };
        let flushed = self.flushed(self.current());
        self.add_version(
            flushed,
            job.inputs.as_slice(),
            job.level.saturating_add(1),
            added,
        )?;
        Ok(true)
    }
}
