//! Which replies the model allows, and the model after them.

mod messages;

use crate::model::{Held, Model, Note, NoteKind, place_of};
use bytes::Bytes;
use lsm_claim::JobId;
use lsm_coord::{CoordError, Flushed, SnapId};
use lsm_key::{FileNumber, Op, Seq, VersionNumber};
use lsm_msg::NodeIndex;
use lsm_world::{Event, PickedJob, Refusal, Reply, Sent};
use std::alloc::AllocError;

/// Whether the replied value is the one that is wanted.
fn is_value(value: &Option<Bytes>, wanted: Option<&Bytes>) -> bool {
    match (value, wanted) {
        (None, None) => true,
        (Some(value), Some(wanted)) => value == wanted,
        _ => false,
    }
}

/// Whether the coordinator refused for this reason.
fn is_refused(reply: &Reply, why: CoordError) -> bool {
    match reply {
        Reply::Refused(refusal) => *refusal == Refusal::Coord(why),
        _ => false,
    }
}

impl Model {
    /// Takes an event with its reply. If the reply is not allowed, the answer is no, and nothing changes.
    pub(crate) fn take(&mut self, event: &Event, reply: &Reply) -> Result<bool, AllocError> {
        match event {
            Event::Write(ops) => self.wrote(ops.as_slice(), reply),
            Event::Flush => self.flush(reply),
            Event::Snap => self.snap(reply),
            Event::Pick(dispatcher) => self.pick(*dispatcher, reply),
            Event::GiveUp(dispatcher) => Ok(self.give_up(*dispatcher, reply)),
            Event::Deliver(message) => self.delivered(*message, reply),
            Event::RestartCoordinator => self.restarted(reply),
            Event::Ask(_) => self.asked(event, reply),
            Event::Trim(number) => Ok(self.trimmed(number.number(), reply)),
            Event::RestartWorker(_) | Event::RestartFollower(_) => Ok(self.started(event, reply)),
            _ => Ok(self.answers(event, reply)),
        }
    }

    // A read or a listing.
    fn answers(&self, event: &Event, reply: &Reply) -> bool {
        match (event, reply) {
            (Event::Get(key, at), Reply::Got(value)) => match self.point(*at) {
                None => false,
                Some(point) => is_value(value, self.newest(key, point)),
            },
            (Event::Get(_, at), _) => {
                self.point(*at).is_none() && is_refused(reply, CoordError::NoSnapshot)
            }
            (Event::Show, Reply::Shown(shown)) => self.shows(self.current(), shown),
            (Event::Read(follower, key), Reply::ReadAt(number, value)) => {
                let at = self.followers[place_of(*follower)];
                number.number() == at && is_value(value, self.newest(key, self.flushed(at)))
            }
            (Event::ShowFollower(follower), Reply::Shown(shown)) => {
                self.shows(self.followers[place_of(*follower)], shown)
            }
            _ => false,
        }
    }

    fn wrote(&mut self, ops: &[Op], reply: &Reply) -> Result<bool, AllocError> {
        let Reply::Wrote(first, last) = reply else {
            return Ok(false);
        };
        let before = self.last_seq();
        let after = before.saturating_add(ops.len() as u64);
        if first.number() != before.saturating_add(1) || last.number() != after {
            return Ok(false);
        }
        self.writes.extend_with_clones(ops)?;
        Ok(true)
    }

    fn flush(&mut self, reply: &Reply) -> Result<bool, AllocError> {
        if self.last_seq() == self.flushed(self.current()) {
            return Ok(is_refused(reply, CoordError::NothingToFlush));
        }
        let Reply::Flushed(made) = reply else {
            return Ok(false);
        };
        let seq = self.last_seq();
        if made.number.number() != self.next_version()
            || made.seq.number() != seq
            || made.file.number() != self.next_file
        {
            return Ok(false);
        }
        self.add_version(seq, &[], 0, 1)?;
        Ok(true)
    }

    fn snap(&mut self, reply: &Reply) -> Result<bool, AllocError> {
        let next = SnapId {
            epoch: self.epoch,
            number: self.made.saturating_add(1),
        };
        let last = self.last_seq();
        let Reply::Snapped(id, at) = reply else {
            return Ok(false);
        };
        if *id != next || at.number() != last {
            return Ok(false);
        }
        self.snapshots.push((next, last))?;
        self.made = next.number;
        Ok(true)
    }

    fn trimmed(&mut self, number: u64, reply: &Reply) -> bool {
        if number > self.current() {
            return is_refused(reply, CoordError::BadFloor);
        }
        let Reply::Trimmed(floor, removed) = reply else {
            return false;
        };
        let before = self.floor;
        let after = before.max(number);
        let gone = (1..self.next_file).filter(|file| self.lists(before, *file)
            && !self.lists(after, *file));
        if floor.number() != after
            || !gone.eq(removed.as_slice().iter().map(|file| file.number()))
        {
            return false;
        }
        self.floor = after;
        true
    }

    fn restarted(&mut self, reply: &Reply) -> Result<bool, AllocError> {
        let Reply::Restarted(epoch, number, last) = reply else {
            return Ok(false);
        };
        let next = self.next_version();
        if *epoch != self.epoch.saturating_add(1)
            || number.number() != next
            || last.number() != self.last_seq()
        {
            return Ok(false);
        }
        self.add_version(self.flushed(self.current()), &[], 0, 0)?;
        self.snapshots.clear();
        self.floor = next;
        self.made = 0;
        self.picked = 0;
        self.epoch = *epoch;
        Ok(true)
    }

    // A worker or a follower is started anew.
    fn started(&mut self, event: &Event, reply: &Reply) -> bool {
        match (event, reply) {
            (Event::RestartWorker(worker), Reply::RestartedWorker(which)) if which == worker => {
                self.collected[place_of(*worker)] = None;
                true
            }
            (Event::RestartFollower(follower), Reply::RestartedFollower(which))
                if which == follower => {
                self.followers[place_of(*follower)] = 0;
                true
            }
            _ => false,
        }
    }

    fn pick(&mut self, dispatcher: NodeIndex, reply: &Reply) -> Result<bool, AllocError> {
        if self.held[place_of(dispatcher)].is_some() {
            return Ok(matches!(reply, Reply::Refused(Refusal::Busy)));
        }
        match reply {
            Reply::Picked(job, sent) => self.hold(dispatcher, job, *sent),
            // A level 0 that is due has a job, if no other one is live.
            Reply::Idle => Ok(!self.is_due() || self.held.iter().any(|held| self.is_live(held))),
            _ => Ok(false),
        }
    }

    // A dispatcher holds the claim of a job, which is sent to its worker.
    fn hold(
        &mut self,
        dispatcher: NodeIndex,
        job: &PickedJob,
        sent: Sent,
    ) -> Result<bool, AllocError> {
        if !self.may_pick(job) {
            return Ok(false);
        }
        let mut inputs = Vec::new(self.alloc);
        for file in job.inputs.as_slice() {
            inputs.push(file.number())?;
        }
        let note = Note {
            node: dispatcher,
            kind: NoteKind::Job(job.id),
        };
        if !self.sends(sent, 1, &note)? {
            return Ok(false);
        }
        self.picked = job.id.number;
        self.held[place_of(dispatcher)] = Some(Held {
            id: job.id,
            level: job.level,
            inputs,
        });
        Ok(true)
    }

    // Whether level 0 has as many files as make it due.
    fn is_due(&self) -> bool {
        let files = self.files(self.current());
        files.iter().filter(|place| place.level == 0).count() as u64 >= self.l0
    }

    // Whether a job is of the current files, one of its level among them, and of none that a live job has.
    fn may_pick(&self, job: &PickedJob) -> bool {
        let inputs = job.inputs.as_slice();
        let next = JobId {
            epoch: self.epoch,
            number: self.picked.saturating_add(1),
        };
        job.id == next
            && inputs.is_sorted_by(|a, b| a < b)
            && inputs.iter().all(|file| self.is_free(*file, job.level))
            && inputs
                .iter()
                .any(|file| self.level_of(file.number()) == Some(job.level))
    }

    // The level of a current file.
    pub(crate) fn level_of(&self, file: u64) -> Option<u8> {
        let files = self.files(self.current());
        let place = files.iter().find(|place| place.file == file)?;
        Some(place.level)
    }

    // Whether a job of a level may have the file.
    fn is_free(&self, file: FileNumber, level: u8) -> bool {
        let Some(at) = self.level_of(file.number()) else {
            return false;
        };
        (at == level || at == level.saturating_add(1))
            && !self.held.iter().any(|held| match held {
                Some(held) => {
                    held.id.epoch == self.epoch && held.inputs.contains(&file.number())
                }
                None => false,
            })
    }

    fn give_up(&mut self, dispatcher: NodeIndex, reply: &Reply) -> bool {
        let place = place_of(dispatcher);
        let is_right = match (&self.held[place], reply) {
            (None, Reply::Refused(why)) => *why == Refusal::NoClaim,
            (Some(held), Reply::Returned(id)) => held.id == *id && id.epoch == self.epoch,
            (Some(held), Reply::StaleClaim(id)) => held.id == *id && id.epoch != self.epoch,
            _ => false,
        };
        if is_right {
            self.held[place] = None;
        }
        is_right
    }
}
