//! What the model allows, in the words of a reply line.

use crate::model::{Model, NoteKind, place_of};
use bytes::Bytes;
use lsm_claim::JobId;
use lsm_msg::NodeIndex;
use lsm_word::Word;
use lsm_world::Event;
use std::alloc::AllocError;
use std::fmt::Write;

impl Model {
    /// The replies to an event that it allows.
    pub(crate) fn allowed(&self, event: &Event) -> Result<String, AllocError> {
        let alloc = self.alloc;
        match event {
            Event::Write(ops) => {
                let first = self.last_seq().saturating_add(1);
                let last = self.last_seq().saturating_add(ops.len() as u64);
                format!(in alloc; "seq {first} to {last}")
            }
            Event::Flush => format!(in alloc;
                "version {} flushed {} file {}",
                self.next_version(),
                self.last_seq(),
                self.next_file
            ),
            Event::Get(key, at) => match self.point(*at) {
                None => String::from_str(alloc, "refused NoSnapshot"),
                Some(point) => self.value_text(self.newest(key, point)),
            },
            Event::Read(follower, key) => {
                let number = self.followers[place_of(*follower)];
                let value = self.value_text(self.newest(key, self.flushed(number)))?;
                format!(in alloc; "at {number} {value}")
            }
            Event::Show => self.listing_text(self.current()),
            Event::ShowFollower(follower) => {
                self.listing_text(self.followers[place_of(*follower)])
            }
            Event::RestartCoordinator => {
                let epoch = self.epoch.saturating_add(1);
                let last = self.last_seq();
                format!(in alloc; "epoch {epoch} version {} last {last}", self.next_version())
            }
            Event::Pick(dispatcher) => self.pick_text(*dispatcher),
            Event::GiveUp(dispatcher) => self.give_up_text(*dispatcher),
            Event::Deliver(message) => self.delivery_text(*message),
            Event::Ask(_) => format!(in alloc; "message {}", self.sent().saturating_add(1)),
            _ => String::from_str(alloc, "another reply"),
        }
    }

    fn value_text(&self, value: Option<&Bytes>) -> Result<String, AllocError> {
        match value {
            None => String::from_str(self.alloc, "none"),
            Some(value) => format!(in self.alloc; "value {}", Word(value.as_slice())),
        }
    }

    fn listing_text(&self, number: u64) -> Result<String, AllocError> {
        let mut text = format!(in self.alloc; "show {number} flushed {}", self.flushed(number))?;
        for place in self.files(number) {
            write!(text, " L{} {}", place.level, place.file)?;
        }
        Ok(text)
    }

    fn pick_text(&self, dispatcher: NodeIndex) -> Result<String, AllocError> {
        if self.held[place_of(dispatcher)].is_some() {
            return String::from_str(self.alloc, "refused Busy");
        }
        let number = self.picked.saturating_add(1);
        let message = self.sent().saturating_add(1);
        format!(in self.alloc;
            "job {}.{number} of files of the version that no live job has, message {message}, or idle if level 0 is not due",
            self.epoch
        )
    }

    fn give_up_text(&self, dispatcher: NodeIndex) -> Result<String, AllocError> {
        match &self.held[place_of(dispatcher)] {
            None => String::from_str(self.alloc, "refused NoClaim"),
            Some(held) => {
                let name = if held.id.epoch == self.epoch {
                    "returned"
                } else {
                    "stale"
                };
                format!(in self.alloc; "{name} {}", held.id)
            }
        }
    }

    fn delivery_text(&self, number: u64) -> Result<String, AllocError> {
        let alloc = self.alloc;
        let next = self.sent().saturating_add(1);
        let Some(note) = self.note(number) else {
            return String::from_str(alloc, "refused NoMessage");
        };
        match note.kind {
            NoteKind::WorkerRequest | NoteKind::FollowerRequest => {
                format!(in alloc; "served message {next}")
            }
            NoteKind::Result(id) => self.result_text(note.node, id),
            NoteKind::Job(_) => format!(in alloc;
                "collecting, with messages from {next} on, or ignored if it collects a later job"
            ),
            NoteKind::WorkerAnswer => format!(in alloc;
                "ignored, or of a worker that collects a job collecting, merged message {next} or dropped"
            ),
            NoteKind::FollowerAnswer => self.move_text(note.node),
        }
    }

    fn move_text(&self, follower: NodeIndex) -> Result<String, AllocError> {
        let at = self.followers[place_of(follower)];
        let (current, next) = (self.current(), self.sent().saturating_add(1));
        format!(in self.alloc;
            "a version above {at} and up to {current}, waiting, with messages from {next} on, dropped, current or ignored"
        )
    }

    fn result_text(&self, dispatcher: NodeIndex, id: JobId) -> Result<String, AllocError> {
        let alloc = self.alloc;
        match &self.held[place_of(dispatcher)] {
            Some(held) if held.id == id && id.epoch == self.epoch => format!(in alloc;
                "installed version {} files from {} on",
                self.next_version(),
                self.next_file
            ),
            Some(held) if held.id == id => String::from_str(alloc, "refused OldEpoch"),
            _ => String::from_str(alloc, "refused NoClaim"),
        }
    }
}
