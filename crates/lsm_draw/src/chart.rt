//! What is drawn: a row for each event, and the messages between the nodes.

use crate::label::Label;
use crate::lanes::{Lane, Lanes};
use crate::mark::{Mark, mark_of};
use lsm_world::{Event, Reply, Sent};
use std::alloc::{AllocError, Global};

/// A message, and where it was sent.
#[derive(Clone, Copy)]
pub(crate) struct Message {
    pub from: Lane,
    pub to: Lane,
    /// The row in which it was sent.
    pub row: u32,
    /// How many messages of that row were sent before it.
    pub nth: u8,
    pub is_delivered: bool,
}

impl Message {
    // A message that was just sent.
    fn new(from: Lane, to: Lane, row: u32, nth: u8) -> Message {
        Message {
            from,
            to,
            row,
            nth,
            is_delivered: false,
        }
    }
}

/// A message that came.
#[derive(Clone, Copy)]
pub(crate) struct Arrival {
    pub number: u64,
    pub message: Message,
}

/// An event, and what was answered.
#[derive(Drop)]
pub(crate) struct Row {
    pub lane: Lane,
    pub mark: Mark,
    pub label: String,
    pub script: String,
    pub reply: String,
    pub arrival: Option<Arrival>,
}

/// An event and its reply as lines of text, without their ends.
#[derive(Clone, Copy)]
pub struct Lines<'a> {
    pub event: &'a str,
    pub reply: &'a str,
}

/// The events of a run, in order, from the first of a world on.
#[derive(Drop)]
pub struct Chart {
    alloc: Global,
    pub(crate) lanes: Lanes,
    pub(crate) rows: Vec<Row>,
    /// By number, from 1.
    pub(crate) messages: Vec<Message>,
    /// Those that were lost as they were sent, and have no number.
    pub(crate) lost: Vec<Message>,
}

impl Chart {
    /// Without an event.
    pub fn new(alloc: Global) -> Chart {
        Chart {
            alloc,
            lanes: Lanes::new(),
            rows: Vec::new(alloc),
            messages: Vec::new(alloc),
            lost: Vec::new(alloc),
        }
    }

    /// Puts an event below the others, with its reply and their lines. After an error the chart is not to be drawn.
    pub fn row(
        &mut self,
        event: &Event,
        reply: &Reply,
        lines: Lines<'_>,
    ) -> Result<(), AllocError> {
        let alloc = self.alloc;
        let arrival = self.arrival_of(event);
        let lane = lane_of(event, arrival);
        self.lanes.take(lane);
        self.send(lane, receiver_of(event, reply, arrival), sent_by(reply))?;
        let row = Row {
            lane,
            mark: mark_of(reply),
            label: format!(in alloc;
                "{}",
                Label {
                    reply,
                    line: lines.reply
                }
            )?,
            script: String::from_str(alloc, lines.event)?,
            reply: String::from_str(alloc, lines.reply)?,
            arrival,
        };
        self.rows.push(row)?;
        Ok(())
    }

    // The message that an event delivers, as it was before.
    fn arrival_of(&mut self, event: &Event) -> Option<Arrival> {
        let Event::Deliver(number) = event else {
            return None;
        };
        let place = usize::try_from(number.checked_sub(1)?).ok()?;
        let message = self.messages.get_mut(place)?;
        let arrival = Arrival {
            number: *number,
            message: *message,
        };
        message.is_delivered = true;
        Some(arrival)
    }

    // Puts the messages of an event after the others.
    fn send(&mut self, from: Lane, to: Lane, sent: Sent) -> Result<(), AllocError> {
        match sent {
            Sent::Nothing => Ok(()),
            Sent::Lost => self.lose(from, to),
            Sent::Messages(first, last) => self.send_all(from, to, last.saturating_sub(first)),
        }
    }

    // Notes messages that were lost, as one.
    fn lose(&mut self, from: Lane, to: Lane) -> Result<(), AllocError> {
        self.lanes.take(to);
        let row = u32::try_from(self.rows.len()).unwrap_or(u32::MAX);
        let message = Message::new(from, to, row, 0);
        self.lost.push(message)?;
        Ok(())
    }

    // Puts a message after the others, and `more` messages behind it.
    fn send_all(&mut self, from: Lane, to: Lane, more: u64) -> Result<(), AllocError> {
        self.lanes.take(to);
        let row = u32::try_from(self.rows.len()).unwrap_or(u32::MAX);
        for place in 0..=more {
            let nth = u8::try_from(place).unwrap_or(u8::MAX);
            let message = Message::new(from, to, row, nth);
            self.messages.push(message)?;
        }
        Ok(())
    }
}

// The line of the node at which an event happens. Dispatchers belong to the coordinator.
fn lane_of(event: &Event, arrival: Option<Arrival>) -> Lane {
    match event {
        Event::Deliver(_) => match arrival {
            None => Lane::coordinator(),
            Some(arrival) => arrival.message.to,
        },
        Event::RestartWorker(worker) => Lane::worker(*worker),
        Event::Ask(follower)
        | Event::Read(follower, _)
        | Event::ShowFollower(follower)
        | Event::RestartFollower(follower) => Lane::follower(*follower),
        _ => Lane::coordinator(),
    }
}

// The line of the node to which the messages of an event go: a job to the dispatcher's worker, what the coordinator serves to the node that
// asked, and all others to the coordinator.
fn receiver_of(event: &Event, reply: &Reply, arrival: Option<Arrival>) -> Lane {
    match (event, reply, arrival) {
        (Event::Pick(dispatcher), _, _) => Lane::worker(*dispatcher),
        (_, Reply::Served(_), Some(arrival)) => arrival.message.from,
        _ => Lane::coordinator(),
    }
}

// What became of the messages of an event.
fn sent_by(reply: &Reply) -> Sent {
    match reply {
        Reply::Picked(_, sent)
        | Reply::Served(sent)
        | Reply::Collecting(_, sent)
        | Reply::Merged(sent)
        | Reply::Asked(sent)
        | Reply::Waiting(_, sent) => *sent,
        _ => Sent::Nothing,
    }
}
