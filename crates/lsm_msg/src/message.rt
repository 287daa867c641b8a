//! Messages: what nodes send to each other.

ghost use Rattle.std.specs.Prelude.{◌≡◌, ◌↔◌, IfOk, IsTrue};
ghost use Rattle.lsm_msg.specs.Messages.{AreSequences};

use crate::{Job, JobResult, Node, NodeIndex};
use bytes::Bytes;
use lsm_edit::{Edit, Version};
use lsm_key::{FileNumber, Seq, VersionNumber};
use std::alloc::{AllocError, Global};

/// A message is held whole in memory by its sender, the network and its receiver. In bytes.
pub const MAX_MESSAGE_BYTES: usize = 1 << 30;

/// The body of a message.
#[derive(Debug, Drop)]
pub enum Body {
    /// Asks for this merge.
    Job(Job),
    /// Asks for the table of this file.
    Fetch(FileNumber),
    /// The table of a file.
    Table(FileNumber, Bytes),
    /// This file's table is no longer served.
    Gone(FileNumber),
    /// The result of a merge.
    Result(JobResult),
    /// Asks what comes after this version.
    Ask(VersionNumber),
    /// The next edit.
    Edit(Edit),
    /// A full version, for a follower too far behind to catch up by edits.
    Base(Version),
    /// You are up to date: this is the latest version.
    Current(VersionNumber),
}

/// A message in transit.
#[derive(Debug, Drop)]
pub struct Message {
    pub src: Node,
    pub dst: Node,
    pub body: Body,
}

impl Body {
    /// The same body. Its keys and tables share the bytes.
    pub fn copy(&self, alloc: Global) -> Result<Body, AllocError>
        ensures { IfOk result (λ copy. copy ≡ self.now) }
    {
        match self {
            Body::Job(job) => Ok(Body::Job(job.copy(alloc)?)),
            Body::Fetch(file) => Ok(Body::Fetch(*file)),
            Body::Table(file, table) => Ok(Body::Table(*file, table.clone()?)),
            Body::Gone(file) => Ok(Body::Gone(*file)),
            Body::Result(made) => Ok(Body::Result(made.copy(alloc)?)),
            Body::Ask(version) => Ok(Body::Ask(*version)),
            Body::Edit(edit) => Ok(Body::Edit(edit.copy(alloc)?)),
            Body::Base(version) => Ok(Body::Base(version.copy(alloc)?)),
            Body::Current(version) => Ok(Body::Current(*version)),
        }
    }

    /// Whether two bodies are the same.
    pub fn same(&self, other: &Body) -> bool
        ensures { IsTrue result ↔ self.now ≡ other.now }
    {
        match (self, other) {
            (Body::Job(a), Body::Job(b)) => a.same(b),
            (Body::Fetch(a), Body::Fetch(b)) => a == b,
            (Body::Table(a, t), Body::Table(b, u)) => a == b && t == u,
            (Body::Gone(a), Body::Gone(b)) => a == b,
            (Body::Result(a), Body::Result(b)) => a.same(b),
            (Body::Ask(a), Body::Ask(b)) => a == b,
            (Body::Edit(a), Body::Edit(b)) => a.same(b),
            (Body::Base(a), Body::Base(b)) => a.same(b),
            (Body::Current(a), Body::Current(b)) => a == b,
            _ => false,
        }
    }
}

impl Message {
    ghost use Rattle.lsm_msg.specs.declared.message.Body.TheVariants as body;
    ghost use Rattle.lsm_msg.specs.declared.node.Node.TheVariants as node;
    ghost use Rattle.lsm_msg.specs.Messages.{IsBody, IsMessage, to_coordinator};

    /// A message of a worker to the coordinator.
    pub fn from_worker(index: NodeIndex, body: Body) -> Message
        ensures all { result ≡ to_coordinator (node.Worker index) body }
        ensures sound { IsBody body → IsMessage result }
    {
        Message {
            src: Node::Worker(index),
            dst: Node::Coordinator,
            body,
        }
    }

    /// The message that takes a job to a worker.
    pub fn to_worker(index: NodeIndex, job: Job) -> Message
        ensures all { result ≡ record { src = node.Coordinator; dst = node.Worker index; body = body.Job job } }
        ensures sound { IsMessage result }
    {
        know_sequences(job.points());
        Message {
            src: Node::Coordinator,
            dst: Node::Worker(index),
            body: Body::Job(job),
        }
    }

    /// A message of a follower to the coordinator.
    pub fn from_follower(index: NodeIndex, body: Body) -> Message
        ensures all { result ≡ to_coordinator (node.Follower index) body }
        ensures sound { IsBody body → IsMessage result }
    {
        Message {
            src: Node::Follower(index),
            dst: Node::Coordinator,
            body,
        }
    }

    /// The same message. Its keys and tables share the bytes.
    pub fn copy(&self, alloc: Global) -> Result<Message, AllocError>
        ensures { IfOk result (λ copy. copy ≡ self.now) }
    {
        let body = self.body.copy(alloc)?;
        Ok(Message {
            src: self.src,
            dst: self.dst,
            body,
        })
    }

    /// Whether two messages are the same.
    pub fn same(&self, other: &Message) -> bool
        ensures { IsTrue result ↔ self.now ≡ other.now }
    {
        self.src == other.src && self.dst == other.dst && self.body.same(&other.body)
    }
}

// Proof hint: sequences are below 2^56. There are at most 64.
fn know_sequences(points: &[Seq])
    ensures { AreSequences points.now }
{
    for point in points {
        let _number = point.number();
    }
}
