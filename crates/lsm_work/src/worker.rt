//! Workers: which message does what to one, and what it sends. The inputs that it has collected stand in `task`.

ghost use Rattle.std.specs.Prelude.{◌≡◌};
ghost use Rattle.lsm_work.specs.Workers.{is_later};

use crate::change::WorkChange;
use crate::task::Task;
use bytes::Bytes;
use lsm_claim::JobId;
use lsm_key::FileNumber;
use lsm_msg::{Body, Job, Message, NodeIndex};
use std::alloc::{AllocError, Global};
use std::marker::Model;

/// A worker: idle, or collecting the tables of a job.
#[derive(Debug, Drop)]
pub struct Worker {
    alloc: Global,
    index: NodeIndex,
    task: Option<Task>,
}

impl Model for Worker {
    ghost use Rattle.lsm_work.specs.Workers.{WorkerValue};

    ghost Value = { WorkerValue };

    ghost view = { λ w. record { index = w.index; task = w.task } };
}

impl Worker {
    ghost use Rattle.std.specs.Prelude.{◌≡◌, All, IfOk, None, OnErr};
    ghost use Rattle.lsm_msg.specs.Messages.{IsMessage};
    ghost use Rattle.lsm_work.specs.Workers.{TakesTable, Works, after_gone, after_job, fetching, ignores, new_task};

    /// The worker of this index, idle.
    pub fn new(alloc: Global, index: NodeIndex) -> Worker
        ensures { result ≡ record { index = index; task = None } }
    {
        Worker {
            alloc,
            index,
            task: None,
        }
    }

    /// Forgets its job, as a worker that is started anew: it is idle.
    pub fn restart(&mut self)
        ensures { self.new ≡ record self.old { task = None } }
    {
        self.task = None;
    }

    /// Takes a message, and returns what it changed and which messages are to be sent. It is for a worker that the message
    /// reached: sender and receiver are not looked at.
    ///
    /// A job makes an idle worker ask for each of its inputs, by number. A collecting worker that gets the same job asks again for
    /// those that it lacks; a job of a later name takes its own one's place, with no input; an earlier one is ignored. A table
    /// of a missing input is kept if it is as its file record says, otherwise ignored; the last one leads to the merge, whose
    /// result is sent, or which is given up if two tables share an entry. A missing input that is no longer served ends the
    /// task. Anything else is ignored. If memory runs out, nothing changes.
    pub fn on_message(
        &mut self,
        message: &Message,
    ) -> Result<(WorkChange, Vec<Message>), AllocError>
        ensures ok { IfOk result (λ r. Works self.old message.now.body (record { change = r.0; sent = r.1.items; worker = self.new })) }
        ensures err { OnErr result (self.new ≡ self.old) }
        ensures sound { IfOk result (λ r. All IsMessage r.1.items) }
    {
        match &message.body {
            Body::Job(job) => self.on_job(job),
            Body::Table(file, bytes) => self.on_table(*file, bytes),
            Body::Gone(file) => Ok(self.on_gone(*file)),
            _ => Ok(self.ignored()),
        }
    }

    fn ignored(&self) -> (WorkChange, Vec<Message>)
        ensures { record { change = result.0; sent = result.1.items; worker = self.now } ≡ ignores self.now }
    {
        (WorkChange::Ignored, Vec::new(self.alloc))
    }

    fn on_job(&mut self, job: &Job) -> Result<(WorkChange, Vec<Message>), AllocError>
        ensures ok { IfOk result (λ r. record { change = r.0; sent = r.1.items; worker = self.new } ≡ after_job self.old job.now self.old.task) }
        ensures err { OnErr result (self.new ≡ self.old) }
        ensures sound { IfOk result (λ r. All IsMessage r.1.items) }
    {
        match &self.task {
            Some(task) if task.id() == job.id() => {
                let sent = task.fetches(self.alloc, self.index)?;
                Ok((WorkChange::Collecting(task.missing()), sent))
            }
            Some(task) if !is_later(job.id(), task.id()) => Ok(self.ignored()),
            _ => self.begin(job),
        }
    }

    // Takes a job, in place of any other.
    fn begin(&mut self, job: &Job) -> Result<(WorkChange, Vec<Message>), AllocError>
        ensures ok { IfOk result (λ r. record { change = r.0; sent = r.1.items; worker = self.new } ≡ fetching self.old (new_task job.now)) }
        ensures err { OnErr result (self.new ≡ self.old) }
        ensures sound { IfOk result (λ r. All IsMessage r.1.items) }
    {
        let task = Task::new(self.alloc, job)?;
        let sent = task.fetches(self.alloc, self.index)?;
        let change = WorkChange::Collecting(task.missing());
        self.task = Some(task);
        Ok((change, sent))
    }

    fn on_table(
        &mut self,
        file: FileNumber,
        bytes: &Bytes,
    ) -> Result<(WorkChange, Vec<Message>), AllocError>
        ensures ok { IfOk result (λ r. TakesTable self.old file bytes.now self.old.task (record { change = r.0; sent = r.1.items; worker = self.new })) }
        ensures err { OnErr result (self.new ≡ self.old) }
        ensures sound { IfOk result (λ r. All IsMessage r.1.items) }
    {
        let alloc = self.alloc;
        let index = self.index;
        let Some(task) = &mut self.task else {
            return Ok(self.ignored());
        };
        let (change, sent) = task.receive(alloc, index, file.number(), bytes)?;
        if change.ends_task() {
            self.task = None;
        }
        Ok((change, sent))
    }

    fn on_gone(&mut self, file: FileNumber) -> (WorkChange, Vec<Message>)
        ensures ok { record { change = result.0; sent = result.1.items; worker = self.new } ≡ after_gone self.old file self.old.task }
        ensures sound { All IsMessage result.1.items }
    {
        match &self.task {
            Some(task) if task.lacks(file.number()) => {
                self.task = None;
                (WorkChange::Dropped, Vec::new(self.alloc))
            }
            _ => self.ignored(),
        }
    }
}

// Whether a job is later than another: of a later epoch, or of the same one and a greater number.
fn is_later(a: JobId, b: JobId) -> bool
    ensures { result ≡ is_later a b }
{
    a.epoch > b.epoch || (a.epoch == b.epoch && a.number > b.number)
}
