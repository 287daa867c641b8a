//! A job of which inputs are collected.

ghost use Rattle.std.specs.Prelude.{◌≡◌};

use crate::change::WorkChange;
use bytes::Bytes;
use lsm_claim::JobId;
use lsm_edit::{FileMeta, open_as_recorded};
use lsm_key::{FileNumber, Items};
use lsm_merge::{MergeError, merge};
use lsm_msg::{Body, Job, JobResult, Message, NodeIndex};
use lsm_table::Table;
use std::alloc::{AllocError, Global};
use std::marker::Model;

/// A job with those of its inputs that have come.
///
/// Invariant: the numbers are those of inputs of the job, in their order, and each table is as the record of its file says.
#[derive(Debug, Drop)]
pub(crate) struct Task {
    job: Job,
    /// The numbers of the inputs that have come, ascending. It has room for all, so that one more takes no memory.
    numbers: Vec<u64>,
    /// Their tables. It has room for all too.
    tables: Vec<Table>,
}

impl Model for Task {
    ghost use Rattle.std.specs.Prelude.{◌≤◌, length, vec_capacity};
    ghost use Rattle.lsm_work.specs.Workers.{TaskValue};
    ghost use Rattle.lsm_work.specs.Held.{AreHeld, task_of};

    ghost Value = { TaskValue };

    ghost view = { λ t. task_of t.job t.numbers.items t.tables.items };

    ghost invariant = { λ t. AreHeld t.job t.numbers.items t.tables.items × (length t.job.inputs ≤ vec_capacity t.numbers) × (length t.job.inputs ≤ vec_capacity t.tables) };
}

impl Task {
    ghost use Rattle.std.specs.Prelude.{◌≡◌, ◌≤◌, All, IfErr, IfNone, IfOk, IfSome, OnErr, Some, length, map};
    ghost use Rattle.lsm_key.specs.Sets.{IsIn, is_among};
    ghost use Rattle.lsm_edit.specs.declared.file.FileMeta.{FileMeta};
    ghost use Rattle.lsm_merge.specs.Inputs.{CanMerge, IsRefused};
    ghost use Rattle.lsm_merge.specs.Outputs.{IsMerge};
    ghost use Rattle.lsm_msg.specs.declared.message.Body.TheVariants as body;
    ghost use Rattle.lsm_msg.specs.declared.node.Node.TheVariants.{Worker};
    ghost use Rattle.lsm_msg.specs.Messages.{AreTableBytes, IsMessage, fetches, to_coordinator};
    ghost use Rattle.lsm_work.specs.Workers.{TakesTable, missing, new_task, numbers_of, received_tables, with_input};
    ghost use Rattle.lsm_work.specs.Held.{IsSpot, BelongsAt, left_after};

    /// The task of a job of which no input has come.
    pub(crate) fn new(alloc: Global, job: &Job) -> Result<Task, AllocError>
        ensures { IfOk result (λ t. t ≡ new_task job.now) }
    {
        let count = job.inputs().len();
        let numbers = Vec::with_capacity(alloc, count)?;
        let tables = Vec::with_capacity(alloc, count)?;
        let job = job.copy(alloc)?;
        Ok(Task {
            job,
            numbers,
            tables,
        })
    }

    /// The name of the job.
    pub(crate) fn id(&self) -> JobId
        ensures { result ≡ self.now.job.id }
    {
        self.job.id()
    }

    /// How many inputs are missing.
    pub(crate) fn missing(&self) -> u32
        ensures { result ≡ length (missing self.now) }
    {
        (self.job.inputs().len() - self.numbers.len()) as u32
    }

    /// A request for each missing input.
    pub(crate) fn fetches(
        &self,
        alloc: Global,
        index: NodeIndex,
    ) -> Result<Vec<Message>, AllocError>
        ensures all { IfOk result (λ sent. sent.items ≡ fetches (Worker index) (missing self.now)) }
        ensures sound { IfOk result (λ sent. All IsMessage sent.items) }
    {
        let mut sent = Vec::with_capacity(alloc, self.missing() as usize)?;
        for file in self.job.inputs() {
            if self.numbers.binary_search(&file.number).is_err() {
                let body = Body::Fetch(FileNumber::new(file.number));
                sent.push(Message::from_worker(index, body))?;
            }
        }
        Ok(sent)
    }

    /// A missing input, and where it is to stand among those that have come.
    pub(crate) fn awaited(&self, number: u64) -> Option<(&FileMeta, usize)>
        ensures missing { IfSome result (λ r. IsIn r.0.now (missing self.now) × (r.0.now.number ≡ number)) }
        ensures only { IfSome result (λ r. (f : FileMeta) → IsIn f (missing self.now) → f.number ≡ number → f ≡ r.0.now) }
        ensures place { IfSome result (λ r. IsSpot (numbers_of self.now.received) number r.1) }
        ensures none { IfNone result ((f : FileMeta) → IsIn f (missing self.now) → f.number ≡ number → ⊥) }
    {
        let inputs = self.job.inputs();
        let Ok(at) = inputs.binary_search_by_key(&number, |file| file.number) else {
            return None;
        };
        match self.numbers.binary_search(&number) {
            Ok(_) => None,
            Err(place) => Some((&inputs[at], place)),
        }
    }

    /// Whether the file is a missing input.
    pub(crate) fn lacks(&self, number: u64) -> bool
        ensures { result ≡ is_among (map (λ f. f.number) (missing self.now)) number }
    {
        self.awaited(number).is_some()
    }

    /// Takes a table if it is awaited. The last one is not kept: what is sent is the result of the job. If memory runs out,
    /// nothing changes.
    pub(crate) fn receive(
        &mut self,
        alloc: Global,
        index: NodeIndex,
        number: u64,
        bytes: &Bytes,
    ) -> Result<(WorkChange, Vec<Message>), AllocError>
        ensures ok { IfOk result (λ r. TakesTable (record { index = index; task = Some self.old }) number bytes.now (Some self.old) (record { change = r.0; sent = r.1.items; worker = record { index = index; task = left_after r.0 self.new } })) }
        ensures err { OnErr result (self.new ≡ self.old) }
        ensures sound { IfOk result (λ r. All IsMessage r.1.items) }
    {
        let Some((file, place)) = self.awaited(number) else {
            return Ok((WorkChange::Ignored, Vec::new(alloc)));
        };
        let Some(table) = open_as_recorded(alloc, file, bytes)? else {
            return Ok((WorkChange::Ignored, Vec::new(alloc)));
        };
        if self.numbers.len() + 1 < self.job.inputs().len() {
            self.put(place, number, table);
            return Ok((WorkChange::Collecting(self.missing()), Vec::new(alloc)));
        }
        let mut sent = Vec::with_capacity(alloc, 1)?;
        match self.merged_with(alloc, place, table) {
            Ok(outputs) => {
                sent.push(self.result_message(index, outputs)).unwrap();
                Ok((WorkChange::Merged, sent))
            }
            Err(MergeError::SameEntry) => Ok((WorkChange::Dropped, sent)),
            Err(MergeError::OutOfMemory) => Err(AllocError),
            // Each table was as its record says when it came.
            Err(MergeError::WrongInputs) => unreachable!(),
        }
    }

    // Keeps the table of a missing input. Allocates nothing.
    fn put(&mut self, place: usize, number: u64, table: Table)
        requires { (f : FileMeta) × (f.number ≡ number) × BelongsAt self.old (record { meta = f; table = table }) place }
        ensures { (f : FileMeta) → f.number ≡ number → BelongsAt self.old (record { meta = f; table = table }) place → self.new ≡ with_input (record { meta = f; table = table }) self.old }
    {
        self.numbers.insert(place, number).unwrap();
        self.tables.insert(place, table).unwrap();
    }

    // Merges the tables with that of the last missing input, which is taken out again, so that a merge that finds no memory
    // leaves no trace.
    fn merged_with(
        &mut self,
        alloc: Global,
        place: usize,
        table: Table,
    ) -> Result<Vec<Bytes>, MergeError>
        requires { (f : FileMeta) × BelongsAt self.old (record { meta = f; table = table }) place }
        ensures ok { (f : FileMeta) → BelongsAt self.old (record { meta = f; table = table }) place → IfOk result (λ outputs. CanMerge (received_tables (with_input (record { meta = f; table = table }) self.old)) self.old.job × IsMerge (received_tables (with_input (record { meta = f; table = table }) self.old)) self.old.job outputs.items) }
        ensures refused { (f : FileMeta) → BelongsAt self.old (record { meta = f; table = table }) place → IfErr result (IsRefused (received_tables (with_input (record { meta = f; table = table }) self.old)) self.old.job) }
        ensures unchanged { self.new ≡ self.old }
    {
        self.tables.insert(place, table).unwrap();
        let merged = merge(alloc, self.tables.as_slice(), &self.job);
        self.tables.remove(place);
        merged
    }

    fn result_message(&self, index: NodeIndex, outputs: Vec<Bytes>) -> Message
        ensures all { result ≡ to_coordinator (Worker index) (body.Result (record { job = self.now.job.id; tables = outputs.items })) }
        ensures sound { All AreTableBytes outputs.items → IsMessage result }
    {
        let made = JobResult {
            job: self.job.id(),
            tables: Items::from_vec(outputs),
        };
        Message::from_worker(index, Body::Result(made))
    }
}
