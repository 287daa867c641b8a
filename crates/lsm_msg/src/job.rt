//! Jobs and their results, as values. Their bytes stand apart, in `writing` and `reading`, so that a job can be made
//! and kept without them.

use crate::lists::{same_points, same_ranges, same_tables};
use crate::rules::{are_deeper, are_inputs, are_points, is_job_id};
use bytes::Bytes;
use lsm_claim::JobId;
use lsm_edit::{FileMeta, same_files};
use lsm_key::{Items, KeyRange, MAX_JOB_LEVEL, MAX_TABLE_BYTES, Seq};
use std::alloc::{AllocError, Global};
use std::marker::Model;

/// The parts of a job, which may break the rules.
#[derive(Debug, Drop)]
pub struct JobParts {
    /// Its name.
    pub id: JobId,
    /// The upper one of its two levels, 0 to 5.
    pub level: u8,
    /// The block target of its outputs, 1 to 16,777,216. In bytes.
    pub block: u32,
    /// The sequences of the snapshots whose reads must not change, at most 64, ascending.
    pub points: Items<Seq>,
    /// The files to merge, 1 to 1,024, by number; each of its level or the next one, and one of its level.
    pub inputs: Items<FileMeta>,
    /// The key ranges of files below its two levels that its keys meet, at most 65,536.
    pub deeper: Items<KeyRange>,
}

impl JobParts {
    ghost use Rattle.std.specs.Prelude.{◌≡◌, ◌↔◌, IfOk, IsTrue};
    ghost use Rattle.lsm_msg.specs.Jobs.{IsJob};

    /// Whether they keep the rules.
    pub fn is_job(&self) -> bool
        ensures { IsTrue result ↔ IsJob self.now }
    {
        is_job_id(self.id)
            && self.level <= MAX_JOB_LEVEL
            && self.block >= 1
            && self.block <= MAX_TABLE_BYTES as u32
            && are_points(self.points.as_slice())
            && are_inputs(self.level, self.inputs.as_slice())
            && are_deeper(self.deeper.as_slice())
    }

    // The same parts. Keys share the bytes.
    fn copy(&self, alloc: Global) -> Result<JobParts, AllocError>
        ensures { IfOk result (λ parts. parts ≡ self.now) }
    {
        let points = self.points.as_slice().to_vec(alloc)?;
        let inputs = self.inputs.as_slice().to_vec(alloc)?;
        let deeper = self.deeper.as_slice().to_vec(alloc)?;
        Ok(JobParts {
            id: self.id,
            level: self.level,
            block: self.block,
            points: Items::from_vec(points),
            inputs: Items::from_vec(inputs),
            deeper: Items::from_vec(deeper),
        })
    }

    fn same(&self, other: &JobParts) -> bool
        ensures { IsTrue result ↔ self.now ≡ other.now }
    {
        self.id == other.id
            && self.level == other.level
            && self.block == other.block
            && same_points(self.points.as_slice(), other.points.as_slice())
            && same_files(self.inputs.as_slice(), other.inputs.as_slice())
            && same_ranges(self.deeper.as_slice(), other.deeper.as_slice())
    }
}

/// A merge for a worker to do. Its type keeps the rules, so a receiver need not check them.
///
/// Invariant: its parts are within the limits that `JobParts` says, and so are the records of its inputs and the keys
/// of its deeper ranges.
#[derive(Debug, Drop)]
pub struct Job {
    parts: JobParts,
}

impl Model for Job {
    ghost use Rattle.lsm_msg.specs.declared.job.JobParts.{JobParts};

    ghost Value = { JobParts };

    ghost use Rattle.lsm_msg.specs.Jobs.{IsJob};

    ghost view = { λ j. j.parts };

    ghost invariant = { λ j. IsJob j.parts };
}

impl Job {
    ghost use Rattle.std.specs.Prelude.{◌≡◌, ◌≤◌, ◌↔◌, IfOk, IfSome, IsSome, IsTrue};
    ghost use Rattle.lsm_msg.specs.Jobs.{IsJob};

    /// The job of these parts, or `None` if they break a rule.
    pub fn new(parts: JobParts) -> Option<Job>
        ensures within { IsSome result ↔ IsJob parts }
        ensures kept { IfSome result (λ job. job ≡ parts) }
    {
        if parts.is_job() {
            Some(Job { parts })
        } else {
            None
        }
    }

    // The job of parts that keep the rules.
    pub(crate) fn of_parts(parts: JobParts) -> Job
        requires { IsJob parts }
        ensures { result ≡ parts }
    {
        Job { parts }
    }

    /// Its parts, which keep the rules.
    pub fn parts(&self) -> &JobParts
        ensures all { result.now ≡ self.now }
        ensures sound { IsJob self.now }
    {
        &self.parts
    }

    /// Its name.
    pub fn id(&self) -> JobId
        ensures { result ≡ self.now.id }
    {
        self.parts.id
    }

    /// The upper one of its two levels.
    pub fn level(&self) -> u8
        ensures value { result ≡ self.now.level }
        ensures bound { result ≤ MAX_JOB_LEVEL }
    {
        self.parts.level
    }

    /// The block target of its outputs, in bytes.
    pub fn block(&self) -> u32
        ensures value { result ≡ self.now.block }
        ensures bound { (1 ≤ result) × (result ≤ MAX_TABLE_BYTES) }
    {
        self.parts.block
    }

    /// The sequences at which reads must not change, ascending.
    pub fn points(&self) -> &[Seq]
        ensures all { result.now ≡ self.now.points }
        ensures sound { IsJob self.now }
    {
        self.parts.points.as_slice()
    }

    /// The files to merge, by number.
    pub fn inputs(&self) -> &[FileMeta]
        ensures all { result.now ≡ self.now.inputs }
        ensures sound { IsJob self.now }
    {
        self.parts.inputs.as_slice()
    }

    /// The key ranges of files below its two levels.
    pub fn deeper(&self) -> &[KeyRange]
        ensures all { result.now ≡ self.now.deeper }
        ensures sound { IsJob self.now }
    {
        self.parts.deeper.as_slice()
    }

    /// The same job. Its keys share the bytes.
    pub fn copy(&self, alloc: Global) -> Result<Job, AllocError>
        ensures { IfOk result (λ job. job ≡ self.now) }
    {
        let parts = self.parts.copy(alloc)?;
        Ok(Job { parts })
    }

    /// Whether two jobs are the same.
    pub fn same(&self, other: &Job) -> bool
        ensures { IsTrue result ↔ self.now ≡ other.now }
    {
        self.parts.same(&other.parts)
    }
}

/// What a worker made of a job.
#[derive(Debug, Drop)]
pub struct JobResult {
    /// The job's name.
    pub job: JobId,
    /// The bytes of the tables that it wrote, in the order of their keys.
    pub tables: Items<Bytes>,
}

impl JobResult {
    ghost use Rattle.std.specs.Prelude.{◌≡◌, ◌↔◌, IfOk, IsTrue};

    /// The same result. Its tables share the bytes.
    pub fn copy(&self, alloc: Global) -> Result<JobResult, AllocError>
        ensures { IfOk result (λ copy. copy ≡ self.now) }
    {
        let tables = self.tables.as_slice().to_vec(alloc)?;
        Ok(JobResult {
            job: self.job,
            tables: Items::from_vec(tables),
        })
    }

    /// Whether two results are the same.
    pub fn same(&self, other: &JobResult) -> bool
        ensures { IsTrue result ↔ self.now ≡ other.now }
    {
        self.job == other.job && same_tables(self.tables.as_slice(), other.tables.as_slice())
    }
}
