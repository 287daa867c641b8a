//! The workers of a coordinator, and the claims of the jobs that they have.

ghost use Rattle.std.specs.Prelude.{◌≡◌, ◌↔◌, ◌∷◌, [], IsTrue};
ghost use Rattle.lsm_dispatch.specs.Crews.{IsBusyWith, has_busy, is_busy, busy_job, new_crew, start_state, state_of, with_state};

use lsm_claim::{Claim, JobId};
use lsm_msg::{Job, NodeIndex};
use lsm_pick::CompactPointers;
use std::marker::Model;
use std::mem;

/// A worker as the coordinator knows it. It is neither `Drop` nor `Copy`, so that a claim must be settled.
pub enum WorkerState {
    /// It takes no job: it is gone, or was never there.
    Gone,
    /// It waits for a job.
    Idle,
    /// It has the job of this claim.
    Busy(Claim),
}

/// Four workers, numbered as nodes are. It is neither `Drop` nor `Copy`: only `close` ends it.
pub struct Crew {
    first: WorkerState,
    second: WorkerState,
    third: WorkerState,
    fourth: WorkerState,
    // Where each level goes on. They determine only which of the jobs that are due is handed out next.
    pointers: CompactPointers,
}

impl Model for Crew {
    ghost use Rattle.std.specs.Prelude.{List, [], ◌∷◌};
    ghost use Rattle.lsm_dispatch.specs.declared.crew.WorkerState.{WorkerState};

    ghost Value = { List WorkerState };

    ghost view = { λ c. c.first ∷ c.second ∷ c.third ∷ c.fourth ∷ [] };
}

impl WorkerState {
    /// The claim of the job that it has.
    pub fn into_claim(self) -> Option<Claim>
        ensures { result ≡ busy_job self }
    {
        match self {
            WorkerState::Gone => None,
            WorkerState::Idle => None,
            WorkerState::Busy(claim) => Some(claim),
        }
    }

    /// Whether it has this job.
    pub fn has_job(&self, id: JobId) -> bool
        ensures { IsTrue result ↔ IsBusyWith self.now id }
    {
        match self {
            WorkerState::Gone => false,
            WorkerState::Idle => false,
            WorkerState::Busy(claim) => claim.id() == id,
        }
    }

    /// Whether it waits for a job.
    pub fn is_idle(&self) -> bool
        ensures { IsTrue result ↔ self.now ≡ WorkerState.Idle }
    {
        matches!(self, WorkerState::Idle)
    }

    fn is_busy(&self) -> bool
        ensures { result ≡ is_busy self.now }
    {
        matches!(self, WorkerState::Busy(_))
    }
}

// A worker of this number, if `count` are there at first.
fn start_state(count: NodeIndex, number: u8) -> WorkerState
    ensures { result ≡ start_state count number }
{
    if number <= count.number() {
        return WorkerState::Idle;
    }
    WorkerState::Gone
}

impl Crew {
    /// The first `count` workers are there and idle.
    pub fn new(count: NodeIndex) -> Crew
        ensures { result ≡ new_crew count }
    {
        Crew {
            first: start_state(count, 1),
            second: start_state(count, 2),
            third: start_state(count, 3),
            fourth: start_state(count, 4),
            pointers: CompactPointers::new(),
        }
    }

    /// One of the workers.
    pub fn state(&self, index: NodeIndex) -> &WorkerState
        ensures { result.now ≡ state_of self.now index }
    {
        match index.number() {
            1 => &self.first,
            2 => &self.second,
            3 => &self.third,
            _ => &self.fourth,
        }
    }

    /// Puts a worker into another state, and returns that before.
    pub(crate) fn replace(&mut self, index: NodeIndex, state: WorkerState) -> WorkerState
        ensures before { result ≡ state_of self.old index }
        ensures after { self.new ≡ with_state self.old index state }
        ensures held { state_of self.new index ≡ state }
    {
        match index.number() {
            1 => mem::replace(&mut self.first, state),
            2 => mem::replace(&mut self.second, state),
            3 => mem::replace(&mut self.third, state),
            _ => mem::replace(&mut self.fourth, state),
        }
    }

    /// Whether a worker has a job.
    pub fn is_busy(&self) -> bool
        ensures { result ≡ has_busy self.now }
    {
        self.first.is_busy()
            || self.second.is_busy()
            || self.third.is_busy()
            || self.fourth.is_busy()
    }

    /// Where each level goes on.
    pub(crate) fn pointers(&self) -> &CompactPointers {
        &self.pointers
    }

    /// Moves the pointers on to the end of a job.
    pub(crate) fn follow(&mut self, job: &Job)
        ensures { self.new ≡ self.old }
    {
        self.pointers.follow(job.level(), job.inputs());
    }

    /// Its workers, one by one.
    pub(crate) fn into_states(self) -> (WorkerState, WorkerState, WorkerState, WorkerState)
        ensures { self ≡ result.0 ∷ result.1 ∷ result.2 ∷ result.3 ∷ [] }
    {
        let Crew {
            first,
            second,
            third,
            fourth,
            pointers: _,
        } = self;
        (first, second, third, fourth)
    }
}
