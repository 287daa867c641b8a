//! The book of claims, and the claims that it issues.
//!
//! The two stand alone in this module. Their fields are private to it, so that no other code can make a claim or take
//! one apart, and `settle` is the only way to end one.

ghost use Rattle.std.specs.Prelude.{◌≡◌};
ghost use Rattle.lsm_claim.specs.Jobs.{without_job};

use crate::{ClaimError, Ending, Hull, JobId, LiveJob, Settled, Want};
use lsm_key::{MAX_LIVE_CLAIMS, MAX_NUMBER};
use std::alloc::Global;
use std::marker::Model;

/// The right to install the result of a job. It is neither `Drop` nor `Copy`: `ClaimBook::claim` makes it, and only
/// `ClaimBook::settle` ends it.
pub struct Claim {
    job: LiveJob,
}

impl Model for Claim {
    ghost use Rattle.lsm_claim.specs.declared.job.LiveJob.{LiveJob};

    ghost Value = { LiveJob };

    ghost view = { λ c. c.job };
}

impl Claim {
    ghost use Rattle.std.specs.Prelude.{◌≡◌};

    /// The name of its job.
    pub fn id(&self) -> JobId
        ensures { result ≡ self.now.id }
    {
        self.job.id
    }

    /// The upper level of its job.
    pub fn level(&self) -> u8
        ensures { result ≡ self.now.want.level }
    {
        self.job.want.level
    }

    /// The numbers of its job's input files.
    pub fn inputs(&self) -> &[u64]
        ensures { result.now ≡ self.now.want.files }
    {
        self.job.want.files.as_slice()
    }

    /// The keys of its job.
    pub fn hull(&self) -> &Hull
        ensures { result.now ≡ self.now.want.hull }
    {
        &self.job.want.hull
    }
}

/// The claims of one epoch: which jobs are live, and how the others ended.
///
/// Invariant: each claim that it issued is live or has ended; the live ones are at most `MAX_LIVE_CLAIMS`, by number,
/// and no two of them conflict.
#[derive(Debug, Drop)]
pub struct ClaimBook {
    alloc: Global,
    epoch: u64,
    // How many claims it issued, which is the number of the last one.
    made: u64,
    installed: u64,
    returned: u64,
    // By number.
    live: Vec<LiveJob>,
}

impl Model for ClaimBook {
    ghost use Rattle.lsm_claim.specs.Book.{BookValue, IsBook};

    ghost Value = { BookValue };

    ghost view = { λ b. record { epoch = b.epoch; made = b.made; installed = b.installed; returned = b.returned; live = b.live.items } };

    ghost invariant = { λ b. IsBook (record { epoch = b.epoch; made = b.made; installed = b.installed; returned = b.returned; live = b.live.items }) };
}

impl ClaimBook {
    ghost use Rattle.std.specs.Prelude.{◌≡◌, ◌≤◌, None, IfOk, IfErr, OnErr};
    ghost use Rattle.lsm_key.specs.Faults.{Refuses};
    ghost use Rattle.lsm_claim.specs.Jobs.{ShareNoKey, first_conflict};
    ghost use Rattle.lsm_claim.specs.Book.{IsBook, NamesLeast, new_book, holds, claim_fault, next_job, after_claim, settle_answer, after_settling};

    /// A book of an epoch that has issued no claim yet. Allocates nothing.
    pub fn new(alloc: Global, epoch: u64) -> ClaimBook
        ensures { result ≡ new_book epoch }
    {
        ClaimBook {
            alloc,
            epoch,
            made: 0,
            installed: 0,
            returned: 0,
            live: Vec::new(alloc),
        }
    }

    /// Its epoch.
    pub fn epoch(&self) -> u64
        ensures { result ≡ self.now.epoch }
    {
        self.epoch
    }

    /// How many claims it issued, at most `MAX_NUMBER`.
    pub fn made(&self) -> u64
        ensures value { result ≡ self.now.made }
        ensures bound { result ≤ MAX_NUMBER }
    {
        self.made
    }

    /// How many of them were settled as installed.
    pub fn installed(&self) -> u64
        ensures { result ≡ self.now.installed }
    {
        self.installed
    }

    /// How many of them were settled as returned.
    pub fn returned(&self) -> u64
        ensures { result ≡ self.now.returned }
    {
        self.returned
    }

    /// The live jobs, by number.
    pub fn live(&self) -> &[LiveJob]
        ensures all { result.now ≡ self.now.live }
        ensures sound { IsBook self.now }
        ensures disjoint { ShareNoKey self.now.live }
    {
        self.live.as_slice()
    }

    /// Whether the claim's job is live here.
    pub fn holds(&self, claim: &Claim) -> bool
        ensures { result ≡ holds self.now claim.now.id }
    {
        self.has(claim.job.id)
    }

    /// Claims a job, under the next number of the epoch. It refuses a job that conflicts with a live one, one that
    /// would exceed `MAX_LIVE_CLAIMS`, and one whose number would exceed `MAX_NUMBER`. A refusal changes nothing.
    pub fn claim(&mut self, want: Want) -> Result<Claim, ClaimError>
        ensures free { IfOk result (λ claim. claim_fault self.old want ≡ None) }
        ensures given { IfOk result (λ claim. claim ≡ next_job self.old want) }
        ensures ok { IfOk result (λ claim. self.new ≡ after_claim self.old want) }
        ensures err { OnErr result (self.new ≡ self.old) }
        ensures refused { IfErr result (Refuses ClaimError.OutOfMemory (claim_fault self.old want)) }
        ensures least { IfErr result (NamesLeast self.old want) }
    {
        if let Some(why) = self.claim_fault(&want) {
            return Err(why);
        }
        let kept = want.copy(self.alloc)?;
        let id = JobId {
            epoch: self.epoch,
            number: self.made + 1,
        };
        self.live.push(LiveJob { id, want: kept })?;
        self.made += 1;
        Ok(Claim {
            job: LiveJob { id, want },
        })
    }

    /// Ends a claim. If its job is live here, the job is removed and its ending is counted; otherwise the claim is
    /// stale, and the book stays as it was. Allocates nothing.
    pub fn settle(&mut self, claim: Claim, ending: Ending) -> Settled
        ensures answer { result ≡ settle_answer self.old claim.id }
        ensures book { self.new ≡ after_settling self.old claim.id ending }
    {
        let id = claim.id();
        let Claim { job: _ } = claim;
        if !self.has(id) {
            return Settled::Stale;
        }
        take_out(&mut self.live, id);
        match ending {
            Ending::Installed => self.installed += 1,
            Ending::Returned => self.returned += 1,
        }
        Settled::Live
    }

    // Whether the job is live.
    fn has(&self, id: JobId) -> bool
        ensures { result ≡ holds self.now id }
    {
        self.live.iter().any(|job| job.id == id)
    }

    // Why the job can't be claimed, if it can't.
    fn claim_fault(&self, want: &Want) -> Option<ClaimError>
        ensures { result ≡ claim_fault self.now want.now }
    {
        if let Some(id) = self.first_conflict(want) {
            return Some(ClaimError::Overlaps(id));
        }
        if self.live.len() >= MAX_LIVE_CLAIMS {
            return Some(ClaimError::BookFull);
        }
        if self.made >= MAX_NUMBER {
            return Some(ClaimError::NumbersExhausted);
        }
        None
    }

    // The live job of the least number that conflicts.
    fn first_conflict(&self, want: &Want) -> Option<JobId>
        ensures { result ≡ first_conflict self.now.live want.now }
    {
        let job = self.live.iter().find(|job| job.want.conflicts_with(want))?;
        Some(job.id)
    }
}

// Removes a job from the live ones.
fn take_out(live: &mut Vec<LiveJob>, id: JobId)
    ensures { live.new.items ≡ without_job id live.old.items }
{
    live.retain(|job| job.id != id);
}
