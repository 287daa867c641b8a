//! Claims of jobs: how they are picked, and how they are given back.

ghost use Rattle.std.specs.Prelude.{◌≡◌, ℕ, Option, None, IfOk, IfErr, IfSome, OnOk, OnErr};
ghost use Rattle.std.specs.Option.{option_copied};
ghost use Rattle.lsm_claim.specs.Book.{settle_answer, after_claim, next_job};
ghost use Rattle.lsm_edit.specs.Served.{IsServed};
ghost use Rattle.lsm_edit.specs.Version.{IsVersion};
ghost use Rattle.lsm_msg.specs.Legal.{IsLegal};
ghost use Rattle.lsm_pick.specs.declared.error.PickError.TheVariants.{OutOfMemory, TooWide};
ghost use Rattle.lsm_pick.specs.After.{CompactPointersValue};
ghost use Rattle.lsm_coord.specs.declared.error.CoordError.TheVariants as refusal;
ghost use Rattle.lsm_coord.specs.Model.Changes.{IsIndex};
ghost use Rattle.lsm_coord.specs.Model.Event.{Pick, GiveUp, Other};
ghost use Rattle.lsm_coord.specs.Contract.Shows.{Follows};
ghost use Rattle.lsm_coord.specs.Contract.Sound.{IsSound, KeepsSound};
ghost use Rattle.lsm_coord.specs.Contract.Calls.{after_give_back};
ghost use Rattle.lsm_coord.specs.Contract.Replies.{pick_reply};
ghost use Rattle.lsm_coord.specs.Contract.Memory.{IsJobWant};
ghost use Rattle.lsm_coord.specs.Contract.Picking.{HasFreeClaim, IsJobFor, MayClaim, NextCompactionAfter, NothingToCompact, OnlyTooLarge, PickRefuses, Picks, PicksAfter, SomethingToCompact};

use super::Coord;
use crate::CoordError;
use crate::job::{deeper_of, inputs_of, points_of};
use lsm_claim::{Claim, Ending, JobId, Settled, Want};
use lsm_key::{Items, MAX_LIVE_CLAIMS, MAX_NUMBER};
use lsm_msg::{Job, JobParts};
use lsm_pick::{CompactPointers, PickError, pick_after};
use lsm_vault::Vault;
use std::alloc::AllocError;

impl<V: Vault> Coord<V> {
    /// Claims the next job, and returns its claim with the job, or `None` if no level needs compaction or all
    /// candidates conflict with running jobs. A refusal changes nothing.
    pub fn pick(&mut self) -> Result<Option<(Claim, Job)>, CoordError>
        ensures step { (dispatcher : ℕ) → IsIndex dispatcher → Follows self.old (Pick dispatcher) (pick_reply result) self.new }
        ensures ok { IfOk result (Picks self.old self.new) }
        ensures err { OnErr result (self.new ≡ self.old) }
        ensures refused { IfErr result (PickRefuses self.old) }
        ensures job { IfOk result (λ picked. IfSome picked (λ r. IsSound self.new r.1)) }
        ensures sound { KeepsSound self.old self.new }
    {
        self.pick_after(None)
    }

    /// `pick` in the order of compact pointers: of each level that needs compaction the files behind its pointer come
    /// first, and then the others. So merges go round the keys of a level, and do not come back to its files with the
    /// least numbers. Without pointers it is `pick`.
    pub fn pick_after(
        &mut self,
        pointers: Option<&CompactPointers>,
    ) -> Result<Option<(Claim, Job)>, CoordError>
        ensures step { (dispatcher : ℕ) → IsIndex dispatcher → Follows self.old (Pick dispatcher) (pick_reply result) self.new }
        ensures ok { IfOk result (PicksAfter (option_copied pointers.entry) self.old self.new) }
        ensures err { OnErr result (self.new ≡ self.old) }
        ensures refused { IfErr result (PickRefuses self.old) }
        ensures job { IfOk result (λ picked. IfSome picked (λ r. IsSound self.new r.1)) }
        ensures sound { KeepsSound self.old self.new }
    {
        let Some(want) = self.wanted(pointers)? else {
            return Ok(None);
        };
        let job = self.job_of(&want)?;
        let claim = self.claim(want)?;
        Ok(Some((claim, job)))
    }

    // What the rule of a pick gives, if it can be claimed.
    fn wanted(&self, pointers: Option<&CompactPointers>) -> Result<Option<Want>, CoordError>
        ensures some { IfOk result (λ wanted. IfSome wanted (MayClaim (option_copied pointers.entry) self.now)) }
        ensures none { IfOk result (λ wanted. wanted ≡ None → HasFreeClaim self.now × NothingToCompact self.now) }
        ensures memory { IfOk result (λ wanted. IfSome wanted (λ want. PickRefuses self.now refusal.OutOfMemory)) }
        ensures refused { IfErr result (PickRefuses self.now) }
    {
        if self.book.live().len() >= MAX_LIVE_CLAIMS {
            return Err(CoordError::BookFull);
        }
        let exhausted = self.book.made() >= MAX_NUMBER;
        match self.next_compaction(pointers) {
            Ok(None) => Ok(None),
            Ok(Some(_)) if exhausted => Err(CoordError::NumbersExhausted),
            Ok(Some(want)) => Ok(Some(want)),
            Err(PickError::TooWide) => Err(CoordError::TooWide),
            // The rule allocates only for a compaction that it returns.
            Err(PickError::OutOfMemory) if exhausted => Err(CoordError::NumbersExhausted),
            Err(PickError::OutOfMemory) => Err(CoordError::OutOfMemory),
        }
    }

    // What the rule of a pick gives in the order of the pointers.
    fn next_compaction(&self, pointers: Option<&CompactPointers>) -> Result<Option<Want>, PickError>
        ensures some { IfOk result (λ next. IfSome next (NextCompactionAfter (option_copied pointers.entry) self.now)) }
        ensures something { IfOk result (λ next. IfSome next (λ want. SomethingToCompact self.now)) }
        ensures orderly { IfOk result (λ next. IfSome next IsJobWant) }
        ensures legal { IfOk result (λ next. IfSome next (IsLegal self.now.served.version.files)) }
        ensures none { IfOk result (λ next. next ≡ None → NothingToCompact self.now) }
        ensures too_wide { IfErr result (λ e. e ≡ TooWide → OnlyTooLarge self.now) }
        ensures memory { IfErr result (λ e. e ≡ OutOfMemory → SomethingToCompact self.now) }
    {
        pick_after(
            self.alloc,
            self.versions.served(),
            &self.book,
            &self.limits,
            pointers,
        )
    }

    // The job of a compaction, under the next name.
    fn job_of(&self, want: &Want) -> Result<Job, AllocError>
        requires { (pointers : Option CompactPointersValue) × MayClaim pointers self.now want.now }
        ensures job { IfOk result (IsJobFor self.now want.now) }
        ensures sound { IsServed self.now.served × IsVersion self.now.served.version }
    {
        let id = JobId {
            epoch: self.book.epoch(),
            number: self.book.made() + 1,
        };
        let files = self.versions.served().listing().files;
        let points = points_of(self.alloc, &self.live)?;
        let inputs = inputs_of(self.alloc, files, want)?;
        let deeper = deeper_of(self.alloc, files, want)?;
        let parts = JobParts {
            id,
            level: want.level,
            block: self.limits.block,
            points: Items::from_vec(points),
            inputs: Items::from_vec(inputs),
            deeper: Items::from_vec(deeper),
        };
        Ok(Job::new(parts).unwrap())
    }

    // Claims a compaction known to be free; fails only on allocation.
    fn claim(&mut self, want: Want) -> Result<Claim, AllocError>
        requires { (pointers : Option CompactPointersValue) × MayClaim pointers self.old want }
        ensures claim { IfOk result (λ claim. claim ≡ next_job self.old.book want) }
        ensures ok { OnOk result (self.new ≡ record self.old { book = after_claim self.old.book want }) }
        ensures err { OnErr result (self.new ≡ self.old) }
    {
        match self.book.claim(want) {
            Ok(claim) => Ok(claim),
            Err(_) => Err(AllocError),
        }
    }

    /// Ends a claim without a result. If its job is live, the job is removed and its files may be picked again;
    /// otherwise the claim is stale, and nothing changes. Allocates nothing.
    pub fn give_back(&mut self, claim: Claim) -> Settled
        ensures step { (dispatcher : ℕ) → IsIndex dispatcher → Follows self.old (GiveUp dispatcher) Other self.new }
        ensures answer { result ≡ settle_answer self.old.book claim.id }
        ensures book { self.new ≡ after_give_back self.old claim.id }
        ensures sound { KeepsSound self.old self.new }
    {
        self.book.settle(claim, Ending::Returned)
    }
}
