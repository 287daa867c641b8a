//! Dispatchers, each of which holds the claim of the job that it handed out until that is settled.

ghost use Rattle.std.specs.Prelude.{◌≡◌};
ghost use Rattle.std.specs.Option.{option_map};
ghost use Rattle.lsm_claim.specs.declared.job.LiveJob.{LiveJob};

use crate::Seat;
use lsm_claim::{Claim, JobId};
use lsm_vault::Vault;
use std::mem;

/// One that hands out jobs, one at a time. It is neither `Drop` nor `Copy`, so that the claim that it holds must be
/// settled.
pub enum Dispatcher {
    /// It holds no claim.
    Idle,
    /// It holds the claim of the job that it handed out.
    Busy(Claim),
}

impl Dispatcher {
    ghost use Rattle.lsm_coord.specs.declared.dispatcher.Dispatcher.TheVariants.{Idle, Busy};
    ghost use Rattle.lsm_coord.specs.Contract.Desks.{claim_of, job_of};
    ghost use Rattle.lsm_coord.specs.Contract.Restarts.{after_returning_all, seat_of};

    /// The name of the job whose claim it holds.
    pub fn id(&self) -> Option<JobId>
        ensures { result ≡ option_map (λ (j : LiveJob). j.id) (job_of self.now) }
    {
        match self {
            Dispatcher::Idle => None,
            Dispatcher::Busy(claim) => Some(claim.id()),
        }
    }

    /// Hands over the claim that it holds, and is idle from then on.
    pub fn take(&mut self) -> Option<Claim>
        ensures claim { result ≡ job_of self.old }
        ensures idle { self.new ≡ Idle }
    {
        match mem::replace(self, Dispatcher::Idle) {
            Dispatcher::Idle => None,
            Dispatcher::Busy(claim) => Some(claim),
        }
    }

    /// Holds a claim from now on. One that it held before is handed back.
    pub fn hold(&mut self, claim: Claim) -> Option<Claim>
        ensures before { result ≡ job_of self.old }
        ensures busy { self.new ≡ Busy claim }
    {
        match mem::replace(self, Dispatcher::Busy(claim)) {
            Dispatcher::Idle => None,
            Dispatcher::Busy(before) => Some(before),
        }
    }

    // Gives back the claim that it holds.
    pub(crate) fn close<V: Vault>(self, seat: &mut Seat<V>)
        ensures { seat_of V.stored V.failures seat.new ≡ after_returning_all (seat_of V.stored V.failures seat.old) (claim_of self) }
    {
        match self {
            Dispatcher::Idle => {}
            Dispatcher::Busy(claim) => {
                seat.give_back(claim);
            }
        }
    }
}
