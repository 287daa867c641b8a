//! The desk: the dispatchers of a store.

use crate::{Dispatcher, Seat};
use lsm_claim::{Claim, JobId};
use lsm_msg::NodeIndex;
use lsm_vault::Vault;
use std::marker::Model;

/// Four dispatchers, numbered as the workers are. It is neither `Drop` nor `Copy`: only `close` ends it.
pub struct Desk {
    first: Dispatcher,
    second: Dispatcher,
    third: Dispatcher,
    fourth: Dispatcher,
}

impl Model for Desk {
    ghost use Rattle.std.specs.Prelude.{List, [], ◌∷◌};
    ghost use Rattle.lsm_coord.specs.declared.dispatcher.Dispatcher.{Dispatcher};

    ghost Value = { List Dispatcher };

    ghost view = { λ d. d.first ∷ d.second ∷ d.third ∷ d.fourth ∷ [] };
}

impl Desk {
    ghost use Rattle.std.specs.Prelude.{◌≡◌};
    ghost use Rattle.lsm_coord.specs.declared.dispatcher.Dispatcher.TheVariants.{Idle, Busy};
    ghost use Rattle.lsm_coord.specs.Model.State.{State};
    ghost use Rattle.lsm_coord.specs.Contract.Desks.{claims_of, dispatcher_of, job_of, new_desk, with_dispatcher};
    ghost use Rattle.lsm_coord.specs.Contract.Restarts.{CoreKeepsSound, after_returning_all, seat_of};
    ghost use Rattle.lsm_coord.specs.Contract.Seats.{ShowsSeat};

    /// A desk of dispatchers that hold no claim.
    pub fn new() -> Desk
        ensures { result ≡ new_desk }
    {
        Desk {
            first: Dispatcher::Idle,
            second: Dispatcher::Idle,
            third: Dispatcher::Idle,
            fourth: Dispatcher::Idle,
        }
    }

    /// One of its dispatchers.
    pub fn dispatcher(&self, index: NodeIndex) -> &Dispatcher
        ensures { result.now ≡ dispatcher_of self.now index }
    {
        match index.number() {
            1 => &self.first,
            2 => &self.second,
            3 => &self.third,
            _ => &self.fourth,
        }
    }

    /// Takes the claim that a dispatcher holds.
    pub fn take(&mut self, index: NodeIndex) -> Option<Claim>
        ensures claim { result ≡ job_of (dispatcher_of self.old index) }
        ensures idle { self.new ≡ with_dispatcher self.old index Idle }
    {
        match index.number() {
            1 => self.first.take(),
            2 => self.second.take(),
            3 => self.third.take(),
            _ => self.fourth.take(),
        }
    }

    /// Lets a dispatcher hold a claim. One that it held before is handed back.
    pub fn hold(&mut self, index: NodeIndex, claim: Claim) -> Option<Claim>
        ensures before { result ≡ job_of (dispatcher_of self.old index) }
        ensures busy { self.new ≡ with_dispatcher self.old index (Busy claim) }
    {
        match index.number() {
            1 => self.first.hold(claim),
            2 => self.second.hold(claim),
            3 => self.third.hold(claim),
            _ => self.fourth.hold(claim),
        }
    }

    /// Gives each claim that is held back to the seat, from the first dispatcher on. Allocates nothing.
    pub fn close<V: Vault>(self, seat: &mut Seat<V>)
        ensures returned { seat_of V.stored V.failures seat.new ≡ after_returning_all (seat_of V.stored V.failures seat.old) (claims_of self) }
        ensures shown { (s : State) → ShowsSeat (seat_of V.stored V.failures seat.old) s → ShowsSeat (seat_of V.stored V.failures seat.new) s }
        ensures sound { CoreKeepsSound (seat_of V.stored V.failures seat.old).core (seat_of V.stored V.failures seat.new).core }
    {
        let Desk {
            first,
            second,
            third,
            fourth,
        } = self;
        first.close(seat);
        second.close(seat);
        third.close(seat);
        fourth.close(seat);
    }
}
