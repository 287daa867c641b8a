//! The seat of a coordinator, which is up or down.

use crate::Coord;
use lsm_claim::{Claim, ClaimBook, Ending, Settled};
use lsm_key::Limits;
use lsm_vault::Vault;
use lsm_versions::OpenError;
use std::alloc::Global;

/// A coordinator that runs, or what outlives it. It is `Drop` if the vault is.
#[derive(Drop)]
pub enum Seat<V: Vault> {
    /// The coordinator runs.
    Up(Coord<V>),
    /// It is down: what is left are the vault, a book without live claims, and the limits.
    Down(V, ClaimBook, Limits),
}

impl<V: Vault> Seat<V> {
    ghost use Rattle.std.specs.Prelude.{◌≡◌, IfErr};
    ghost use Rattle.lsm_claim.specs.Book.{settle_answer};
    ghost use Rattle.lsm_coord.specs.Model.Changes.{after_stop};
    ghost use Rattle.lsm_coord.specs.Model.State.{State};
    ghost use Rattle.lsm_coord.specs.Contract.Restarts.{RestartFollows, Restarts, after_return, seat_of};
    ghost use Rattle.lsm_coord.specs.Contract.Seats.{LogComesFirst, ShowsDown, ShowsSeat};

    /// Lets go of all that is not in the vault, and opens the vault again, in the next epoch. No write is lost; snapshots are, and all
    /// claims are stale. If the opening is refused, the coordinator is down, and a restart may be tried again.
    pub fn restart(self, alloc: Global) -> (Seat<V>, Result<(), OpenError>)
        ensures restarts { Restarts (seat_of V.stored V.failures self) result.1 (seat_of V.stored V.failures result.0) }
        ensures step { RestartFollows (seat_of V.stored V.failures self) result.1 (seat_of V.stored V.failures result.0) }
        ensures first { IfErr result.1 (LogComesFirst (seat_of V.stored V.failures self).stored) }
    {
        let (vault, epoch, limits) = self.stop();
        match Coord::open(alloc, vault, limits) {
            Ok(coord) => (Seat::Up(coord), Ok(())),
            Err((why, vault)) => {
                let book = ClaimBook::new(alloc, epoch);
                (Seat::Down(vault, book, limits), Err(why))
            }
        }
    }

    // Ends the coordinator, if it is up. What is left are the vault, the epoch and the limits.
    fn stop(self) -> (V, u64, Limits)
        ensures vault { V.stored result.0 ≡ (seat_of V.stored V.failures self).stored }
        ensures failures { V.failures result.0 ≡ (seat_of V.stored V.failures self).failures }
        ensures epoch { result.1 ≡ (seat_of V.stored V.failures self).book.epoch }
        ensures limits { result.2 ≡ (seat_of V.stored V.failures self).limits }
        ensures shown { (s : State) → ShowsSeat (seat_of V.stored V.failures self) s → ShowsDown (V.stored result.0) (after_stop s) }
    {
        match self {
            Seat::Up(coord) => {
                let (epoch, limits) = (coord.epoch(), coord.limits());
                (coord.close(), epoch, limits)
            }
            Seat::Down(vault, book, limits) => (vault, book.epoch(), limits),
        }
    }

    /// Ends a claim without a result. It is stale while the coordinator is down. Allocates nothing.
    pub fn give_back(&mut self, claim: Claim) -> Settled
        ensures answer { result ≡ settle_answer (seat_of V.stored V.failures self.old).book claim.id }
        ensures book { seat_of V.stored V.failures self.new ≡ after_return (seat_of V.stored V.failures self.old) claim.id }
    {
        match self {
            Seat::Up(coord) => coord.give_back(claim),
            Seat::Down(_, book, _) => book.settle(claim, Ending::Returned),
        }
    }

    /// Ends it, and hands the vault back.
    pub fn close(self) -> V
        ensures vault { V.stored result ≡ (seat_of V.stored V.failures self).stored }
        ensures failures { V.failures result ≡ (seat_of V.stored V.failures self).failures }
    {
        match self {
            Seat::Up(coord) => coord.close(),
            Seat::Down(vault, _, _) => vault,
        }
    }
}
