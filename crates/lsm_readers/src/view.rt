//! What somebody has seen of the list of publications.

ghost use Rattle.std.specs.Prelude.{◌≡◌, ◌+◌, ◌<◌, ◌≤◌, ◌^◌, ◌++◌, ◌∷◌, ◌⊎◌, [], length, MatchBool};
ghost use mathlib.Core.List.{IsPrefix};
ghost use Rattle.lsm_readers.specs.Publications.{AreRising, IsLater, IsLonger};

use crate::log::{LogName, PublicationLog};
use crate::rule::{Addition, NoGain, Rising};
use logbook::{Offer, Seen};
use lsm_edit::Served;
use std::marker::{Model, PhantomData};

/// A beginning of the list of publications, as somebody has seen it. Contracts see the publications. At run time it is a
/// number.
///
/// Invariant: the version numbers rise, and the number is that of the publications.
#[derive(Drop)]
pub struct View<J: LogName> {
    count: u64,
    seen: Seen<Served, u64, Rising>,
    name: PhantomData<J>,
}

impl<J: LogName> Model for View<J> {
    ghost use Rattle.std.specs.Prelude.{◌≡◌, List, length};
    ghost use Rattle.lsm_edit.specs.Served.{ServedValue};
    ghost use Rattle.lsm_readers.specs.Publications.{AreRising};

    ghost Value = { List ServedValue };

    ghost view = { λ v. v.seen.log };

    ghost invariant = { λ v. (v.count ≡ length v.seen.log) × (v.seen.book ≡ J.log) × AreRising v.seen.log };
}

impl<J: LogName> View<J> {
    // The view that has seen nothing.
    pub(crate) fn first(seen: Seen<Served, u64, Rising>) -> View<J>
        requires { (seen.log ≡ []) × (seen.book ≡ J.log) }
        ensures { result ≡ [] }
    {
        View {
            count: 0,
            seen,
            name: PhantomData,
        }
    }

    /// How many publications it has.
    pub fn len(&self) -> u64
        ensures length { result ≡ length self.now }
        ensures rising { AreRising self.now }
    {
        self.count
    }

    /// The same view.
    pub fn copy(&self) -> View<J>
        ensures { result ≡ self.now }
    {
        View {
            count: self.count,
            seen: self.seen.again(),
            name: PhantomData,
        }
    }

    /// The longer of two views. Both begin it.
    pub fn longer(&self, other: &View<J>) -> View<J>
        ensures one { (result ≡ self.now) ⊎ (result ≡ other.now) }
        ensures this { IsPrefix self.now result }
        ensures that { IsPrefix other.now result }
        ensures rising { AreRising result }
    {
        let mut both = self.seen.again();
        both.learn(&other.seen);
        if self.count < other.count {
            other.copy()
        } else {
            self.copy()
        }
    }

    /// A view that is no shorter, which this one begins.
    pub fn onward(&self, later: &View<J>) -> View<J>
        requires { length self.now ≤ length later.now }
        ensures same { result ≡ later.now }
        ensures this { IsPrefix self.now result }
        ensures rising { AreRising result }
    {
        let mut both = self.seen.again();
        both.learn(&later.seen);
        later.copy()
    }

    /// Adds a version to the log after all that was seen, and says whether it did. It did not if the log is longer, and
    /// that was seen.
    pub fn add(&mut self, log: &PublicationLog<J>, served: &Served) -> bool
        requires room { length self.old < 2 ^ 62 }
        requires later { IsLater self.old served.now }
        ensures { MatchBool result (self.new ≡ self.old ++ served.now ∷ []) (IsLonger self.old self.new) }
    {
        let mut offer: Offer<Served, u64, Rising, NoGain> = self
            .seen
            .plain::<NoGain, Served, Addition>(served);
        let mut pen = self.seen.no_pen();
        let count = self.count;
        let found = log
            .head
            .compare_exchange::<Addition, NoGain>(
                count,
                count + 1,
                &mut self.seen,
                &mut offer,
                &mut pen,
            );
        self.count = if found == count { count + 1 } else { found };
        found == count
    }
}
