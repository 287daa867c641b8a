//! Tallies: what a caller counted and recorded, with its share of a ledger of the history's length.

ghost use Rattle.std.specs.Prelude.{◌≡◌, ◌+◌, ◌≤◌, ◌++◌, vec_len, vec_capacity};

use crate::exchange::Exchange;
use lsm_claim::Settled;
use std::alloc::Global;
use std::marker::Model;
use std::sync::ledger::{Book, Ledger, Share};

/// One of a tally: a call with its answer, and its position in the history, from 1.
#[derive(Debug, Drop)]
pub struct Record {
    pub position: u64,
    pub exchange: Exchange,
}

/// The records of one caller, in the order of its calls.
#[derive(Drop)]
pub(crate) struct Records {
    items: Vec<Record>,
}

impl Model for Records {
    ghost use Rattle.std.specs.Prelude.{List};
    ghost use Rattle.lsm_nodes.specs.declared.shared.tally.Record.{Record};

    ghost Value = { List Record };

    ghost view = { λ r. r.items.items };
}

impl Records {
    ghost use Rattle.std.specs.Prelude.{◌≡◌};

    pub(crate) fn as_slice(&self) -> &[Record]
        ensures { result.now ≡ self.now }
    {
        self.items.as_slice()
    }
}

/// What a caller counted and recorded, and what was merged into it. Only the calls under the lock write its records. It has some of the parts
/// of its ledger.
///
/// Invariant: `picked` is the sum of `installed`, `returned` and `stale`, `installed` is the number of its records of installs that were done, and the
/// number of its records is its share of the history's length.
#[derive(Drop)]
pub struct Tally<J: Ledger> {
    parts: u64,
    pub(super) picked: u64,
    pub(super) installed: u64,
    returned: u64,
    stale: u64,
    pub(super) mine: Vec<Record>,
    pub(super) others: Vec<Records>,
    pub(super) share: Share<J>,
    alloc: Global,
}

impl<J: Ledger> Model for Tally<J> {
    ghost use Rattle.lsm_nodes.specs.Tallies.{IsTally, TallyValue};

    ghost Value = { TallyValue };

    ghost view = { λ t. record { parts = t.parts; picked = t.picked; installed = t.installed; returned = t.returned; stale = t.stale; mine = t.mine.items; others = t.others.items } };

    ghost invariant = { λ t. IsTally (record { parts = t.parts; picked = t.picked; installed = t.installed; returned = t.returned; stale = t.stale; mine = t.mine.items; others = t.others.items }) t.share.parts t.share.amount };
}

impl<J: Ledger> Tally<J> {
    ghost use Rattle.std.specs.Prelude.{◌≡◌, ◌+◌, ◌<◌, ◌^◌, IfErr, OnOk, count_by, length};
    ghost use Rattle.lsm_claim.specs.declared.ending.Settled.TheVariants.{Stale};
    ghost use Rattle.lsm_nodes.specs.Tallies.{after_merge, is_done, new_tally, records_of, with_return};

    // A tally of zero with all parts of a share.
    pub(crate) fn new(alloc: Global, share: Share<J>, parts: u64) -> Tally<J>
        requires parts { share.parts ≡ parts }
        requires amount { share.amount ≡ 0 }
        ensures { result ≡ new_tally parts }
    {
        Tally {
            parts,
            picked: 0,
            installed: 0,
            returned: 0,
            stale: 0,
            mine: Vec::new(alloc),
            others: Vec::new(alloc),
            share,
            alloc,
        }
    }

    /// A tally of zero for another caller, with one of the parts.
    pub fn split(&mut self) -> Tally<J>
        requires { 1 < self.old.parts }
        ensures given { result ≡ new_tally 1 }
        ensures left { self.new.parts + 1 ≡ self.old.parts }
        ensures same { self.new ≡ record self.old { parts = self.new.parts } }
    {
        let share = self.share.split_off(1, 0);
        self.parts -= 1;
        Tally::new(self.alloc, share, 1)
    }

    /// Adds another tally. Its lists of records stay apart. If memory runs out, nothing changes and the tally is handed back.
    pub fn merge(&mut self, other: Tally<J>) -> Result<(), Tally<J>>
        requires parts { self.old.parts + other.parts < 2 ^ 64 }
        requires picked { self.old.picked + other.picked < 2 ^ 64 }
        ensures ok { OnOk result (self.new ≡ after_merge self.old other) }
        ensures err { IfErr result (λ t. (t ≡ other) × (self.new ≡ self.old)) }
    {
        let more = other.others.len();
        if more == usize::MAX || self.others.reserve(more + 1).is_err() {
            return Err(other);
        }
        let Tally {
            parts,
            picked,
            installed,
            returned,
            stale,
            mine,
            others,
            share,
            alloc: _,
        } = other;
        self.parts += parts;
        self.picked += picked;
        self.installed += installed;
        self.returned += returned;
        self.stale += stale;
        self.share.merge(share);
        self.others.push_reserved(Records { items: mine });
        move_all(&mut self.others, others);
        Ok(())
    }

    /// How many parts of the ledger it has.
    pub fn parts(&self) -> u64
        ensures { result ≡ self.now.parts }
    {
        self.parts
    }

    /// How many claims its dispatchers settled, or that it installed: installed, returned or stale.
    pub fn picked(&self) -> u64
        ensures picked { result ≡ self.now.picked }
        ensures sum { self.now.picked ≡ self.now.installed + self.now.returned + self.now.stale }
    {
        self.picked
    }

    /// How many installs were done: as many as its records tell.
    pub fn installed(&self) -> u64
        ensures installed { result ≡ self.now.installed }
        ensures records { self.now.installed ≡ count_by is_done (records_of self.now) }
    {
        self.installed
    }

    /// How many claims were given back while they were live.
    pub fn returned(&self) -> u64
        ensures { result ≡ self.now.returned }
    {
        self.returned
    }

    /// How many claims were stale.
    pub fn stale(&self) -> u64
        ensures { result ≡ self.now.stale }
    {
        self.stale
    }

    // Counts a claim that was given back.
    pub(crate) fn count(&mut self, settled: Settled)
        requires { self.old.picked + 1 < 2 ^ 64 }
        ensures { self.new ≡ with_return self.old settled }
    {
        self.picked += 1;
        match settled {
            Settled::Live => self.returned += 1,
            Settled::Stale => self.stale += 1,
        }
    }

    // Shows that the number of its records is its share of the book's total.
    pub(crate) fn audit(&mut self, book: &mut Book<J>)
        ensures same { self.new ≡ self.old }
        ensures total { book.new.total ≡ book.old.total }
        ensures whole { self.old.parts ≡ J.parts → length (records_of self.old) ≡ book.old.total }
    {
        book.audit(&mut self.share);
    }
}

// Moves all lists to the end of others that have the room.
fn move_all(to: &mut Vec<Records>, from: Vec<Records>)
    requires { vec_len to.old + vec_len from ≤ vec_capacity to.old }
    ensures { to.new.items ≡ to.old.items ++ from.items }
{
    for records in from {
        to.push_reserved(records);
    }
}
