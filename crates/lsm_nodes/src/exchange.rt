//! Calls with their answers, as a history and a tally keep them.

use lsm_coord::{Answer, Call};
use lsm_edit::Served;
use std::marker::Model;
use std::snapshot::Snapshot;

/// A call with its answer.
#[derive(Debug, Drop)]
pub struct Exchange {
    pub call: Call,
    pub answer: Answer,
}

impl Exchange {
    ghost use Rattle.std.specs.Prelude.{◌≡◌, ◌↔◌, IsTrue};

    /// Whether two exchanges are the same.
    pub fn same(&self, other: &Exchange) -> bool
        ensures { IsTrue result ↔ self.now ≡ other.now }
    {
        self.call.same(&other.call) && self.answer.same(&other.answer)
    }
}

/// What remembers a version with its tables, for the proof alone. A program takes `Snapshot<Served>`, which has no bytes.
pub trait Witness {
    ghost use Rattle.std.specs.Prelude.{◌≡◌};
    ghost use Rattle.lsm_edit.specs.Served.{ServedValue};

    ghost seen: { Self → ServedValue };

    fn of(served: &Served) -> Self
        ensures { seen result ≡ served.now };
}

impl Witness for Snapshot<Served> {
    ghost seen = { λ n. n.value };

    fn of(served: &Served) -> Snapshot<Served> {
        Snapshot::of(served)
    }
}

/// One of a history, with the version and its tables before it.
///
/// A `Snapshot` beside an enum is not seen to be `Send`, so its type is a parameter.
#[derive(Drop)]
pub struct Witnessed<N: Witness + Drop> {
    exchange: Exchange,
    before: N,
}

impl<N: Witness + Drop> Model for Witnessed<N> {
    ghost use Rattle.lsm_nodes.specs.Histories.{WitnessedValue};

    ghost Value = { WitnessedValue };

    ghost view = { λ w. record { exchange = w.exchange; before = N.seen w.before } };
}

impl<N: Witness + Drop> Witnessed<N> {
    ghost use Rattle.std.specs.Prelude.{◌≡◌};

    pub(crate) fn new(exchange: Exchange, before: N) -> Witnessed<N>
        ensures { result ≡ record { exchange = exchange; before = N.seen before } }
    {
        Witnessed { exchange, before }
    }

    /// The call with its answer.
    pub fn exchange(&self) -> &Exchange
        ensures { result.now ≡ self.now.exchange }
    {
        &self.exchange
    }
}
