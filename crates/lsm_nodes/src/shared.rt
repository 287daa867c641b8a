//! The value under the lock: a coordinator with the history of its calls.

ghost use Rattle.std.specs.Prelude.{◌≡◌, ◌+◌, ◌<◌, ◌++◌, ◌∷◌, [], IsTrue, length, vec_len, vec_capacity};
ghost use Rattle.lsm_nodes.specs.Tallies.{exchange_of, record_at};

mod claims;
mod install;
mod read;
mod tally;
mod write;

use crate::exchange::{Exchange, Witness, Witnessed};
use crate::matching::is_parted;
use crate::twice::Twice;
use lsm_coord::{Answer, Call, Coord, Seat};
use lsm_vault::Vault;
use std::alloc::Global;
use std::marker::{Brand, Model};
use std::sync::ledger::{Book, Ledger, Share};
pub(crate) use tally::Records;
pub use tally::{Record, Tally};

/// The ledger of a hub, with the coordinator at the start. A program takes `Brand`, and picks both where it makes the hub.
pub trait Start: Ledger {
    ghost use Rattle.lsm_coord.specs.Contract.Value.{CoordValue};

    ghost start: { CoordValue };
}

impl Start for Brand {
    ghost use Rattle.lsm_nodes.specs.Histories.{no_coord};

    ghost start = { no_coord };
}

/// A coordinator with the history of its calls, from the start that `J` names. It is `Drop` if the vault is. The history keeps every call and
/// answer, so that the bytes of every installed table stay as long as it does.
///
/// Invariant: whatever the results held that were installed, the installs in the manifest are those at the start and those of the history. If each
/// install of the history held the merge of its job, the history is a run of the model from each state that was shown at the start to one that
/// the coordinator shows.
#[derive(Drop)]
pub struct Shared<V: Vault, J: Start, N: Witness + Drop> {
    coord: Coord<V>,
    history: Vec<Witnessed<N>>,
    book: Book<J>,
    alloc: Global,
}

impl<V: Vault, J: Start, N: Witness + Drop> Model for Shared<V, J, N> {
    ghost use Rattle.std.specs.Coded.{codes};
    ghost use Rattle.lsm_vault.specs.Stored.{vault_code};
    ghost use Rattle.lsm_nodes.specs.Histories.{IsShared, SharedValue};

    ghost Value = { SharedValue };

    ghost coded = { Prim.hlevel (codes, vault_code) };

    ghost view = { λ s. record { coord = s.coord; history = s.history.items } };

    ghost invariant = { λ s. IsShared J.start (record { coord = s.coord; history = s.history.items }) s.book.total };
}

impl<V: Vault, J: Start, N: Witness + Drop> Shared<V, J, N> {
    ghost use Rattle.std.specs.Prelude.{◌≡◌, ◌↔◌, ◌++◌, ◌∷◌, [], IsTrue, length};
    ghost use Rattle.lsm_coord.specs.Contract.Memory.{IsFit};
    ghost use Rattle.lsm_coord.specs.Contract.Restarts.{seat_of, up_seat};
    ghost use Rattle.lsm_nodes.specs.Closing.{IsPartedInto};
    ghost use Rattle.lsm_nodes.specs.Histories.{AreSoundFrom, HoldsMerges, RunsFrom, installed_in, installs_in};
    ghost use Rattle.lsm_nodes.specs.Tallies.{records_of};

    /// The start of a history. Allocates nothing.
    pub fn new(alloc: Global, coord: Coord<V>, book: Book<J>) -> Shared<V, J, N>
        requires start { coord ≡ J.start }
        requires unused { book.total ≡ 0 }
        ensures { result ≡ record { coord = coord; history = [] } }
    {
        Shared {
            coord,
            history: Vec::new(alloc),
            book,
            alloc,
        }
    }

    /// Whether a tally with all parts, which has as many records as the history, has exactly those of the history, each once, each
    /// caller's in its order. Then its installs are those of the history.
    pub fn matches(&mut self, tally: &mut Tally<J>) -> bool
        requires { tally.old.parts ≡ J.parts }
        ensures same { (self.new ≡ self.old) × (tally.new ≡ tally.old) }
        ensures counted { length (records_of tally.old) ≡ length self.old.history }
        ensures exact { IsTrue result ↔ IsPartedInto self.old.history (tally.old.mine ∷ tally.old.others) }
        ensures installs { IsTrue result → length (installed_in self.old.history) ≡ tally.old.installed }
    {
        tally.audit(&mut self.book);
        is_parted(
            self.history.as_slice(),
            tally.mine.as_slice(),
            tally.others.as_slice(),
        )
    }

    /// Ends it, and hands the coordinator over in its seat. The history is gone.
    pub fn into_seat(self) -> Seat<V>
        ensures { seat_of V.stored V.failures result ≡ up_seat self.coord }
    {
        let Shared {
            coord,
            history: _,
            book: _,
            alloc: _,
        } = self;
        Seat::Up(coord)
    }

    /// The recorded calls, from the first on. What the store keeps of its versions, files and claims is fit, whatever the results
    /// held that were installed.
    pub fn history(&self) -> &[Witnessed<N>]
        ensures all { result.now ≡ self.now.history }
        ensures run { HoldsMerges result.now → RunsFrom J.start result.now self.now.coord }
        ensures sound { HoldsMerges result.now → AreSoundFrom J.start result.now self.now.coord }
        ensures installs { installs_in self.now.coord.stored.edits ≡ installs_in J.start.stored.edits ++ installed_in result.now }
        ensures fit { IsFit self.now.coord }
    {
        // Proof hint: what the coordinator keeps.
        let _listing = self.coord.show();
        self.history.as_slice()
    }
}

// Takes room for one more in both lists. It fails only if one of them has none.
fn has_room<N: Witness + Drop>(history: &mut Vec<Witnessed<N>>, mine: &mut Vec<Record>) -> bool
    ensures history { history.new.items ≡ history.old.items }
    ensures mine { mine.new.items ≡ mine.old.items }
    ensures room { IsTrue result → (vec_len history.new < vec_capacity history.new) × (vec_len mine.new < vec_capacity mine.new) }
    ensures spare { (vec_len history.old < vec_capacity history.old) × (vec_len mine.old < vec_capacity mine.old) → IsTrue result }
{
    history.reserve(1).is_ok() && mine.reserve(1).is_ok()
}

// Puts an exchange at the end of the history, with the version before it, and of the caller's records.
fn log<J: Start, N: Witness + Drop>(
    history: &mut Vec<Witnessed<N>>,
    mine: &mut Vec<Record>,
    book: &mut Book<J>,
    share: &mut Share<J>,
    before: N,
    calls: Twice<Call>,
    answers: Twice<Answer>,
)
    requires room { (vec_len history.old < vec_capacity history.old) × (vec_len mine.old < vec_capacity mine.old) }
    requires part { 0 < share.old.parts }
    ensures history { history.new.items ≡ history.old.items ++ record { exchange = exchange_of calls answers; before = N.seen before } ∷ [] }
    ensures mine { mine.new.items ≡ mine.old.items ++ record_at (length history.old.items + 1) (exchange_of calls answers) ∷ [] }
    ensures total { book.new.total ≡ book.old.total + 1 }
    ensures parts { share.new.parts ≡ share.old.parts }
    ensures amount { share.new.amount ≡ share.old.amount + 1 }
{
    let (call, other_call) = calls.split();
    let (answer, other_answer) = answers.split();
    history.push_reserved(Witnessed::new(Exchange { call, answer }, before));
    mine.push_reserved(Record {
        position: history.len() as u64,
        exchange: Exchange {
            call: other_call,
            answer: other_answer,
        },
    });
    book.add(share, 1);
}
