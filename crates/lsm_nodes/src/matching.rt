//! Whether a history is what its callers recorded.

ghost use Rattle.std.specs.Prelude.{◌≡◌, ◌↔◌, ◌∷◌, IsTrue, length};
ghost use Rattle.lsm_key.specs.Sets.{IsIn};
ghost use Rattle.lsm_nodes.specs.Closing.{AllRise, AreAmong, IsPartedInto, RisesAbove, records_from};
ghost use Rattle.lsm_nodes.specs.Tallies.{all_records, record_at};

use crate::exchange::{Exchange, Witness, Witnessed};
use crate::shared::{Record, Records};

/// Whether the lists have exactly the records of the history, each once, each list in its order. It asks that there are as many.
pub(crate) fn is_parted<N: Witness + Drop>(
    history: &[Witnessed<N>],
    mine: &[Record],
    others: &[Records],
) -> bool
    requires { length (all_records (mine.now ∷ others.now)) ≡ length history.now }
    ensures { IsTrue result ↔ IsPartedInto history.now (mine.now ∷ others.now) }
{
    if !rises(mine) {
        return false;
    }
    if !all_rise(others) {
        return false;
    }
    has_all(history, mine, others)
}

// Whether positions rise from record to record.
fn rises(records: &[Record]) -> bool
    ensures { IsTrue result ↔ RisesAbove 0 records.now }
{
    let mut last = 0;
    for record in records {
        if record.position <= last {
            return false;
        }
        last = record.position;
    }
    true
}

// Whether they do in each list.
fn all_rise(lists: &[Records]) -> bool
    ensures { IsTrue result ↔ AllRise lists.now }
{
    for records in lists {
        if !rises(records.as_slice()) {
            return false;
        }
    }
    true
}

// Whether each exchange of the history stands in one of the lists, at its position. O(n · lists · log n).
fn has_all<N: Witness + Drop>(history: &[Witnessed<N>], mine: &[Record], others: &[Records]) -> bool
    requires mine { RisesAbove 0 mine.now }
    requires others { AllRise others.now }
    ensures { IsTrue result ↔ AreAmong (records_from 1 history.now) (all_records (mine.now ∷ others.now)) }
{
    for i in 0..history.len() {
        let position = i as u64 + 1;
        let exchange = history[i].exchange();
        if !stands_in(mine, others, position, exchange) {
            return false;
        }
    }
    true
}

// Whether an exchange stands in one of the lists, at a position.
fn stands_in(mine: &[Record], others: &[Records], position: u64, exchange: &Exchange) -> bool
    requires mine { RisesAbove 0 mine.now }
    requires others { AllRise others.now }
    ensures { IsTrue result ↔ IsIn (record_at position exchange.now) (all_records (mine.now ∷ others.now)) }
{
    has(mine, position, exchange) || any_has(others, position, exchange)
}

// Whether it stands in one of these.
fn any_has(lists: &[Records], position: u64, exchange: &Exchange) -> bool
    requires { AllRise lists.now }
    ensures { IsTrue result ↔ IsIn (record_at position exchange.now) (all_records lists.now) }
{
    for records in lists {
        if has(records.as_slice(), position, exchange) {
            return true;
        }
    }
    false
}

// Whether it stands in this one.
fn has(records: &[Record], position: u64, exchange: &Exchange) -> bool
    requires { RisesAbove 0 records.now }
    ensures { IsTrue result ↔ IsIn (record_at position exchange.now) records.now }
{
    match records.binary_search_by_key(&position, |record| record.position) {
        Ok(at) => records[at].exchange.same(exchange),
        Err(_) => false,
    }
}
