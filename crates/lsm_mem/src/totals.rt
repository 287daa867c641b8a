//! What a memtable notes of its entries, counted anew after some of them are taken out.

ghost use Rattle.std.specs.Prelude.{◌≡◌, ◌≤◌, length, sum_by};
ghost use Rattle.lsm_key.specs.declared.limits.TheConstants.{MAX_MEMTABLE_WEIGHT};
ghost use Rattle.lsm_key.specs.Limits.{entry_weight};
ghost use Rattle.lsm_mem.specs.Memtable.{last_sequence};

use crate::memtable_cursor::MemtableCursor;
use lsm_key::{ENTRY_OVERHEAD, Entry, Seq};

/// What entries weigh, how many they are, and their greatest sequence.
#[derive(Clone, Copy)]
pub(crate) struct Totals {
    pub(crate) weight: usize,
    pub(crate) count: usize,
    pub(crate) last: Seq,
}

/// The totals of the entries that a cursor has left. Allocates nothing.
pub(crate) fn totals_of(cursor: MemtableCursor<'_>) -> Totals
    requires { sum_by entry_weight cursor ≤ MAX_MEMTABLE_WEIGHT }
    ensures weight { result.weight ≡ sum_by entry_weight cursor.entry }
    ensures count { result.count ≡ length cursor.entry }
    ensures last { result.last ≡ last_sequence cursor.entry }
{
    let mut weight = 0;
    let mut count = 0;
    let mut last = Seq::ZERO;
    for entry in cursor {
        weight += weight_of(entry);
        count += 1;
        if last < entry.ikey.seq {
            last = entry.ikey.seq;
        }
    }
    Totals {
        weight,
        count,
        last,
    }
}

// What an entry takes in a block, in bytes.
fn weight_of(entry: &Entry) -> usize
    requires { entry_weight entry.now ≤ MAX_MEMTABLE_WEIGHT }
    ensures { result ≡ entry_weight entry.now }
{
    ENTRY_OVERHEAD + entry.ikey.key.len() + entry.value.len()
}
