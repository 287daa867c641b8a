//! The memtable: its entries in buckets, and beside them what is noted of them, so that neither weight nor count is a walk.

use crate::buckets::Buckets;
use crate::front::Front;
use crate::memtable_cursor::MemtableCursor;
use crate::table::table_of;
use crate::totals::totals_of;
use crate::versions::newest_at;
use bytes::Bytes;
use lsm_key::{Batch, Entry, EntryRef, Seq};
use lsm_table::Table;
use std::alloc::{AllocError, Global};
use std::marker::Model;

/// The entries that were written last, at most `MAX_MEMTABLE_WEIGHT` bytes of them, in the order of internal keys.
///
/// Invariant: no two entries have one sequence, and weight, count and greatest sequence are those of the entries.
#[derive(Debug, Drop)]
pub struct Memtable {
    buckets: Buckets,
    // The size that the entries take in a block, in bytes.
    weight: usize,
    // How many entries there are.
    count: usize,
    // The greatest sequence.
    last: Seq,
}

impl Model for Memtable {
    ghost use Rattle.std.specs.Prelude.{List};
    ghost use Rattle.lsm_key.specs.declared.entry.Entry.{Entry};
    ghost use Rattle.lsm_mem.specs.Chains.{entries_in, IsNoted};

    ghost Value = { List Entry };

    ghost view = { λ m. entries_in m.buckets };

    ghost invariant = { λ m. IsNoted m.buckets m.weight m.count m.last };
}

impl Memtable {
    ghost use Rattle.std.specs.Prelude.{◌≡◌, [], ◌++◌, ◌<◌, ◌≤◌, ◌+◌, ◌-◌, ◌↔◌, IfOk, OnOk, OnErr, IsTrue, filter, length, nat_lt, sum_by};
    ghost use Rattle.std.specs.Option.{option_map};
    ghost use Rattle.lsm_key.specs.declared.entry.Entry.{Entry};
    ghost use Rattle.lsm_key.specs.declared.limits.TheConstants.{MAX_MEMTABLE_WEIGHT};
    ghost use Rattle.lsm_key.specs.Sets.{IsIn};
    ghost use Rattle.std.specs.List.Sorted.{IsPermutation};
    ghost use Rattle.lsm_key.specs.Limits.{entry_weight, total_weight};
    ghost use Rattle.lsm_key.specs.Places.{entries_after};
    ghost use Rattle.lsm_key.specs.Visible.{visible, lent_entry};
    ghost use Rattle.lsm_edit.specs.declared.log_record.LogRecord.TheVariants.{Write};
    ghost use Rattle.lsm_edit.specs.LogRecord.{record_bytes};
    ghost use Rattle.lsm_table.specs.Tables.{IsTarget, target_of};
    ghost use Rattle.lsm_mem.specs.Memtable.{IsMemtable, last_sequence};
    ghost use Rattle.lsm_key.specs.Order.{is_between, key_le};

    /// An empty memtable.
    pub fn new(alloc: Global) -> Memtable
        ensures { result ≡ [] }
    {
        Memtable::of(Buckets::new(alloc, Front::NONE))
    }

    /// An empty memtable to take the writes after this one. It expects keys to begin as this one's do: others are found too, but
    /// slower.
    pub fn successor(&self) -> Memtable
        ensures { result ≡ [] }
    {
        Memtable::of(self.buckets.successor(self.count))
    }

    // A memtable of no entries.
    fn of(buckets: Buckets) -> Memtable
        requires { buckets ≡ [] }
        ensures { result ≡ [] }
    {
        Memtable {
            buckets,
            weight: 0,
            count: 0,
            last: Seq::ZERO,
        }
    }

    /// Adds the entries of a batch: its operation number i, from 0, gets the sequence `first_seq` + i. `first_seq`
    /// comes after every sequence in the memtable, the last operation's is at most `Seq::MAX`, and the entries fit the
    /// memtable's weight. Returns the log record of the batch, whose bytes the entries share. If memory runs out, the
    /// memtable stays as it was.
    pub fn apply(&mut self, first_seq: Seq, batch: &Batch) -> Result<Bytes, AllocError>
        requires newer { last_sequence self.old < first_seq }
        requires room { sum_by entry_weight self.old + total_weight batch.now ≤ MAX_MEMTABLE_WEIGHT }
        requires fits { first_seq + length batch.now ≤ Seq.MAX + 1 }
        ensures ok { OnOk result (IsPermutation (self.old ++ entries_after (first_seq - 1) batch.now) self.new) }
        ensures logged { IfOk result (λ logged. logged ≡ record_bytes (Write first_seq batch.now)) }
        ensures err { OnErr result (self.new ≡ self.old) }
    {
        let ops = batch.ops();
        let logged = self.buckets.put_all(batch, first_seq)?;
        self.weight += batch.weight();
        self.count += ops.len();
        if ops.is_empty() {
            return Ok(logged);
        }
        self.last = Seq::new(first_seq.number() + (ops.len() as u64 - 1));
        Ok(logged)
    }

    /// Removes the entries whose sequence is at least `first_seq`: after an `apply` with that first sequence, what it
    /// added. Allocates nothing. O(n) in the number of entries.
    pub fn undo(&mut self, first_seq: Seq)
        ensures older { self.new ≡ filter (λ e. nat_lt e.ikey.seq first_seq) self.old }
        ensures sound { IsMemtable self.old }
    {
        self.buckets.undo(first_seq);
        let left = totals_of(self.buckets.cursor());
        self.weight = left.weight;
        self.count = left.count;
        self.last = left.last;
    }

    /// The entry of the key with the greatest sequence at most `at`. O(log n) comparisons for the key and for its
    /// versions, no allocation.
    pub fn get(&self, key: &[u8], at: Seq) -> Option<EntryRef<'_>>
        ensures { option_map lent_entry result ≡ visible self.now key.now at }
    {
        let versions = self.buckets.versions(key)?;
        let entry = newest_at(versions, at)?;
        Some(EntryRef {
            key: entry.ikey.key.as_slice(),
            seq: entry.ikey.seq,
            kind: entry.ikey.kind,
            value: entry.value.as_slice(),
        })
    }

    /// The table of all entries, its blocks cut at the target, in bytes, or out of memory. The memtable is not empty.
    pub fn table(&self, alloc: Global, target: u32) -> Result<Table, AllocError>
        requires target { IsTarget target }
        requires some { 0 < length self.now }
        ensures { IfOk result (λ table. (table.entries ≡ self.now) × (target_of table.bytes ≡ target)) }
    {
        table_of(alloc, target, self.weight, self.buckets.cursor())
    }

    /// A cursor over the entries whose key is at or after `lo`, in the order of internal keys, or out of memory. O(log n)
    /// comparisons. It allocates a copy of `lo` if several keys share the prefix at which it begins, else nothing.
    pub fn cursor_from(&self, lo: &[u8]) -> Result<MemtableCursor<'_>, AllocError>
        ensures all { IfOk result (λ cursor. cursor ≡ filter (λ e. key_le lo.now e.ikey.key) self.now) }
        ensures sound { IsMemtable self.now }
    {
        self.buckets.cursor_from(lo)
    }

    /// Copies of the entries whose key is at or after `lo` and before `hi`, in the order of internal keys, or out of
    /// memory. Shares the bytes. O(log n) comparisons, and one for each entry returned.
    pub fn range(&self, lo: &[u8], hi: &[u8]) -> Result<Vec<Entry>, AllocError>
        ensures all { IfOk result (λ copies. copies.items ≡ filter (is_between lo.now hi.now) self.now) }
        ensures sound { IsMemtable self.now }
    {
        let mut copies = Vec::new(self.buckets.alloc());
        for entry in self.cursor_from(lo)? {
            if entry.ikey.key.as_slice().cmp(hi).is_ge() {
                break;
            }
            copies.push(entry.clone()?)?;
        }
        Ok(copies)
    }

    /// The greatest sequence, 0 if there is no entry.
    pub fn last_seq(&self) -> Seq
        ensures value { result ≡ last_sequence self.now }
        ensures early { (e : Entry) → IsIn e self.now → e.ikey.seq ≤ result }
        ensures sound { IsMemtable self.now }
    {
        self.last
    }

    /// The size that the entries take in a block, in bytes.
    pub fn weight(&self) -> usize
        ensures value { result ≡ sum_by entry_weight self.now }
        ensures bound { result ≤ MAX_MEMTABLE_WEIGHT }
    {
        self.weight
    }

    /// How many entries there are.
    pub fn len(&self) -> usize
        ensures { result ≡ length self.now }
    {
        self.count
    }

    /// Whether there is no entry.
    pub fn is_empty(&self) -> bool
        ensures { IsTrue result ↔ (self.now ≡ []) }
    {
        self.buckets.is_empty()
    }
}
