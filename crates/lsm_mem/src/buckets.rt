//! A memtable's entries, in buckets by the prefixes of their keys.

ghost use Rattle.std.specs.Prelude.{◌≡◌, ◌+◌, length, take, drop, IfOk, OnOk};
ghost use Rattle.lsm_key.specs.Places.{entry_of};
ghost use Rattle.lsm_key.specs.Writes.{key_of};
ghost use Rattle.lsm_edit.specs.declared.log_record.LogRecord.TheVariants.{Write};
ghost use Rattle.lsm_edit.specs.LogRecord.{op_bytes, record_bytes, op_value};

use crate::bucket::Bucket;
use crate::bucket_cursor::BucketCursor;
use crate::chunk::Chunk;
use crate::front::Front;
use crate::memtable_cursor::MemtableCursor;
use bytes::Bytes;
use lsm_edit::{LoggedOp, WRITE_HEAD_BYTES, find_logged};
use lsm_key::{Batch, Entry, InternalKey, Kind, Op, Seq, prefix_of};
use std::alloc::{AllocError, Global};
use std::collections::BTreeMap;
use std::marker::Model;

// A front is learned from as many entries as this.
const MIN_LEARNED: usize = 1_000;

/// Keys in their order, each with its versions, the oldest first.
///
/// Invariant: every bucket has an entry, and the keys in it have its prefix after the front.
#[derive(Debug, Drop)]
pub(crate) struct Buckets {
    alloc: Global,
    chunk: Chunk,
    front: Front,
    by_prefix: BTreeMap<u64, Bucket>,
}

impl Model for Buckets {
    ghost use Rattle.std.specs.Prelude.{List};
    ghost use Rattle.lsm_mem.specs.Chains.{Chain};
    ghost use Rattle.lsm_mem.specs.Buckets.{ArePlaced, bytes_of_front, chains_of_buckets};

    ghost Value = { List Chain };

    ghost view = { λ b. chains_of_buckets b.by_prefix.entries };

    ghost invariant = { λ b. ArePlaced (bytes_of_front b.front) b.by_prefix.entries };
}

impl Buckets {
    ghost use Rattle.std.specs.Prelude.{◌≢◌, ◌≤◌, ◌-◌, ℕ, List, [], IsTrue, ◌↔◌, IfSome, IfNone, OnErr};
    ghost use Rattle.lsm_key.specs.Sets.{IsIn};
    ghost use Rattle.lsm_key.specs.Places.{entries_after};
    ghost use Rattle.lsm_mem.specs.Chains.{Chain, AreChains, entries_in, with_entry, with_entries, without_newest, chains_before, chains_from};

    /// No keys. Those that begin with the front will be found fastest.
    pub(crate) fn new(alloc: Global, front: Front) -> Buckets
        ensures { result ≡ [] }
    {
        Buckets {
            alloc,
            chunk: Chunk::new(alloc),
            front,
            by_prefix: BTreeMap::new(alloc),
        }
    }

    /// No keys, to follow these, which have `count` entries. The front comes from what all of these begin with, if they are
    /// enough to learn it from.
    pub(crate) fn successor(&self, count: usize) -> Buckets
        ensures { result ≡ [] }
    {
        let front = match self.ends() {
            Some((first, last)) if count >= MIN_LEARNED => Front::after(first, last),
            _ => self.front,
        };
        Buckets::new(self.alloc, front)
    }

    /// What it allocates with.
    pub(crate) fn alloc(&self) -> Global {
        self.alloc
    }

    // The first key and the last one.
    fn ends(&self) -> Option<(&[u8], &[u8])> {
        let (_, first) = self.by_prefix.first_key_value()?;
        let (_, last) = self.by_prefix.last_key_value()?;
        Some((first.first_key()?, last.last_key()?))
    }

    /// Whether there is no key.
    pub(crate) fn is_empty(&self) -> bool
        ensures { IsTrue result ↔ (self.now ≡ []) }
    {
        self.by_prefix.is_empty()
    }

    /// The versions of a key, the oldest first.
    pub(crate) fn versions(&self, key: &[u8]) -> Option<&[Entry]>
        ensures found { IfSome result (λ versions. IsIn (record { key = key.now; versions = versions.now }) self.now) }
        ensures none { IfNone result ((c : Chain) → IsIn c self.now → c.key ≢ key.now) }
    {
        // Proof hint: no two buckets have one prefix.
        let _count = self.by_prefix.len();
        self.by_prefix
            .get(&prefix_of(self.front.as_slice(), key))?
            .versions(key)
    }

    /// Adds the entries of a batch, from a sequence on, and returns the log record of the batch, whose bytes they share. If
    /// memory runs out, nothing changes.
    pub(crate) fn put_all(&mut self, batch: &Batch, first: Seq) -> Result<Bytes, AllocError>
        requires chained { AreChains self.old }
        requires some { 1 ≤ first }
        requires fits { first + length batch.now ≤ Seq.MAX + 1 }
        ensures ok { OnOk result (self.new ≡ with_entries (entries_after (first - 1) batch.now) self.old) }
        ensures logged { IfOk result (λ logged. logged ≡ record_bytes (Write first batch.now)) }
        ensures err { OnErr result (self.new ≡ self.old) }
    {
        let logged = self.chunk.record_of(first, batch)?;
        self.put_each(batch.ops(), first, &logged)?;
        Ok(logged)
    }

    // Adds the entry of each operation of a record, from a sequence on. If memory runs out, nothing changes.
    fn put_each(&mut self, ops: &[Op], first: Seq, logged: &Bytes) -> Result<(), AllocError>
        requires chained { AreChains self.old }
        requires some { 1 ≤ first }
        requires fits { first + length ops.now ≤ Seq.MAX + 1 }
        requires logged { logged.now ≡ record_bytes (Write first ops.now) }
        ensures ok { OnOk result (self.new ≡ with_entries (entries_after (first - 1) ops.now) self.old) }
        ensures err { OnErr result (self.new ≡ self.old) }
    {
        let mut at = WRITE_HEAD_BYTES;
        for (done, op) in ops.iter().enumerate() {
            let seq = Seq::new(first.number() + done as u64);
            match self.put_next(logged, at, op, seq) {
                Ok(end) => at = end,
                Err(refused) => {
                    self.take_all(&ops[..done]);
                    return Err(refused);
                }
            }
        }
        Ok(())
    }

    // Adds the entry of an operation that is encoded at `at` in a record, and returns where its encoding ends. If memory
    // runs out, nothing changes.
    fn put_next(
        &mut self,
        logged: &Bytes,
        at: usize,
        op: &Op,
        seq: Seq,
    ) -> Result<usize, AllocError>
        requires { take (length (op_bytes op.now)) (drop at logged.now) ≡ op_bytes op.now }
        ensures ok { OnOk result (self.new ≡ with_entry (entry_of seq op.now) self.old) }
        ensures end { IfOk result (λ end. end ≡ at + length (op_bytes op.now)) }
        ensures err { OnErr result (self.new ≡ self.old) }
    {
        let found = find_logged(logged, at, op)?;
        let end = found.end;
        self.put(entry_from(found, op, seq))?;
        Ok(end)
    }

    // Adds an entry as the newest of its key. If memory runs out, nothing changes.
    fn put(&mut self, entry: Entry) -> Result<(), AllocError>
        ensures ok { OnOk result (self.new ≡ with_entry entry self.old) }
        ensures err { OnErr result (self.new ≡ self.old) }
    {
        let prefix = prefix_of(self.front.as_slice(), entry.ikey.key.as_slice());
        if let Some(bucket) = self.by_prefix.get_mut(&prefix) {
            return bucket.put(self.alloc, entry);
        }
        self.by_prefix.insert(prefix, Bucket::One(entry))?;
        Ok(())
    }

    // Removes what `put_all` added.
    fn take_all(&mut self, ops: &[Op])
        ensures { (before : List Chain) (after : ℕ) → AreChains before
            → self.old ≡ with_entries (entries_after after ops.now) before → self.new ≡ before }
    {
        for op in ops.iter().rev() {
            self.take(op.key().as_slice());
        }
    }

    // Removes the newest version of a key.
    fn take(&mut self, key: &[u8])
        ensures { self.new ≡ without_newest key.now self.old }
    {
        let prefix = prefix_of(self.front.as_slice(), key);
        let Some(bucket) = self.by_prefix.get_mut(&prefix) else {
            return;
        };
        bucket.take(self.alloc, key);
        if bucket.is_empty() {
            drop(self.by_prefix.remove(&prefix));
        }
    }

    /// Removes the entries whose sequence is at least `first`. Allocates nothing.
    pub(crate) fn undo(&mut self, first: Seq)
        requires { AreChains self.old }
        ensures { self.new ≡ chains_before first self.old }
    {
        let alloc = self.alloc;
        self.by_prefix.retain(|_, bucket| bucket.undo(alloc, first));
    }

    /// A cursor over all entries. Allocates nothing.
    pub(crate) fn cursor(&self) -> MemtableCursor<'_>
        ensures { result ≡ entries_in self.now }
    {
        MemtableCursor::new(BucketCursor::new(&[], None), self.by_prefix.range(..))
    }

    /// A cursor over the entries whose key is at or after `lo`.
    pub(crate) fn cursor_from(&self, lo: &[u8]) -> Result<MemtableCursor<'_>, AllocError>
        ensures { IfOk result (λ cursor. cursor ≡ entries_in (chains_from lo.now self.now)) }
    {
        let first = prefix_of(self.front.as_slice(), lo);
        let mut later = self.by_prefix.range(first..);
        let current = match later.next() {
            Some((_, bucket)) => bucket.cursor_from(lo)?,
            None => BucketCursor::new(&[], None),
        };
        Ok(MemtableCursor::new(current, later))
    }
}

// The entry of an operation as it lies in a record.
fn entry_from(found: LoggedOp, op: &Op, seq: Seq) -> Entry
    requires key { found.key ≡ key_of op.now }
    requires value { found.value ≡ op_value op.now }
    ensures { result ≡ entry_of seq op.now }
{
    let LoggedOp { key, value, end: _ } = found;
    let kind = match op {
        Op::Put(_, _) => Kind::Put,
        Op::Delete(_) => Kind::Delete,
    };
    Entry {
        ikey: InternalKey { key, seq, kind },
        value,
    }
}
