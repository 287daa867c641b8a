//! Entries where they lie: what a cursor gives, decoded only when it is asked for, and compared by prefixes first.

ghost use Rattle.std.specs.Prelude.{◌≡◌, IfOk};
ghost use Rattle.std.specs.List.{slice_range};
ghost use Rattle.lsm_key.specs.Entries.{IsEntry};
ghost use Rattle.lsm_key.specs.Order.{precedes};
ghost use Rattle.lsm_key.specs.Visible.{lent_entry};
ghost use Rattle.lsm_block.specs.Blocks.{HasSequence, entry};
ghost use Rattle.lsm_block.specs.Lent.{IsLentAt, front_entry};

use crate::lent::entry_in;
use bytes::Bytes;
use lsm_key::{Entry, EntryRef, InternalKey};
use std::alloc::AllocError;
use std::cmp::Ordering;
use std::marker::Model;

/// An entry where it lies in a block: its place in the block's bytes, and the prefix of its key, by which most comparisons are
/// decided.
///
/// Invariant: the bytes from `place` to `end` are those of one whole entry, and the prefix is that of its key.
#[derive(Debug, Drop)]
pub struct BlockEntry<'a> {
    block: &'a Bytes,
    place: usize,
    end: usize,
    prefix: u64,
}

impl<'a> Model for BlockEntry<'a> {
    ghost use Rattle.lsm_key.specs.declared.entry.Entry.{Entry};
    ghost use Rattle.std.specs.List.{slice_range};
    ghost use Rattle.lsm_block.specs.Lent.{IsLentAt, front_entry};

    ghost Value = { Entry };

    ghost view = { λ e. front_entry (slice_range e.block.now e.place e.end) };

    ghost invariant = { λ e. IsLentAt e.block.now e.place e.end e.prefix };
}

impl<'a> BlockEntry<'a> {
    /// The entry from a place in the bytes of a block to its end, with its key's prefix.
    pub(crate) fn new(block: &'a Bytes, place: usize, end: usize, prefix: u64) -> BlockEntry<'a>
        requires { IsLentAt block.now place end prefix }
        ensures { result ≡ front_entry (slice_range block.now place end) }
    {
        BlockEntry {
            block,
            place,
            end,
            prefix,
        }
    }

    /// The same entry, where it lies.
    pub fn copy(&self) -> BlockEntry<'a>
        ensures { result ≡ self.now }
    {
        BlockEntry {
            block: self.block,
            place: self.place,
            end: self.end,
            prefix: self.prefix,
        }
    }

    /// The entry, which borrows the bytes.
    pub fn entry(&self) -> EntryRef<'a>
        ensures { lent_entry result ≡ self.now }
    {
        match entry_in(&self.block.as_slice()[self.place..self.end]) {
            Ok((entry, _)) => entry,
            Err(_) => unreachable!(),
        }
    }

    /// The entry, which shares the bytes.
    pub fn shared(&self) -> Result<Entry, AllocError>
        ensures { IfOk result (λ e. e ≡ self.now) }
    {
        let entry = self.entry();
        // The key stands behind the two bytes of its length, and the value at the end.
        let start = self.place + 2;
        let key = self.block.slice(start..start + entry.key.len())?;
        let value = self.block.slice(self.end - entry.value.len()..self.end)?;
        let ikey = InternalKey {
            key,
            seq: entry.seq,
            kind: entry.kind,
        };
        Ok(Entry { ikey, value })
    }

    /// Whether it comes before another one, by key and sequence.
    pub fn precedes(&self, other: &BlockEntry<'_>) -> bool
        ensures { result ≡ precedes self.now other.now }
    {
        match self.prefix.cmp(&other.prefix) {
            Ordering::Less => true,
            Ordering::Greater => false,
            Ordering::Equal => comes_first(&self.entry(), &other.entry()),
        }
    }

    /// Its bytes in the block.
    pub fn bytes(&self) -> &'a [u8]
        ensures spelled { result.now ≡ entry self.now }
        ensures sound { IsEntry self.now × HasSequence self.now }
    {
        &self.block.as_slice()[self.place..self.end]
    }
}

// Whether an entry comes before another one.
fn comes_first(entry: &EntryRef<'_>, other: &EntryRef<'_>) -> bool
    ensures { result ≡ precedes (lent_entry entry.now) (lent_entry other.now) }
{
    match entry.key.cmp(other.key) {
        Ordering::Less => true,
        Ordering::Greater => false,
        Ordering::Equal => other.seq < entry.seq,
    }
}
