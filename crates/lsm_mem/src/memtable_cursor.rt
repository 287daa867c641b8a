//! Going through the entries of a memtable, one after the other.

ghost use Rattle.std.specs.Prelude.{◌≡◌, ◌++◌};
ghost use Rattle.lsm_mem.specs.Chains.{entries_in};
ghost use Rattle.lsm_mem.specs.Buckets.{chains_of_buckets};

use crate::bucket::Bucket;
use crate::bucket_cursor::BucketCursor;
use lsm_key::Entry;
use std::collections::btree_map::Range;
use std::marker::Model;

/// A place among the entries of a memtable: those from there on are left, in the order of internal keys.
#[derive(Drop)]
pub struct MemtableCursor<'a> {
    current: BucketCursor<'a>,
    later: Range<'a, u64, Bucket>,
}

impl<'a> Model for MemtableCursor<'a> {
    ghost use Rattle.std.specs.Prelude.{List, ◌++◌};
    ghost use Rattle.lsm_key.specs.declared.entry.Entry.{Entry};
    ghost use Rattle.lsm_mem.specs.Chains.{entries_in};
    ghost use Rattle.lsm_mem.specs.Buckets.{chains_of_buckets};

    ghost Value = { List Entry };

    ghost view = { λ c. c.current ++ entries_in (chains_of_buckets c.later) };
}

impl<'a> MemtableCursor<'a> {
    // What a cursor has left, and then buckets.
    pub(crate) fn new(
        current: BucketCursor<'a>,
        later: Range<'a, u64, Bucket>,
    ) -> MemtableCursor<'a>
        ensures { result ≡ current.entry ++ entries_in (chains_of_buckets later.entry) }
    {
        MemtableCursor { current, later }
    }
}

impl<'a> Iterator for MemtableCursor<'a> {
    type Item = &'a Entry;

    ghost use Rattle.std.specs.Iterator.{item_count};
    ghost use Rattle.std.specs.Map.Iter.{TakesFirst, deref};

    ghost next_gives = { TakesFirst deref };

    ghost remaining = { item_count (λ c. c) };

    // The next entry, if there is one, where it lies. Allocates nothing.
    fn next(&mut self) -> Option<&'a Entry> {
        loop {
            if let Some(entry) = self.current.next() {
                return Some(entry);
            }
            let (_, bucket) = match self.later.next() {
                Some(pair) => pair,
                None => return None,
            };
            self.current = bucket.cursor();
        }
    }
}
