//! Going through the entries of a bucket, one after the other.

ghost use Rattle.std.specs.Prelude.{◌≡◌, ◌++◌, reverse};
ghost use Rattle.lsm_mem.specs.Chains.{entries_of_keys};

use lsm_key::Entry;
use std::collections::btree_map::Range;
use std::marker::Model;

/// A place among the entries of a bucket: those from there on are left.
#[derive(Drop)]
pub(crate) struct BucketCursor<'a> {
    // What is left of a key, the oldest version first.
    versions: &'a [Entry],
    // The keys after it, if the bucket has several.
    keys: Option<Range<'a, Vec<u8>, Vec<Entry>>>,
}

impl<'a> Model for BucketCursor<'a> {
    ghost use Rattle.std.specs.Prelude.{List, ◌++◌, reverse};
    ghost use Rattle.lsm_key.specs.declared.entry.Entry.{Entry};
    ghost use Rattle.lsm_mem.specs.Chains.{entries_of_keys};

    ghost Value = { List Entry };

    ghost view = { λ c. reverse c.versions.now ++ entries_of_keys c.keys };
}

impl<'a> BucketCursor<'a> {
    // Versions of a key, the oldest first, and then keys with theirs.
    pub(crate) fn new(
        versions: &'a [Entry],
        keys: Option<Range<'a, Vec<u8>, Vec<Entry>>>,
    ) -> BucketCursor<'a>
        ensures { result ≡ reverse versions.now ++ entries_of_keys keys.entry }
    {
        BucketCursor { versions, keys }
    }
}

impl<'a> Iterator for BucketCursor<'a> {
    type Item = &'a Entry;

    ghost use Rattle.std.specs.Iterator.{item_count};
    ghost use Rattle.std.specs.Map.Iter.{TakesFirst, deref};

    ghost next_gives = { TakesFirst deref };

    ghost remaining = { item_count (λ c. c) };

    // The next entry, if there is one. Allocates nothing.
    fn next(&mut self) -> Option<&'a Entry> {
        loop {
            if let Some((newest, older)) = self.versions.split_last() {
                self.versions = older;
                return Some(newest);
            }
            let keys = match &mut self.keys {
                Some(keys) => keys,
                None => return None,
            };
            let (_, versions) = match keys.next() {
                Some(pair) => pair,
                None => return None,
            };
            self.versions = versions.as_slice();
        }
    }
}
