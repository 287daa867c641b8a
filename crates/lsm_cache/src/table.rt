//! A table of a file, looked up through a cache of blocks.

ghost use Rattle.std.specs.Prelude.{◌≡◌, IfOk, IfErr, IsSome};
ghost use Rattle.std.specs.Option.{option_map};
ghost use Rattle.lsm_key.specs.Visible.{visible, lent_entry};
ghost use Rattle.lsm_cache.specs.Cached.{HoldsBlocks, KeepsBlocks};

use crate::cache::{BlockCache, BlockPlace};
use crate::copies::copy_entry;
use lsm_key::{Entry, EntryRef, Seq};
use lsm_table::Table;
use std::alloc::{AllocError, Global};

/// A table is looked up through a cache only if its entries have so many bytes on average, as a power of two: others are walked
/// faster than their block is fetched.
const LONG_ENTRIES: u32 = 16;

/// A table under the number of its file.
#[derive(Clone, Copy, Debug)]
pub struct CachedTable<'a> {
    pub number: u64,
    pub table: &'a Table,
}

impl<'a> CachedTable<'a> {
    /// The table of the file of this number.
    pub fn new(number: u64, table: &'a Table) -> CachedTable<'a>
        ensures number { result.number ≡ number }
        ensures table { result.table.now ≡ table.now }
    {
        CachedTable { number, table }
    }

    // Whether a look-up asks the cache.
    fn is_long(&self) -> bool {
        self.table.span().len() >> LONG_ENTRIES >= self.table.count()
    }

    /// Sees to it that the cache holds the block in which a look-up of the key ends, if a look-up asks for it and memory serves.
    pub fn load(&self, cache: &mut BlockCache, alloc: Global, key: &[u8])
        ensures { KeepsBlocks self.now.number self.now.table.now.entries cache.old cache.new }
    {
        if !self.is_long() {
            return;
        }
        let handle = self.table.contents().handle(key);
        let place = BlockPlace {
            file: self.number,
            handle,
        };
        if cache.promote(&place) {
            return;
        }
        match self.table.contents().part(alloc, handle) {
            Ok(block) => cache.put(place, block),
            // Without memory the table is walked.
            Err(_) => {}
        }
    }

    /// The entry of the key with the greatest sequence at most `at`, from the cache if it holds the block. Allocates nothing.
    pub fn seek<'b>(&'b self, cache: &'b BlockCache, key: &[u8], at: Seq) -> Option<EntryRef<'b>>
        requires { HoldsBlocks self.now.number self.now.table.now.entries cache.now }
        ensures { option_map lent_entry result ≡ visible self.now.table.now.entries key.now at }
    {
        if !self.is_long() {
            return self.table.get(key, at);
        }
        let place = BlockPlace {
            file: self.number,
            handle: self.table.contents().handle(key),
        };
        match cache.blocks.peek(&place) {
            Some(block) => block.seek(key, at),
            None => self.table.get(key, at),
        }
    }

    /// A copy of the entry of the key with the greatest sequence at most `at`. The cache keeps its block, if memory serves. An error is
    /// the copy's.
    pub fn get(
        &self,
        cache: &mut BlockCache,
        alloc: Global,
        key: &[u8],
        at: Seq,
    ) -> Result<Option<Entry>, AllocError>
        requires { HoldsBlocks self.now.number self.now.table.now.entries cache.old }
        ensures found { IfOk result (λ e. e ≡ visible self.now.table.now.entries key.now at) }
        ensures refused { IfErr result (λ _. IsSome (visible self.now.table.now.entries key.now at)) }
        ensures held { KeepsBlocks self.now.number self.now.table.now.entries cache.old cache.new }
    {
        self.load(cache, alloc, key);
        match self.seek(cache, key, at) {
            None => Ok(None),
            Some(entry) => Ok(Some(copy_entry(alloc, entry)?)),
        }
    }
}
