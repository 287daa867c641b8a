//! Decoded blocks, those that were used last.

ghost use Rattle.std.specs.Prelude.{◌≡◌, ℕ, List, IfOk, length};
ghost use Rattle.std.specs.NonZero.{non_zero_usize_get};
ghost use Rattle.lsm_key.specs.declared.entry.Entry.{Entry};
ghost use Rattle.lsm_block.specs.Handles.{IsPartAt};
ghost use Rattle.lsm_cache.specs.Cached.{HoldsBlocks, HoldsNone};

use lru::LruCache;
use lsm_block::{Block, BlockHandle};
use std::alloc::{AllocError, Global};
use std::num::NonZeroUsize;

/// Which block: the number of its file, and where it stands in the bytes of the file's entries.
#[derive(Clone, Copy, Debug, PartialEq, Eq, Hash)]
pub struct BlockPlace {
    pub file: u64,
    pub handle: BlockHandle,
}

/// Decoded blocks, at most as many as its capacity: the one that was used least recently goes first.
#[derive(Drop)]
pub struct BlockCache {
    pub(crate) blocks: LruCache<BlockPlace, Block>,
}

impl BlockCache {
    /// A cache without a block, for at most as many as the capacity.
    pub fn new(alloc: Global, capacity: NonZeroUsize) -> Result<BlockCache, AllocError>
        ensures { IfOk result (λ cache. HoldsNone cache × (cache.blocks.cap ≡ non_zero_usize_get capacity)) }
    {
        let blocks = LruCache::sparse(alloc, capacity)?;
        Ok(BlockCache { blocks })
    }

    /// Lets all blocks go.
    pub fn clear(&mut self)
        ensures none { HoldsNone self.new }
        ensures capacity { self.new.blocks.cap ≡ self.old.blocks.cap }
    {
        self.blocks.clear();
    }

    /// How many blocks it holds.
    pub fn len(&self) -> usize
        ensures { result ≡ length self.now.blocks.entries }
    {
        self.blocks.len()
    }

    // The block of the place is the one used last, if it is held. Reports whether it is.
    pub(crate) fn promote(&mut self, place: &BlockPlace) -> bool
        ensures { (number : ℕ) (es : List Entry) → HoldsBlocks number es self.old → HoldsBlocks number es self.new }
    {
        self.blocks.promote(place)
    }

    // Holds the block under its place, if memory serves.
    pub(crate) fn put(&mut self, place: BlockPlace, block: Block)
        ensures { (number : ℕ) (es : List Entry) → HoldsBlocks number es self.old → (place.file ≡ number → IsPartAt es place.handle block) → HoldsBlocks number es self.new }
    {
        let _ = self.blocks.put(place, block);
    }
}
