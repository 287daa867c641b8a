//! Reads of a version through a cache of decoded blocks.

ghost use Rattle.std.specs.Prelude.{◌≡◌, None, Some, IfOk, IfNone, IfSome};
ghost use Rattle.lsm_key.specs.declared.entry.Entry.{Entry};
ghost use Rattle.lsm_key.specs.Places.{first_visible};
ghost use Rattle.lsm_key.specs.Visible.{visible};
ghost use Rattle.lsm_edit.specs.Served.{tables_of};
ghost use Rattle.lsm_cache.specs.Cached.{HoldsBlocks, HoldsNone, KeepsBlocks};
ghost use Rattle.lsm_versions.specs.Cached.{CopiesValue, HoldsAll};

use bytes::Bytes;
use lsm_cache::{BlockCache, CachedTable, copy_value};
use lsm_edit::Served;
use lsm_key::Seq;
use std::alloc::{AllocError, Global};
use std::num::NonZeroUsize;

/// How many blocks a cache holds at most. They share the bytes of their tables, so that a cache takes memory for their indexes alone.
const MAX_CACHED_BLOCKS: usize = 1024;

/// A cache without a block.
pub(crate) fn new_cache(alloc: Global) -> Result<BlockCache, AllocError>
    ensures { IfOk result HoldsNone }
{
    let Some(capacity) = NonZeroUsize::new(MAX_CACHED_BLOCKS) else {
        unreachable!()
    };
    BlockCache::new(alloc, capacity)
}

/// A copy of the value that a read of the key at the sequence finds in the first table that has an entry of it: none, if no table
/// has one or it is a deletion. An error is the copy's.
pub(crate) fn value_through(
    served: &Served,
    cache: &mut BlockCache,
    alloc: Global,
    key: &[u8],
    at: Seq,
) -> Result<Option<Bytes>, AllocError>
    requires { HoldsAll served.now.places cache.old }
    ensures copied { CopiesValue (first_visible (tables_of served.now.places) key.now at) result }
    ensures held { HoldsAll served.now.places cache.new }
{
    let places = served.places();
    let mut from = 0;
    loop {
        let place = match served.search(key, from) {
            Some(place) => place,
            None => return Ok(None),
        };
        let placed = &places[place];
        let table = CachedTable::new(placed.meta.number, &placed.table);
        match value_in(&table, cache, alloc, key, at) {
            Some(copied) => return copied,
            None => {}
        }
        from = place + 1;
    }
}

// A copy of the value of the entry that a table shows, if it shows one.
fn value_in(
    table: &CachedTable<'_>,
    cache: &mut BlockCache,
    alloc: Global,
    key: &[u8],
    at: Seq,
) -> Option<Result<Option<Bytes>, AllocError>>
    requires { HoldsBlocks table.now.number table.now.table.now.entries cache.old }
    ensures none { IfNone result (visible table.now.table.now.entries key.now at ≡ None) }
    ensures some { IfSome result (λ copied. (e : Entry) × (visible table.now.table.now.entries key.now at ≡ Some e) × CopiesValue (Some e) copied) }
    ensures held { KeepsBlocks table.now.number table.now.table.now.entries cache.old cache.new }
{
    table.load(cache, alloc, key);
    match table.seek(cache, key, at) {
        Some(entry) => Some(copy_value(alloc, entry)),
        None => None,
    }
}
