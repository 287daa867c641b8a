//! Copies of what a look-up lends, for callers that keep it longer than the block.

ghost use Rattle.std.specs.Prelude.{◌≡◌, IfOk, IfErr, IsSome};
ghost use Rattle.lsm_key.specs.Visible.{entry_value, lent_entry};

use bytes::Bytes;
use lsm_key::{Entry, EntryRef, InternalKey, Kind};
use std::alloc::{AllocError, Global};

/// A copy of a borrowed entry.
pub fn copy_entry(alloc: Global, entry: EntryRef<'_>) -> Result<Entry, AllocError>
    ensures { IfOk result (λ copy. copy ≡ lent_entry entry.entry) }
{
    let key = Bytes::copy_from_slice(alloc, entry.key)?;
    let value = Bytes::copy_from_slice(alloc, entry.value)?;
    Ok(Entry {
        ikey: InternalKey {
            key,
            seq: entry.seq,
            kind: entry.kind,
        },
        value,
    })
}

/// A copy of the value that a read gives which finds the entry: of a deletion none, which takes no memory.
pub fn copy_value(alloc: Global, entry: EntryRef<'_>) -> Result<Option<Bytes>, AllocError>
    ensures ok { IfOk result (λ value. value ≡ entry_value (lent_entry entry.entry)) }
    ensures refused { IfErr result (λ _. IsSome (entry_value (lent_entry entry.entry))) }
{
    match entry.kind {
        Kind::Put => Ok(Some(Bytes::copy_from_slice(alloc, entry.value)?)),
        Kind::Delete => Ok(None),
    }
}
