//! The entries whose keys have one prefix.

ghost use Rattle.std.specs.Prelude.{◌≡◌, ◌≢◌, ◌↔◌, [], IfOk, IfSome, IfNone, IsTrue, OnOk, OnErr, length, nat_lt};
ghost use Rattle.lsm_key.specs.Sets.{IsIn};
ghost use Rattle.lsm_mem.specs.Chains.{AreChains, Chain, chains_before, chains_from, entries_in, with_entry, without_newest};
ghost use Rattle.lsm_mem.specs.Buckets.{chain_of_versions, chains_in, chains_lent};

use crate::bucket_cursor::BucketCursor;
use crate::chains::Chains;
use crate::versions::{are_of, keep_older, versions_from};
use lsm_key::{Entry, Seq};
use std::alloc::{AllocError, Global};
use std::slice;

/// The entries whose keys have one prefix. Most often there is one.
#[derive(Debug, Drop)]
pub(crate) enum Bucket {
    One(Entry),
    /// Those of one key, the oldest first.
    Versions(Vec<Entry>),
    /// Those of several keys.
    Many(Chains),
}

// The same, lent.
pub(crate) enum Lent<'a> {
    Key(&'a [Entry]),
    Keys(&'a Chains),
}

impl Bucket {
    fn lend(&self) -> Lent<'_>
        ensures { chains_lent result ≡ chains_in self.now }
    {
        match self {
            Bucket::One(entry) => Lent::Key(slice::from_ref(entry)),
            Bucket::Versions(versions) => Lent::Key(versions.as_slice()),
            Bucket::Many(chains) => Lent::Keys(chains),
        }
    }

    /// The first key.
    pub(crate) fn first_key(&self) -> Option<&[u8]> {
        match self.lend() {
            Lent::Key(versions) => Some(versions.first()?.ikey.key.as_slice()),
            Lent::Keys(chains) => chains.first_key(),
        }
    }

    /// The last key.
    pub(crate) fn last_key(&self) -> Option<&[u8]> {
        match self.lend() {
            Lent::Key(versions) => Some(versions.first()?.ikey.key.as_slice()),
            Lent::Keys(chains) => chains.last_key(),
        }
    }

    /// Whether there is no entry.
    pub(crate) fn is_empty(&self) -> bool
        ensures { IsTrue result ↔ (chains_in self.now ≡ []) }
    {
        match self.lend() {
            Lent::Key(versions) => versions.is_empty(),
            Lent::Keys(chains) => chains.is_empty(),
        }
    }

    /// The versions of a key, the oldest first.
    pub(crate) fn versions(&self, key: &[u8]) -> Option<&[Entry]>
        ensures found { IfSome result (λ versions. IsIn (record { key = key.now; versions = versions.now }) (chains_in self.now)) }
        ensures none { IfNone result ((c : Chain) → IsIn c (chains_in self.now) → c.key ≢ key.now) }
    {
        match self.lend() {
            Lent::Key(versions) if are_of(versions, key) => Some(versions),
            Lent::Key(_) => None,
            Lent::Keys(chains) => chains.versions(key),
        }
    }

    /// A cursor over all entries.
    pub(crate) fn cursor(&self) -> BucketCursor<'_>
        ensures { result ≡ entries_in (chains_in self.now) }
    {
        match self.lend() {
            Lent::Key(versions) => BucketCursor::new(versions, None),
            Lent::Keys(chains) => chains.cursor(),
        }
    }

    /// A cursor over the entries whose key is at or after `lo`. Allocates only if there are several keys: a copy of `lo`.
    pub(crate) fn cursor_from(&self, lo: &[u8]) -> Result<BucketCursor<'_>, AllocError>
        ensures { IfOk result (λ cursor. cursor ≡ entries_in (chains_from lo.now (chains_in self.now))) }
    {
        match self.lend() {
            Lent::Key(versions) => Ok(BucketCursor::new(versions_from(versions, lo), None)),
            Lent::Keys(chains) => chains.cursor_from(lo),
        }
    }

    /// Adds an entry as the newest of its key. If memory runs out, nothing changes.
    pub(crate) fn put(&mut self, alloc: Global, entry: Entry) -> Result<(), AllocError>
        ensures ok { OnOk result (chains_in self.new ≡ with_entry entry (chains_in self.old)) }
        ensures err { OnErr result (chains_in self.new ≡ chains_in self.old) }
    {
        let wider = match self {
            Bucket::One(first) => widened(alloc, slice::from_ref(first), entry)?,
            Bucket::Versions(versions) => {
                if are_of(versions, entry.ikey.key.as_slice()) {
                    versions.push(entry)?;
                    return Ok(());
                }
                widened(alloc, versions, entry)?
            }
            Bucket::Many(chains) => return chains.put(entry),
        };
        *self = wider;
        Ok(())
    }

    /// Removes the newest version of a key.
    pub(crate) fn take(&mut self, alloc: Global, key: &[u8])
        ensures { chains_in self.new ≡ without_newest key.now (chains_in self.old) }
    {
        match self {
            Bucket::One(entry) => {
                if are_of(slice::from_ref(entry), key) {
                    *self = Bucket::Versions(Vec::new(alloc));
                }
            }
            Bucket::Versions(versions) => {
                if are_of(versions, key) {
                    versions.pop();
                }
            }
            Bucket::Many(chains) => chains.take(key),
        }
    }

    /// Removes the entries whose sequence is at least `first`. Returns whether any is left. Allocates nothing.
    pub(crate) fn undo(&mut self, alloc: Global, first: Seq) -> bool
        ensures undone { AreChains (chains_in self.old) → chains_in self.new ≡ chains_before first (chains_in self.old) }
        ensures left { result ≡ nat_lt 0 (length (chains_in self.new)) }
    {
        match self {
            Bucket::One(entry) => {
                if entry.ikey.seq < first {
                    return true;
                }
                *self = Bucket::Versions(Vec::new(alloc));
                false
            }
            Bucket::Versions(versions) => keep_older(versions, first),
            Bucket::Many(chains) => chains.undo(first),
        }
    }
}

// A bucket of the versions of a key and one more entry.
fn widened(alloc: Global, versions: &[Entry], entry: Entry) -> Result<Bucket, AllocError>
    ensures { IfOk result (λ bucket. chains_in bucket ≡ with_entry entry (chain_of_versions versions.now)) }
{
    let mut copies = versions.to_vec(alloc)?;
    if are_of(versions, entry.ikey.key.as_slice()) {
        copies.push(entry)?;
        return Ok(Bucket::Versions(copies));
    }
    let mut chains = Chains::of_versions(alloc, copies)?;
    chains.put(entry)?;
    Ok(Bucket::Many(chains))
}
