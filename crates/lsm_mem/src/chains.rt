//! The entries of several keys, key by key.

ghost use Rattle.std.specs.Prelude.{◌≡◌, OnOk};

use crate::bucket_cursor::BucketCursor;
use crate::versions::keep_older;
use lsm_key::{Entry, Seq};
use std::alloc::{AllocError, Global};
use std::collections::BTreeMap;
use std::marker::Model;

/// Each key with its versions, the oldest first.
#[derive(Debug, Drop)]
pub(crate) struct Chains {
    alloc: Global,
    by_key: BTreeMap<Vec<u8>, Vec<Entry>>,
}

impl Model for Chains {
    ghost use Rattle.std.specs.Prelude.{List};
    ghost use Rattle.lsm_mem.specs.Chains.{Chain, chains_of};

    ghost Value = { List Chain };

    ghost view = { λ c. chains_of c.by_key.entries };
}

impl Chains {
    ghost use Rattle.std.specs.Prelude.{◌≢◌, [], IfOk, IsTrue, ◌↔◌, IfSome, IfNone, OnErr, length, nat_lt};
    ghost use Rattle.lsm_key.specs.Sets.{IsIn};
    ghost use Rattle.lsm_mem.specs.Chains.{Chain, chains_before, chains_from, entries_in, with_entry, without_newest};
    ghost use Rattle.lsm_mem.specs.Buckets.{chain_of_versions};

    /// No keys.
    pub(crate) fn new(alloc: Global) -> Chains
        ensures { result ≡ [] }
    {
        Chains {
            alloc,
            by_key: BTreeMap::new(alloc),
        }
    }

    /// The versions of one key, the oldest first, if there are any.
    pub(crate) fn of_versions(alloc: Global, versions: Vec<Entry>) -> Result<Chains, AllocError>
        ensures { IfOk result (λ chains. chains ≡ chain_of_versions versions.items) }
    {
        let mut chains = Chains::new(alloc);
        if let Some(first) = versions.first() {
            let key = first.ikey.key.as_slice().to_vec(alloc)?;
            chains.by_key.insert(key, versions)?;
        }
        Ok(chains)
    }

    /// The first key.
    pub(crate) fn first_key(&self) -> Option<&[u8]> {
        let (key, _) = self.by_key.first_key_value()?;
        Some(key.as_slice())
    }

    /// The last key.
    pub(crate) fn last_key(&self) -> Option<&[u8]> {
        let (key, _) = self.by_key.last_key_value()?;
        Some(key.as_slice())
    }

    /// Whether there is no key.
    pub(crate) fn is_empty(&self) -> bool
        ensures { IsTrue result ↔ (self.now ≡ []) }
    {
        self.by_key.is_empty()
    }

    /// The versions of a key, the oldest first.
    pub(crate) fn versions(&self, key: &[u8]) -> Option<&[Entry]>
        ensures found { IfSome result (λ versions. IsIn (record { key = key.now; versions = versions.now }) self.now) }
        ensures none { IfNone result ((c : Chain) → IsIn c self.now → c.key ≢ key.now) }
    {
        Some(self.by_key.get(key)?.as_slice())
    }

    /// Adds an entry as the newest of its key. If memory runs out, nothing changes.
    pub(crate) fn put(&mut self, entry: Entry) -> Result<(), AllocError>
        ensures ok { OnOk result (self.new ≡ with_entry entry self.old) }
        ensures err { OnErr result (self.new ≡ self.old) }
    {
        if let Some(versions) = self.by_key.get_mut(entry.ikey.key.as_slice()) {
            versions.push(entry)?;
            return Ok(());
        }
        let key = entry.ikey.key.as_slice().to_vec(self.alloc)?;
        let mut versions = Vec::with_capacity(self.alloc, 1)?;
        versions.push(entry)?;
        self.by_key.insert(key, versions)?;
        Ok(())
    }

    /// Removes the newest version of a key.
    pub(crate) fn take(&mut self, key: &[u8])
        ensures { self.new ≡ without_newest key.now self.old }
    {
        let Some(versions) = self.by_key.get_mut(key) else {
            return;
        };
        versions.pop();
        if versions.is_empty() {
            drop(self.by_key.remove(key));
        }
    }

    /// Removes the entries whose sequence is at least `first`. Returns whether any is left. Allocates nothing.
    pub(crate) fn undo(&mut self, first: Seq) -> bool
        ensures undone { self.new ≡ chains_before first self.old }
        ensures left { result ≡ nat_lt 0 (length self.new) }
    {
        self.by_key
            .retain(|_, versions| keep_older(versions, first));
        !self.by_key.is_empty()
    }

    /// A cursor over all entries.
    pub(crate) fn cursor(&self) -> BucketCursor<'_>
        ensures { result ≡ entries_in self.now }
    {
        BucketCursor::new(&[], Some(self.by_key.range(..)))
    }

    /// A cursor over the entries whose key is at or after `lo`. Allocates a copy of `lo`.
    pub(crate) fn cursor_from(&self, lo: &[u8]) -> Result<BucketCursor<'_>, AllocError>
        ensures { IfOk result (λ cursor. cursor ≡ entries_in (chains_from lo.now self.now)) }
    {
        let from = lo.to_vec(self.alloc)?;
        Ok(BucketCursor::new(&[], Some(self.by_key.range(from..))))
    }
}
