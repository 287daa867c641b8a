//! Reads of one key, latest or at a snapshot, and of the current version: a key is looked up in the memtables first,
//! and then through the cache of the tables' blocks.

ghost use Rattle.std.specs.Prelude.{◌≡◌, None, Some, IfOk, IfErr};
ghost use Rattle.std.specs.Option.{option_map};
ghost use Rattle.lsm_key.specs.Visible.{visible, lent_entry};
ghost use Rattle.lsm_coord.specs.Model.State.{snapshot_at};
ghost use Rattle.lsm_coord.specs.Model.Event.{Get, Show, Coordinator};
ghost use Rattle.lsm_coord.specs.Contract.Shows.{Follows};
ghost use Rattle.lsm_coord.specs.Contract.Memory.{IsFit};
ghost use Rattle.lsm_coord.specs.Contract.Calls.{point_of, GetRefuses, IsPoint, Answers, HasValue};
ghost use Rattle.lsm_coord.specs.Contract.Value.{frozen_entries};
ghost use Rattle.lsm_coord.specs.Contract.Replies.{get_reply, show_reply};

use super::Coord;
use crate::CoordError;
use crate::snapshot::SnapId;
use bytes::Bytes;
use lsm_cache::copy_value;
use lsm_edit::{Listing, Served};
use lsm_key::{EntryRef, Seq};
use lsm_vault::Vault;
use std::alloc::AllocError;

impl<V: Vault> Coord<V> {
    /// The value of a key, latest or at a live snapshot, as a copy.
    pub fn get(&mut self, key: &[u8], at: Option<SnapId>) -> Result<Option<Bytes>, CoordError>
        ensures step { Follows self.old (Get key.now at) (get_reply result) self.new }
        ensures same { self.new ≡ self.old }
        ensures refused { IfErr result (GetRefuses self.old key.now at) }
    {
        let Some(point) = self.point_of(at) else {
            return Err(CoordError::NoSnapshot);
        };
        let value = self.value_of(key, point)?;
        Ok(value)
    }

    // The sequence of a read.
    pub(super) fn point_of(&self, at: Option<SnapId>) -> Option<Seq>
        ensures { result ≡ point_of self.now at }
    {
        match at {
            None => Some(self.newest),
            Some(id) => self.seq_of(id),
        }
    }

    // The sequence of a live snapshot.
    pub(super) fn seq_of(&self, id: SnapId) -> Option<Seq>
        ensures { result ≡ snapshot_at self.now.snapshots id }
    {
        for live in &self.live {
            if live.id == id {
                return Some(live.at);
            }
        }
        None
    }

    // A copy of what a read of the key finds: in the memtables, or else through the cache of the tables' blocks.
    fn value_of(&mut self, key: &[u8], point: Seq) -> Result<Option<Bytes>, AllocError>
        requires { IsPoint self.old point }
        ensures ok { IfOk result (Answers self.old point key.now) }
        ensures refused { IfErr result (λ _. HasValue self.old point key.now) }
        ensures same { self.new ≡ self.old }
    {
        match self.active.get(key, point) {
            Some(entry) => return copy_value(self.alloc, entry),
            None => {}
        }
        match self.frozen_entry(key, point) {
            Some(entry) => copy_value(self.alloc, entry),
            None => self.versions.value(key, point),
        }
    }

    // The newest entry of the key in the frozen memtable.
    fn frozen_entry(&self, key: &[u8], point: Seq) -> Option<EntryRef<'_>>
        ensures { option_map lent_entry result ≡ visible (frozen_entries self.now.frozen) key.now point }
    {
        match &self.frozen {
            Some(frozen) => frozen.memtable.get(key, point),
            None => None,
        }
    }

    /// The listing of the current version. Allocates nothing. What the store keeps of its versions, files and claims is
    /// fit, whatever the results held that were installed.
    pub fn show(&self) -> Listing<'_>
        ensures step { Follows self.now (Show Coordinator) (show_reply result) self.now }
        ensures number { result.number ≡ self.now.served.version.number }
        ensures flushed { result.flushed ≡ self.now.served.version.flushed }
        ensures files { result.files.now ≡ self.now.served.version.files }
        ensures fit { IsFit self.now }
    {
        // Proof hint: the book is sound.
        let _live = self.book.live();
        self.versions.served().listing()
    }

    /// The current version with its tables.
    pub fn served(&self) -> &Served
        ensures { result.now ≡ self.now.served }
    {
        self.versions.served()
    }
}
