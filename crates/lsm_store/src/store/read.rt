//! Reads of the store: of keys, of ranges, and of figures about it. None changes what it holds.

ghost use Rattle.std.specs.Prelude.{◌≡◌, ◌&&◌, IfErr, IfOk, nat_le};
ghost use Rattle.lsm_key.specs.declared.limits.TheConstants.{MAX_JOB_LEVEL};
ghost use Rattle.lsm_pick.specs.Due.{is_due};
ghost use Rattle.lsm_coord.specs.Contract.Calls.{GetRefuses, ScanRefuses};
ghost use Rattle.lsm_store.specs.Stats.{IsLevelStats, WroteBytes};
ghost use Rattle.lsm_store.specs.Store.{IsLatestSequence, Keeps, OfCoord, ReadsRange, ReadsValue, VaultRefuses, stored_count};

use super::Store;
use crate::stats::stats_of;
use crate::{LevelStats, StoreError, Written};
use bytes::Bytes;
use lsm_coord::{CoordError, SnapId};
use lsm_edit::Listing;
use lsm_key::Seq;
use lsm_vault::Vault;

impl<V: Vault> Store<V> {
    /// The value of a key, latest or at a live snapshot, as a copy.
    pub fn get(&mut self, key: &[u8], at: Option<SnapId>) -> Result<Option<Bytes>, StoreError>
        ensures ok { IfOk result (ReadsValue self.old key.now at) }
        ensures refused { IfErr result (OfCoord (GetRefuses self.old key.now at)) }
        ensures same { self.new ≡ self.old }
    {
        let value = self.coord.get(key, at)?;
        Ok(value)
    }

    /// The first `limit` keys at or after `lo` and before `hi` that have a value, latest or at a live snapshot: ascending, each with
    /// its value. Shares the bytes.
    pub fn scan(
        &self,
        lo: &[u8],
        hi: &[u8],
        at: Option<SnapId>,
        limit: u64,
    ) -> Result<Vec<(Bytes, Bytes)>, StoreError>
        ensures ok { IfOk result (λ pairs. ReadsRange self.now lo.now hi.now at limit pairs.items) }
        ensures refused { IfErr result (OfCoord (ScanRefuses self.now at)) }
    {
        let pairs = self.coord.scan(lo, hi, at, limit)?;
        Ok(pairs)
    }

    /// The sequence of the last operation that the store has accepted, the first of a new store being 1.
    pub fn latest_sequence(&self) -> Seq
        ensures { IsLatestSequence self.now result }
    {
        self.coord.latest_sequence()
    }

    /// The operations up to this sequence are in tables, and no others; those after it are in the log.
    pub fn flushed_sequence(&self) -> Seq
        ensures { result ≡ stored_count self.now }
    {
        self.coord.show().flushed
    }

    /// The listing of the current version. Allocates nothing.
    pub fn show(&self) -> Listing<'_>
        ensures number { result.number ≡ self.now.served.version.number }
        ensures flushed { result.flushed ≡ self.now.served.version.flushed }
        ensures files { result.files.now ≡ self.now.served.version.files }
    {
        self.coord.show()
    }

    /// What the files of a level have, from level 0 to `MAX_LEVEL` of `lsm_key`. What is in the memtable is in none yet.
    pub fn level_stats(&self, level: u8) -> LevelStats
        ensures { IsLevelStats self.now.served.version.files level result }
    {
        stats_of(self.coord.show().files, level)
    }

    /// Whether a level needs compaction: level 0 by the number of its files, a deeper one by their bytes. The deepest one never does.
    pub fn is_due(&self, level: u8) -> bool
        ensures { result ≡ (nat_le level MAX_JOB_LEVEL && is_due self.now.limits self.now.served.version.files level) }
    {
        self.coord.is_due(level)
    }

    /// How much was written to tables since the store was new, by all edits of its vault: O(n) for n edits.
    pub fn written(&mut self) -> Result<Written, StoreError>
        ensures ok { IfOk result (WroteBytes self.old.stored.edits) }
        ensures keeps { Keeps self.old self.new }
        ensures same { self.new ≡ record self.old { failures = self.new.failures } }
        ensures refused { IfErr result (OfCoord (VaultRefuses self.old self.new)) }
    {
        let edits = self.edits()?;
        let written = Written::by_edits(self.alloc, &edits)?;
        Ok(written)
    }

    // The edits of the vault.
    fn edits(&mut self) -> Result<Vec<Bytes>, CoordError>
        ensures ok { IfOk result (λ edits. edits.items ≡ self.old.stored.edits) }
        ensures same { self.new ≡ record self.old { failures = self.new.failures } }
        ensures refused { IfErr result (VaultRefuses self.old self.new) }
    {
        let edits = self.coord.edits()?;
        Ok(edits)
    }
}
