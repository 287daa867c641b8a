//! Writes, and the flushes that make room for them.

ghost use Rattle.std.specs.Prelude.{◌≡◌, ◌∷◌, ◌≤◌, [], None, IfErr, OnErr, OnOk};
ghost use Rattle.lsm_key.specs.declared.op.Op.TheVariants.{Delete, Put};
ghost use Rattle.lsm_key.specs.Limits.{push_fault};
ghost use Rattle.lsm_coord.specs.Contract.Calls.{AppendRefuses, write_fault};
ghost use Rattle.lsm_store.specs.Store.{Accepts, CanWrite, CompactsIfBehind, EmptiesMemtable, FlushNextRefuses, FlushesNext, IsBehind, IsNoneDue, Keeps, LeavesNoneDue, OfCoord, OpRefuses, RoomRefuses, StoreFlushRefuses, Stores, VaultRefuses, WriteRefuses};

use super::Store;
use crate::StoreError;
use bytes::Bytes;
use lsm_coord::CoordError;
use lsm_key::{Batch, Op};
use lsm_vault::Vault;

impl<V: Vault> Store<V> {
    /// Puts a key with its value. Copies both. If it is refused, the store holds what it held.
    pub fn put(&mut self, key: &[u8], value: &[u8]) -> Result<(), StoreError>
        ensures ok { OnOk result ((push_fault [] (Put key.now value.now) ≡ None) × CanWrite self.old (Put key.now value.now ∷ []) × Accepts self.old (Put key.now value.now ∷ []) self.new) }
        ensures compacted { OnOk result (CompactsIfBehind self.old (Put key.now value.now ∷ []) self.new) }
        ensures err { OnErr result (Keeps self.old self.new) }
        ensures refused { IfErr result (OpRefuses self.old (Put key.now value.now) self.new) }
    {
        let key = Bytes::copy_from_slice(self.alloc, key)?;
        let value = Bytes::copy_from_slice(self.alloc, value)?;
        self.write_op(Op::Put(key, value))
    }

    /// Deletes a key, whether it has a value or not. Copies it. If it is refused, the store holds what it held.
    pub fn delete(&mut self, key: &[u8]) -> Result<(), StoreError>
        ensures ok { OnOk result ((push_fault [] (Delete key.now) ≡ None) × CanWrite self.old (Delete key.now ∷ []) × Accepts self.old (Delete key.now ∷ []) self.new) }
        ensures compacted { OnOk result (CompactsIfBehind self.old (Delete key.now ∷ []) self.new) }
        ensures err { OnErr result (Keeps self.old self.new) }
        ensures refused { IfErr result (OpRefuses self.old (Delete key.now) self.new) }
    {
        let key = Bytes::copy_from_slice(self.alloc, key)?;
        self.write_op(Op::Delete(key))
    }

    // Applies a batch of one operation.
    fn write_op(&mut self, op: Op) -> Result<(), StoreError>
        ensures ok { OnOk result ((push_fault [] op ≡ None) × CanWrite self.old (op ∷ []) × Accepts self.old (op ∷ []) self.new) }
        ensures compacted { OnOk result (CompactsIfBehind self.old (op ∷ []) self.new) }
        ensures err { OnErr result (Keeps self.old self.new) }
        ensures refused { IfErr result (OpRefuses self.old op self.new) }
    {
        let mut batch = Batch::new(self.alloc);
        batch.push(op)?;
        self.write(&batch)
    }

    /// Applies a batch as a whole: its operations are in the store, and in the vault, once this is `Ok`. If the memtable has no room for
    /// it, it is flushed first; if level 0 was due already, all compactions that are due are run then. Otherwise they are run one by one,
    /// each after a twelfth of a memtable was written; a compaction that is refused then refuses no write, and is due again. If the
    /// batch is refused, the store holds what it held, and the call can be tried again.
    pub fn write(&mut self, batch: &Batch) -> Result<(), StoreError>
        ensures ok { OnOk result (CanWrite self.old batch.now × Accepts self.old batch.now self.new) }
        ensures compacted { OnOk result (CompactsIfBehind self.old batch.now self.new) }
        ensures err { OnErr result (Keeps self.old self.new) }
        ensures refused { IfErr result (WriteRefuses self.old batch.now self.new) }
    {
        let Err(why) = self.accept(batch) else {
            self.keep_pace();
            return Ok(());
        };
        if why != CoordError::MemtableFull {
            return Err(StoreError::Coord(why));
        }
        self.make_room()?;
        // Proof hint: what a batch weighs at most.
        let _weight = batch.weight();
        self.accept(batch)?;
        Ok(())
    }

    // Applies a batch, if the memtable has room for it, and counts what it weighs.
    fn accept(&mut self, batch: &Batch) -> Result<(), CoordError>
        ensures ok { OnOk result ((write_fault self.old batch.now ≡ None) × Accepts self.old batch.now self.new) }
        ensures due { OnOk result (IsNoneDue self.old → IsNoneDue self.new) }
        ensures err { OnErr result (Keeps self.old self.new) }
        ensures refused { IfErr result (λ e. AppendRefuses (write_fault self.old batch.now) self.old e self.new) }
    {
        self.coord.write(batch)?;
        self.unpaced = self.unpaced.saturating_add(batch.weight());
        Ok(())
    }

    // Empties the memtable, so that each batch has room. If compactions are behind, runs all that are due.
    fn make_room(&mut self) -> Result<(), StoreError>
        ensures ok { OnOk result (EmptiesMemtable self.old self.new) }
        ensures compacted { OnOk result (IsBehind self.old → LeavesNoneDue self.old self.new) }
        ensures keeps { Keeps self.old self.new }
        ensures refused { IfErr result (OfCoord (RoomRefuses self.old self.new)) }
        ensures failures { self.old.failures ≤ self.new.failures }
    {
        let is_behind = self.is_due(0);
        self.flush()?;
        if !is_behind {
            return Ok(());
        }
        self.compact(u64::MAX)?;
        // Proof hint: the coordinator's invariant.
        let _listing = self.coord.show();
        Ok(())
    }

    /// Brings all that the store holds into tables, if something is in none yet. If it is refused, the store holds what it
    /// held.
    pub fn flush(&mut self) -> Result<(), StoreError>
        ensures ok { OnOk result (Stores self.old self.new) }
        ensures err { OnErr result (Keeps self.old self.new) }
        ensures empty { OnOk result (EmptiesMemtable self.old self.new) }
        ensures refused { IfErr result (OfCoord (StoreFlushRefuses self.old self.new)) }
        ensures failures { self.old.failures ≤ self.new.failures }
    {
        // A log may be opened that has a freeze: then there are two memtables, and the frozen one goes first.
        self.flush_next()?;
        self.flush_next()?;
        Ok(())
    }

    // Flushes the frozen memtable, or the active one if none is frozen, unless both are empty.
    fn flush_next(&mut self) -> Result<(), CoordError>
        ensures ok { OnOk result (FlushesNext self.old self.new) }
        ensures keeps { Keeps self.old self.new }
        ensures refused { IfErr result (FlushNextRefuses self.old self.new) }
        ensures failures { self.old.failures ≤ self.new.failures }
    {
        let Err(why) = self.coord.flush() else {
            return Ok(());
        };
        if why == CoordError::NothingToFlush {
            return Ok(());
        }
        Err(why)
    }

    /// Has the vault sync what its log has, so that once it is `Ok` a power cut takes no operation up to the latest sequence. A vault
    /// that syncs each record as it is appended has nothing to do. It changes nothing that the store holds. If it is refused, all
    /// operations are read on, but what was written since the last sync may be lost with the process; a vault may then refuse writes
    /// and flushes until the store is opened again.
    pub fn sync(&mut self) -> Result<(), StoreError>
        ensures same { self.new ≡ record self.old { failures = self.new.failures } }
        ensures keeps { Keeps self.old self.new }
        ensures counted { self.old.failures ≤ self.new.failures }
        ensures refused { IfErr result (OfCoord (VaultRefuses self.old self.new)) }
    {
        self.sync_log()?;
        Ok(())
    }

    // Has the vault sync its log.
    fn sync_log(&mut self) -> Result<(), CoordError>
        ensures same { self.new ≡ record self.old { failures = self.new.failures } }
        ensures counted { self.old.failures ≤ self.new.failures }
        ensures refused { IfErr result (VaultRefuses self.old self.new) }
    {
        self.coord.sync_log()?;
        Ok(())
    }
}
