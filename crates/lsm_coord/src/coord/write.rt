//! Writes, and freezing the memtable that they went to.

ghost use Rattle.std.specs.Prelude.{◌≡◌, None, IfErr, OnOk};
ghost use Rattle.lsm_coord.specs.Model.Event.{Write, Freeze};
ghost use Rattle.lsm_coord.specs.Contract.Shows.{Follows};
ghost use Rattle.lsm_coord.specs.Contract.Calls.{AppendRefuses, IsFrozen, IsWritten, freeze_fault, write_fault};
ghost use Rattle.lsm_coord.specs.Contract.Sound.{KeepsSound};
ghost use Rattle.lsm_coord.specs.Contract.Replies.{write_reply, freeze_reply};

use super::Coord;
use super::logging::one_more;
use crate::CoordError;
use crate::frozen::Frozen;
use lsm_edit::encode_freeze;
use lsm_key::{Batch, MAX_MEMTABLE_WEIGHT, Seq};
use lsm_mem::Memtable;
use lsm_vault::Vault;
use std::mem;

impl<V: Vault> Coord<V> {
    /// Applies a batch, once the vault's log has it, and returns the first and the last of its sequences. A refusal changes
    /// nothing.
    pub fn write(&mut self, batch: &Batch) -> Result<(Seq, Seq), CoordError>
        ensures step { Follows self.old (Write batch.now) (write_reply result) self.new }
        ensures ok { OnOk result ((write_fault self.old batch.now ≡ None) × IsWritten self.old batch.now self.new) }
        ensures refused { IfErr result (λ e. AppendRefuses (write_fault self.old batch.now) self.old e self.new) }
        ensures sound { KeepsSound self.old self.new }
    {
        let count = batch.ops().len() as u64;
        match self.write_fault(batch) {
            Some(why) => return Err(why),
            None => {}
        }
        let before = self.newest.number();
        let first = Seq::new(before + 1);
        // Proof hint: the memtable's entries are in order.
        let _last = self.active.last_seq();
        // All that grows has grown before the log is asked, so what is in it is accepted.
        let logged = self.active.apply(first, batch)?;
        match self.versions.append_log(logged) {
            Ok(()) => {}
            Err(why) => {
                self.active.undo(first);
                return Err(CoordError::from(why));
            }
        }
        self.logged = one_more(self.logged);
        self.newest = Seq::new(before + count);
        Ok((first, self.newest))
    }

    // Why the batch can't be applied, if it can't.
    fn write_fault(&self, batch: &Batch) -> Option<CoordError>
        ensures { result ≡ write_fault self.now batch.now }
    {
        let ops = batch.ops();
        if ops.is_empty() {
            return Some(CoordError::EmptyBatch);
        }
        if ops.len() as u64 > Seq::MAX - self.newest.number() {
            return Some(CoordError::SequenceExhausted);
        }
        if self.active.weight() + batch.weight() > MAX_MEMTABLE_WEIGHT {
            return Some(CoordError::MemtableFull);
        }
        None
    }

    /// Freezes the active memtable, once the vault's log has the freeze, so that writes go to a new one, and returns its last
    /// sequence. A refusal changes nothing.
    pub fn freeze(&mut self) -> Result<Seq, CoordError>
        ensures step { Follows self.old Freeze (freeze_reply result) self.new }
        ensures ok { OnOk result ((freeze_fault self.old ≡ None) × IsFrozen self.old self.new) }
        ensures refused { IfErr result (λ e. AppendRefuses (freeze_fault self.old) self.old e self.new) }
        ensures sound { KeepsSound self.old self.new }
    {
        match self.freeze_fault() {
            Some(why) => return Err(why),
            None => {}
        }
        let end = self.newest;
        let logged = encode_freeze(self.alloc, end)?;
        self.versions.append_log(logged)?;
        self.logged = one_more(self.logged);
        self.frozen_upto = self.logged;
        let next = self.active.successor();
        let memtable = mem::replace(&mut self.active, next);
        self.frozen = Some(Frozen { memtable, end });
        Ok(end)
    }

    // Why nothing can be frozen, if nothing can.
    fn freeze_fault(&self) -> Option<CoordError>
        ensures { result ≡ freeze_fault self.now }
    {
        if self.frozen.is_some() {
            return Some(CoordError::FrozenWaiting);
        }
        if self.active.is_empty() {
            return Some(CoordError::NothingToFreeze);
        }
        None
    }
}
