//! Snapshots of the store: how one is made, and released.

ghost use Rattle.std.specs.Prelude.{◌≡◌, None, IfErr, IfOk, OnErr, OnOk, Some};
ghost use Rattle.lsm_key.specs.Faults.{Refuses};
ghost use Rattle.lsm_coord.specs.Contract.Calls.{release_fault, snapshot_fault};
ghost use Rattle.lsm_store.specs.Store.{AddsSnapshot, DropsSnapshot, OfCoord};

use super::Store;
use crate::StoreError;
use lsm_coord::{CoordError, SnapId};
use lsm_vault::Vault;

impl<V: Vault> Store<V> {
    /// Makes a snapshot of all that the store holds, and returns its name: a read at it is answered as a read is now, until it
    /// is released. At most `MAX_SNAPSHOTS` of `lsm_key` are live. A refusal changes nothing.
    pub fn snapshot(&mut self) -> Result<SnapId, StoreError>
        ensures ok { IfOk result (λ id. (snapshot_fault self.old ≡ None) × AddsSnapshot self.old id self.new) }
        ensures err { OnErr result (self.new ≡ self.old) }
        ensures refused { IfErr result (OfCoord (Refuses CoordError.OutOfMemory (snapshot_fault self.old))) }
    {
        let (id, _) = self.coord.snapshot()?;
        Ok(id)
    }

    /// Releases a snapshot. Allocates nothing. A refusal changes nothing.
    pub fn release(&mut self, id: SnapId) -> Result<(), StoreError>
        ensures ok { OnOk result ((release_fault self.old id ≡ None) × DropsSnapshot self.old id self.new) }
        ensures err { OnErr result (self.new ≡ self.old) }
        ensures refused { IfErr result (OfCoord (λ e. release_fault self.old id ≡ Some e)) }
    {
        self.coord.release(id)?;
        Ok(())
    }
}
