//! Snapshots of the store: how they are made and released. They are in memory alone, so no vault is asked.

ghost use Rattle.std.specs.Prelude.{◌≡◌, None, IfErr, OnOk, OnErr, Some};
ghost use Rattle.lsm_key.specs.Faults.{Refuses};
ghost use Rattle.lsm_coord.specs.Model.State.{State};
ghost use Rattle.lsm_coord.specs.Model.Event.{Snap, Release};
ghost use Rattle.lsm_coord.specs.Contract.Shows.{Follows, Shows};
ghost use Rattle.lsm_coord.specs.Contract.Calls.{snapshot_fault, after_snapshot, release_fault, after_release};
ghost use Rattle.lsm_coord.specs.Contract.Sound.{KeepsSound};
ghost use Rattle.lsm_coord.specs.Contract.Replies.{snapshot_reply, release_reply};

use super::Coord;
use crate::CoordError;
use crate::snapshot::{SnapId, Snapshot};
use lsm_key::{MAX_NUMBER, MAX_SNAPSHOTS, Seq};
use lsm_vault::Vault;

impl<V: Vault> Coord<V> {
    /// Makes a snapshot of the latest sequence, and returns its name and that sequence. A refusal changes nothing.
    pub fn snapshot(&mut self) -> Result<(SnapId, Seq), CoordError>
        ensures step { Follows self.old Snap (snapshot_reply result) self.new }
        ensures ok { OnOk result ((snapshot_fault self.old ≡ None) × (self.new ≡ after_snapshot self.old)) }
        ensures err { OnErr result (self.new ≡ self.old) }
        ensures refused { IfErr result (Refuses CoordError.OutOfMemory (snapshot_fault self.old)) }
        ensures sound { (s : State) → Shows self.old s → KeepsSound self.old self.new }
    {
        match self.snapshot_fault() {
            Some(why) => return Err(why),
            None => {}
        }
        let id = SnapId {
            epoch: self.versions.version().epoch(),
            number: self.made + 1,
        };
        let at = self.newest;
        self.live.push(Snapshot { id, at })?;
        self.made += 1;
        Ok((id, at))
    }

    /// Releases a snapshot. Allocates nothing. A refusal changes nothing.
    pub fn release(&mut self, id: SnapId) -> Result<(), CoordError>
        ensures step { Follows self.old (Release id) (release_reply id result) self.new }
        ensures ok { OnOk result ((release_fault self.old id ≡ None) × (self.new ≡ after_release self.old id)) }
        ensures err { OnErr result (self.new ≡ self.old) }
        ensures refused { IfErr result (λ e. release_fault self.old id ≡ Some e) }
        ensures sound { KeepsSound self.old self.new }
    {
        if self.seq_of(id).is_none() {
            return Err(CoordError::NoSnapshot);
        }
        self.live.retain(|live| live.id != id);
        Ok(())
    }

    // Why no snapshot can be made, if none can.
    fn snapshot_fault(&self) -> Option<CoordError>
        ensures { result ≡ snapshot_fault self.now }
    {
        if self.live.len() >= MAX_SNAPSHOTS {
            return Some(CoordError::TooManySnapshots);
        }
        if self.made >= MAX_NUMBER {
            return Some(CoordError::NumbersExhausted);
        }
        None
    }
}
