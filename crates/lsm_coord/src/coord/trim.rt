//! Trims: the floor rises, and tables are let go that only versions below it list.

ghost use Rattle.std.specs.Prelude.{◌≡◌, ◌≤◌, None, IfErr, IfOk, OnOk, max};
ghost use Rattle.lsm_versions.specs.Opening.{obsolete_tables};
ghost use Rattle.lsm_coord.specs.Model.Event.{Trim};
ghost use Rattle.lsm_coord.specs.Contract.Calls.{TrimRefuses, trim_fault, with_floor, with_live_tables};
ghost use Rattle.lsm_coord.specs.Contract.Replies.{trim_reply};
ghost use Rattle.lsm_coord.specs.Contract.Shows.{Follows};
ghost use Rattle.lsm_coord.specs.Contract.Sound.{KeepsSound};
ghost use Rattle.lsm_coord.specs.Contract.Value.{version_set};

use super::Coord;
use crate::CoordError;
use lsm_key::{FileNumber, Items, VersionNumber};
use lsm_vault::Vault;

impl<V: Vault> Coord<V> {
    /// Raises the floor to a version, unless it is higher, and removes every table of the vault that no version from the floor on
    /// lists: a later fetch of such a file gets `Gone`. Returns the floor, and the numbers of the tables that were removed,
    /// ascending.
    /// Refuses a version above the current one, which changes nothing. If memory runs out or the device fails, the floor stays
    /// raised, and the tables that are left are removed by the next trim or opening.
    pub fn trim(
        &mut self,
        to: VersionNumber,
    ) -> Result<(VersionNumber, Items<FileNumber>), CoordError>
        ensures step { Follows self.old (Trim to) (trim_reply result) self.new }
        ensures ok { OnOk result ((trim_fault self.old to ≡ None) × (self.new ≡ record (with_live_tables self.old to) { failures = self.new.failures })) }
        ensures floor { IfOk result (λ trimmed. trimmed.0 ≡ max self.old.floor to) }
        ensures removed { IfOk result (λ trimmed. trimmed.1 ≡ obsolete_tables (version_set (with_floor self.old to))) }
        ensures refused { IfErr result (λ e. TrimRefuses self.old to e self.new) }
        ensures failures { self.old.failures ≤ self.new.failures }
        ensures sound { KeepsSound self.old self.new }
    {
        if to.number() > self.versions.version().number() {
            return Err(CoordError::BadFloor);
        }
        let removed = self.versions.trim(to)?;
        Ok((self.versions.floor(), Items::from_vec(removed)))
    }
}
