//! Compactions of the store, in the caller's own thread.

ghost use Rattle.std.specs.Prelude.{◌≡◌, false, true, IfErr, IfOk, OnOk};
ghost use Rattle.lsm_store.specs.Compacting.{IsLeft};
ghost use Rattle.lsm_store.specs.Store.{CompactRefuses, CompactsNext, IsDueAfter, Keeps, LeavesMemtable, LetsOthersGo, NextRefuses, OfCoord, ServesCurrentAlone};

use super::Store;
use crate::compact::compact_in;
use crate::{Due, StoreError};
use lsm_coord::CoordError;
use lsm_vault::Vault;

impl<V: Vault> Store<V> {
    /// Runs compactions, one after another, until no level needs one or `rounds` of them were made, and returns what is still due.
    /// Of the tables it keeps those of the last version alone. It changes no read, and can be tried again if it is refused.
    pub fn compact(&mut self, rounds: u64) -> Result<Due, StoreError>
        ensures ok { IfOk result (IsDueAfter self.old rounds self.new) }
        ensures let_go { OnOk result (LetsOthersGo self.old self.new) }
        ensures keeps { Keeps self.old self.new }
        ensures recent { LeavesMemtable self.old self.new }
        ensures refused { IfErr result (OfCoord (CompactRefuses self.old self.new)) }
    {
        for _round in 0..rounds {
            let found = match self.compact_next() {
                Ok(found) => found,
                Err(why) => return due_after(why),
            };
            if !found {
                return Ok(Due::Nothing);
            }
        }
        Ok(Due::More)
    }

    // Runs the next compaction, and lets the tables go that it replaced. Returns whether one was due.
    fn compact_next(&mut self) -> Result<bool, CoordError>
        ensures ok { IfOk result (CompactsNext self.old self.new) }
        ensures let_go { IfOk result (λ found. found ≡ true → ServesCurrentAlone self.new) }
        ensures none { IfOk result (λ found. found ≡ false → IsLeft self.old self.new) }
        ensures too_large { IfErr result (λ e. e ≡ CoordError.TooWide → IsLeft self.old self.new) }
        ensures keeps { Keeps self.old self.new }
        ensures recent { LeavesMemtable self.old self.new }
        ensures refused { IfErr result (NextRefuses self.old self.new) }
    {
        let Some((number, _files)) = compact_in(
            self.alloc,
            &mut self.coord,
            Some(&mut self.pointers),
        )?
        else {
            return Ok(false);
        };
        self.coord.trim(number)?;
        // Proof hint: the coordinator's invariant.
        let _listing = self.coord.show();
        Ok(true)
    }
}

// What is due once a compaction is refused: no compaction fits the job limits, or it failed for another reason.
fn due_after(why: CoordError) -> Result<Due, StoreError>
    ensures ok { IfOk result (λ due. (due ≡ Due.TooLarge) × (why ≡ CoordError.TooWide)) }
    ensures refused { IfErr result (λ e. (e ≡ StoreError.Coord why) × (why ≡ CoordError.TooWide → ⊥)) }
{
    if why == CoordError::TooWide {
        return Ok(Due::TooLarge);
    }
    Err(StoreError::Coord(why))
}
