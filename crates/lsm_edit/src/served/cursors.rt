//! Cursors over all tables of a version.

ghost use Rattle.std.specs.Prelude.{◌≡◌, All, IfOk, filter, nat_eq};
ghost use Rattle.lsm_key.specs.Order.{IsInOrder, key_le};
ghost use Rattle.lsm_key.specs.Places.{all_entries};
ghost use Rattle.lsm_edit.specs.Served.{AllRecorded, AreInSearchOrder, tables_of};

use super::level_cursor::{LevelCursor, level_cursor};
use super::search::deepest_level;
use super::{Placed, Served};
use std::alloc::{AllocError, Global};

impl Served {
    /// Cursors at the first entries whose key is at or after `lo`: one for each table of level 0, and one for each deeper level with a
    /// table that reaches it. O(log n) for n files, and for the entries of each table that is sought in.
    pub fn cursors_from(&self, lo: &[u8]) -> Result<Vec<LevelCursor<'_>>, AllocError>
        ensures all { IfOk result (λ cursors. all_entries cursors.items ≡ filter (λ e. key_le lo.now e.ikey.key) (all_entries (tables_of self.now.places))) }
        ensures order { IfOk result (λ cursors. All IsInOrder cursors.items) }
    {
        let places = self.places();
        let mut cursors = zero_cursors(self.current.alloc(), places, lo)?;
        for level in 1..deepest_level(places) + 1 {
            let Some(cursor) = level_cursor(places, level, lo) else {
                continue;
            };
            cursors.push(cursor)?;
        }
        Ok(cursors)
    }
}

// Cursors over the tables of level 0.
fn zero_cursors<'a>(
    alloc: Global,
    places: &'a [Placed],
    lo: &[u8],
) -> Result<Vec<LevelCursor<'a>>, AllocError>
    requires recorded { AllRecorded places.now }
    requires ordered { AreInSearchOrder places.now }
    ensures all { IfOk result (λ cursors. all_entries cursors.items ≡ filter (λ e. key_le lo.now e.ikey.key) (all_entries (tables_of (filter (λ p. nat_eq p.meta.level 0) places.now)))) }
    ensures order { IfOk result (λ cursors. All IsInOrder cursors.items) }
{
    let mut cursors = Vec::new(alloc);
    for placed in places {
        if placed.meta.level > 0 {
            return Ok(cursors);
        }
        cursors.push(LevelCursor::new(placed.table.cursor_from(lo), &[]))?;
    }
    Ok(cursors)
}
