//! Going through the entries of tables that follow one another.

ghost use Rattle.std.specs.Prelude.{◌≡◌, ◌≤◌, ◌++◌, filter, nat_eq};
ghost use Rattle.lsm_key.specs.Places.{all_entries};
ghost use Rattle.lsm_key.specs.Order.{key_le};
ghost use Rattle.lsm_edit.specs.Served.{AllRecorded, AreInSearchOrder, left_of, tables_of};

use super::{Placed, place_in};
use lsm_block::{BlockEntry, Cursor};
use lsm_key::MAX_LEVEL;
use std::marker::Model;

/// A place among the entries of some tables, one table after another: those from there on are left. No table is read before its
/// turn.
#[derive(Debug, Drop)]
pub struct LevelCursor<'a> {
    current: Cursor<'a>,
    later: &'a [Placed],
}

impl<'a> Model for LevelCursor<'a> {
    ghost use Rattle.std.specs.Prelude.{List, ◌++◌};
    ghost use Rattle.lsm_key.specs.declared.entry.Entry.{Entry};
    ghost use Rattle.lsm_key.specs.Places.{all_entries};
    ghost use Rattle.lsm_edit.specs.Served.{tables_of};

    ghost Value = { List Entry };

    ghost view = { λ c. c.current ++ all_entries (tables_of c.later.now) };
}

impl<'a> LevelCursor<'a> {
    // What a cursor has left, and then the tables.
    pub(super) fn new(current: Cursor<'a>, later: &'a [Placed]) -> LevelCursor<'a>
        ensures { result ≡ current.entry ++ all_entries (tables_of later.now) }
    {
        LevelCursor { current, later }
    }
}

impl<'a> Iterator for LevelCursor<'a> {
    type Item = BlockEntry<'a>;

    ghost use Rattle.std.specs.Iterator.{item_count};
    ghost use Rattle.lsm_block.specs.Cursors.{GivesNext};

    ghost next_gives = { GivesNext };

    ghost remaining = { item_count (λ c. c) };

    // The next entry, if there is one, where it lies. Allocates nothing.
    fn next(&mut self) -> Option<BlockEntry<'a>> {
        loop {
            if let Some(found) = Iterator::next(&mut self.current) {
                return Some(found);
            }
            let (placed, later) = match self.later.split_first() {
                Some(parts) => parts,
                None => return None,
            };
            self.current = placed.table.cursor();
            self.later = later;
        }
    }
}

// A cursor over the tables of a deeper level, at the first entry whose key is at or after `lo`, if a table reaches it. O(log n) for
// n files.
pub(super) fn level_cursor<'a>(
    places: &'a [Placed],
    level: u8,
    lo: &[u8],
) -> Option<LevelCursor<'a>>
    requires recorded { AllRecorded places.now }
    requires ordered { AreInSearchOrder places.now }
    requires deeper { (1 ≤ level) × (level ≤ MAX_LEVEL) }
    ensures { left_of result ≡ filter (λ e. key_le lo.now e.ikey.key) (all_entries (tables_of (filter (λ p. nat_eq p.meta.level level) places.now))) }
{
    let start = place_in(places, level, lo);
    let end = place_in(places, level + 1, &[]);
    let (first, later) = match places[start..end].split_first() {
        Some(parts) => parts,
        None => return None,
    };
    Some(LevelCursor::new(first.table.cursor_from(lo), later))
}
