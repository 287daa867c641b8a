//! Cursors that are read up to their next entry.

ghost use Rattle.std.specs.Prelude.{◌≡◌, IfOk, filter};
ghost use Rattle.lsm_table.specs.Heads.{has_entry};
ghost use Rattle.lsm_merge.specs.Walks.{IsReadUpTo, cursor_lists};

use lsm_block::{BlockEntry, Cursor};
use lsm_table::Head;
use std::alloc::{AllocError, Global};

/// A cursor that is read up to an entry: that one where it lies, and the cursor behind it.
#[derive(Drop)]
pub(crate) struct CursorHead<'a> {
    entry: BlockEntry<'a>,
    rest: Cursor<'a>,
}

impl<'a> CursorHead<'a> {
    /// What a cursor has left, if it has an entry left.
    fn of(cursor: Cursor<'a>) -> Option<CursorHead<'a>>
        ensures { IsReadUpTo cursor.entry result }
    {
        let mut rest = cursor;
        let entry = Iterator::next(&mut rest)?;
        Some(CursorHead { entry, rest })
    }

    /// The entry, where it lies.
    pub(crate) fn entry(&self) -> BlockEntry<'a>
        ensures { result ≡ self.now.entry }
    {
        self.entry.copy()
    }
}

impl<'a> Head for CursorHead<'a> {
    ghost entry = { λ h. h.entry };

    ghost left = { λ h. h.rest };

    fn advance(&mut self) -> bool {
        match Iterator::next(&mut self.rest) {
            Some(next) => {
                self.entry = next;
                true
            }
            None => false,
        }
    }

    fn precedes(&self, other: &CursorHead<'a>) -> bool {
        self.entry.precedes(&other.entry)
    }
}

/// Reads each cursor up to its next entry; one that has none left is dropped.
pub(crate) fn heads_of<'a>(
    alloc: Global,
    cursors: Vec<Cursor<'a>>,
) -> Result<Vec<CursorHead<'a>>, AllocError>
    ensures { IfOk result (λ heads. cursor_lists heads.items ≡ filter has_entry cursors.entry.items) }
{
    let mut heads = Vec::with_capacity(alloc, cursors.len())?;
    for cursor in cursors {
        if let Some(head) = CursorHead::of(cursor) {
            heads.push(head)?;
        }
    }
    Ok(heads)
}
