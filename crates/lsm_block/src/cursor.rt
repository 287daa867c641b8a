//! Going through the entries of a block, one after the other.

ghost use Rattle.std.specs.Prelude.{◌≡◌, ◌≢◌, ◌∷◌, [], IfErr, IfOk, MatchOption, OnErr, length};
ghost use Rattle.lsm_key.specs.Order.{IsAscending};
ghost use Rattle.lsm_block.specs.Cursors.{GivesNext, IsPlaceIn, entries_from};

use crate::block_entry::BlockEntry;
use crate::lent::entry_in;
use bytes::Bytes;
use lsm_key::{Entry, prefix_of};
use std::alloc::AllocError;
use std::marker::Model;

/// A place among the entries of a block: those from there on are left. None of them is decoded.
///
/// Invariant: the bytes from the place on are whole entries in order, so an entry begins at the place, or it is the end.
#[derive(Debug, Drop)]
pub struct Cursor<'a> {
    bytes: &'a Bytes,
    place: usize,
}

impl<'a> Model for Cursor<'a> {
    ghost use Rattle.std.specs.Prelude.{List};
    ghost use Rattle.lsm_key.specs.declared.entry.Entry.{Entry};
    ghost use Rattle.lsm_block.specs.Cursors.{IsPlaceIn, entries_from};

    ghost Value = { List Entry };

    ghost view = { λ c. entries_from c.bytes.now c.place };

    ghost invariant = { λ c. IsPlaceIn c.bytes.now c.place };
}

impl<'a> Cursor<'a> {
    /// A cursor at a place in the bytes of a block.
    pub(crate) fn new(bytes: &'a Bytes, place: usize) -> Cursor<'a>
        requires { IsPlaceIn bytes.now place }
        ensures { result ≡ entries_from bytes.now place }
    {
        Cursor { bytes, place }
    }

    /// The next entry, if there is one. It shares the bytes. After an error the cursor is as it was; at the end there is no error.
    pub fn next(&mut self) -> Result<Option<Entry>, AllocError>
        ensures gives { IfOk result (λ e. GivesNext self.old e self.new) }
        ensures err { OnErr result (self.new ≡ self.old) }
        ensures refused { IfErr result (λ _. self.old ≢ []) }
        // The entries that were left are in order.
        ensures sound { IsAscending self.old }
    {
        let bytes = self.bytes;
        let place = self.place;
        let found = match Iterator::next(self) {
            Some(found) => found,
            None => return Ok(None),
        };
        match found.shared() {
            Ok(entry) => Ok(Some(entry)),
            Err(refused) => {
                *self = Cursor { bytes, place };
                Err(refused)
            }
        }
    }
}

impl<'a> Iterator for Cursor<'a> {
    type Item = BlockEntry<'a>;

    ghost use Rattle.std.specs.Iterator.{item_count};
    ghost use Rattle.lsm_block.specs.Cursors.{GivesNext};

    ghost next_gives = { GivesNext };

    ghost remaining = { item_count (λ c. c) };

    // The next entry, if there is one, where it lies. Allocates nothing.
    fn next(&mut self) -> Option<BlockEntry<'a>> {
        let bytes = self.bytes;
        if self.place >= bytes.len() {
            return None;
        }
        let rest = &bytes.as_slice()[self.place..];
        let (entry, after) = match entry_in(rest) {
            Ok(found) => found,
            Err(_) => unreachable!(),
        };
        let prefix = prefix_of(&[], entry.key);
        let place = self.place;
        let end = place + (rest.len() - after.len());
        self.place = end;
        Some(BlockEntry::new(bytes, place, end, prefix))
    }
}
