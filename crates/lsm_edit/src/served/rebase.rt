//! What another version makes of one with its tables.

ghost use Rattle.std.specs.Prelude.{◌≡◌, ◌+◌, ◌≤◌, IfOk, length, vec_capacity};
ghost use Rattle.lsm_edit.specs.Served.{AreInSearchOrder, AreLacking, after_rebase, put_all};

use super::{Placed, Served, put_in};
use crate::Version;
use std::alloc::AllocError;
use std::marker::Model;

/// Room for the places of another version, so that the move to it takes no memory.
///
/// Invariant: `places` is empty: its capacity is the room.
#[derive(Debug, Drop)]
pub struct Room {
    places: Vec<Placed>,
}

impl Model for Room {
    ghost use Rattle.std.specs.Prelude.{◌≡◌, ℕ, [], vec_capacity};

    ghost Value = { ℕ };

    ghost view = { λ r. vec_capacity r.places };

    ghost invariant = { λ r. r.places.items ≡ [] };
}

impl Served {
    /// Room for its places and for so many more.
    pub fn make_room(&self, added: usize) -> Result<Room, AllocError>
        ensures { IfOk result (λ room. length self.now.places + added ≤ room) }
    {
        let Some(count) = self.placed.len().checked_add(added) else {
            return Err(AllocError);
        };
        let places = Vec::with_capacity(self.current.alloc(), count)?;
        Ok(Room { places })
    }

    /// Becomes another version, with the tables of the files that this one does not list; those of the others stay. No table
    /// is copied, and no memory is taken. O(n log n) for n files, and O(n) for each table.
    pub fn rebase(&mut self, version: Version, received: Vec<Placed>, room: Room)
        requires lacking { AreLacking self.old.version version received.items }
        requires room { length self.old.places + length received.items ≤ room }
        ensures { self.new ≡ after_rebase self.old version received.items }
    {
        // Proof hint: the version's invariant.
        let _number = version.number();
        self.placed.retain(|placed| version.lists(&placed.meta));
        let mut places = room.places;
        places.append(&mut self.placed).unwrap();
        put_received(&mut places, received);
        self.current = version;
        self.placed = places;
    }
}

// Inserts files with their tables among others, which have room for them, in search order.
fn put_received(places: &mut Vec<Placed>, received: Vec<Placed>)
    requires room { length places.old.items + length received.items ≤ vec_capacity places.old }
    requires ordered { AreInSearchOrder (put_all received.items places.old.items) }
    ensures { places.new.items ≡ put_all received.items places.old.items }
{
    let mut received = received;
    while let Some(placed) = received.pop() {
        put_in(places, placed);
    }
}
