//! What an edit makes of a version with its tables, made ready before anything changes.

ghost use Rattle.std.specs.Prelude.{◌≡◌, ◌+◌, ◌≤◌, [], None, IfOk, IfErr, length};
ghost use Rattle.std.specs.List.Sorted.{IsNonDecreasing};
ghost use Rattle.lsm_edit.specs.Edit.{IsEdit};
ghost use Rattle.lsm_edit.specs.Version.{IsVersion, apply_fault};
ghost use Rattle.lsm_edit.specs.Served.{AreAsRecorded, IsServed};
ghost use Rattle.lsm_edit.specs.Prepared.{IsPreparedBy, IsReadyFor, after_taking_up, prepared_by};

use super::{Placed, Served, put_each};
use crate::numbers::is_among;
use crate::version::{copies_of, removed_by};
use crate::{Edit, FileMeta, Version};
use lsm_table::Table;
use std::alloc::AllocError;
use std::marker::Model;

/// The next version and the tables that it brings, with room for its places, so that taking it up takes no memory.
///
/// Invariant: `places` is empty, since it is room alone, and the numbers in `removed` ascend.
#[derive(Debug, Drop)]
pub struct Prepared {
    version: Version,
    removed: Vec<u64>,
    files: Vec<FileMeta>,
    tables: Vec<Table>,
    places: Vec<Placed>,
}

impl Model for Prepared {
    ghost use Rattle.std.specs.Prelude.{◌≡◌, [], vec_capacity};
    ghost use Rattle.std.specs.List.Sorted.{IsNonDecreasing};
    ghost use Rattle.lsm_edit.specs.Prepared.{PreparedValue};

    ghost Value = { PreparedValue };

    ghost view = { λ p. record { version = p.version; removed = p.removed.items; files = p.files.items; tables = p.tables.items; room = vec_capacity p.places } };

    ghost invariant = { λ p. (p.places.items ≡ []) × IsNonDecreasing p.removed.items };
}

impl Prepared {
    /// The tables of the files that are added, in the order of the files' numbers.
    pub fn tables(&self) -> &[Table]
        ensures { result.now ≡ self.now.tables }
    {
        self.tables.as_slice()
    }

    // The numbers of the files that go, ascending.
    fn removed(&self) -> &[u64]
        ensures all { result.now ≡ self.now.removed }
        ensures ascending { IsNonDecreasing result.now }
    {
        self.removed.as_slice()
    }
}

impl Served {
    /// Makes the next version by an edit that is known to apply, with the tables of the files that it adds, by number. If
    /// memory runs out, the tables come back.
    pub fn prepare(
        &self,
        edit: &Edit,
        tables: Vec<Table>,
    ) -> Result<Prepared, (AllocError, Vec<Table>)>
        requires sound { IsEdit edit.now }
        requires recorded { AreAsRecorded edit.now.added tables.items }
        requires applies { apply_fault self.now.version edit.now ≡ None }
        ensures ok { IfOk result (IsPreparedBy self.now edit.now tables.items) }
        ensures err { IfErr result (λ e. e.1.items ≡ tables.items) }
    {
        match self.room_for(edit) {
            Ok(mut prepared) => {
                prepared.tables = tables;
                Ok(prepared)
            }
            Err(why) => Err((why, tables)),
        }
    }

    // The next version, as yet without the tables that it brings.
    fn room_for(&self, edit: &Edit) -> Result<Prepared, AllocError>
        requires sound { IsEdit edit.now }
        requires applies { apply_fault self.now.version edit.now ≡ None }
        ensures made { IfOk result (λ p. p ≡ prepared_by self.now edit.now [] p.room) }
        ensures room { IfOk result (λ p. length self.now.places + length edit.now.added ≤ p.room) }
        ensures sound { IsServed self.now × IsVersion self.now.version }
    {
        let alloc = self.current.alloc();
        let Some(room) = self.placed.len().checked_add(edit.added.len()) else {
            return Err(AllocError);
        };
        let places = Vec::with_capacity(alloc, room)?;
        let removed = removed_by(edit).to_vec(alloc)?;
        let files = copies_of(alloc, edit.added.as_slice())?;
        let mut version = self.current.copy(alloc)?;
        version.apply_valid(edit)?;
        Ok(Prepared {
            version,
            removed,
            files,
            tables: Vec::new(alloc),
            places,
        })
    }

    /// Becomes the next version, which an edit made ready. Takes no memory.
    pub fn take_up(&mut self, prepared: Prepared)
        requires { IsReadyFor self.old prepared }
        ensures { self.new ≡ after_taking_up self.old prepared }
    {
        let removed = prepared.removed();
        self.placed
            .retain(|placed| !is_among(removed, placed.meta.number));
        let Prepared {
            version,
            removed: _,
            files,
            tables,
            mut places,
        } = prepared;
        places.append(&mut self.placed).unwrap();
        put_each(&mut places, files, tables);
        self.current = version;
        self.placed = places;
    }
}
