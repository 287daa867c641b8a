//! A version with its open tables, and reads of it.

mod cursors;
mod level_cursor;
mod prepared;
mod rebase;
mod search;

ghost use Rattle.std.specs.Prelude.{◌≡◌, ◌+◌, ◌<◌, ◌≤◌, ◌++◌, ◌∷◌, length, take, drop, vec_capacity, true, false, not, filter, OnOk, OnErr, IfOk, IfErr, IfSome, IfNone, None};
ghost use Rattle.std.specs.List.Sorted.{IsPartitionPoint};
ghost use Rattle.std.specs.Option.{option_map, option_copied, option_to_list};
ghost use Rattle.lsm_key.specs.Faults.{Refuses};
ghost use Rattle.lsm_key.specs.Sets.{IsIn, SameMembers};
ghost use Rattle.lsm_key.specs.Visible.{visible, value_at, lent_entry};
ghost use Rattle.lsm_edit.specs.declared.served.Placed.{Placed};
ghost use Rattle.lsm_key.specs.Places.{AreOrdered, all_entries, first_visible};
ghost use Rattle.lsm_edit.specs.Edit.{IsEdit};
ghost use Rattle.lsm_edit.specs.Reading.{value_in};
ghost use Rattle.lsm_edit.specs.Version.{apply_fault};
ghost use Rattle.lsm_edit.specs.Served.{AllRecorded, AreAsRecorded, AreInSearchOrder, comes_left, is_before, placed_of, put_in_order, put_all, in_order, tables_of};

use crate::version::copies_of;
use crate::{ApplyError, Edit, FileMeta, Version};
pub use level_cursor::LevelCursor;
use lsm_key::{EntryRef, Kind, MAX_LEVEL, Seq, VersionNumber};
use lsm_table::Table;
pub use prepared::Prepared;
pub use rebase::Room;
use search::first_in;
use std::alloc::{AllocError, Global};
use std::marker::Model;

/// A file with its open table.
#[derive(Debug, Drop)]
pub struct Placed {
    pub meta: FileMeta,
    pub table: Table,
}

/// What a version lists: its number, its flushed sequence, and its files by number.
#[derive(Clone, Copy, Debug)]
pub struct Listing<'a> {
    pub number: VersionNumber,
    pub flushed: Seq,
    pub files: &'a [FileMeta],
}

/// A version with its open tables, in search order: level 0 from the newest file to the oldest, then each deeper level by key.
///
/// Invariant: each file of the version is placed once and no other file is, each table is as its file's record says, and the places
/// are in search order.
#[derive(Debug, Drop)]
pub struct Served {
    current: Version,
    placed: Vec<Placed>,
}

impl Placed {
    ghost use Rattle.std.specs.Prelude.{◌≡◌, IfOk};

    // The same file with the same table, which shares its bytes and entries.
    fn copy(&self) -> Result<Placed, AllocError>
        ensures { IfOk result (λ copy. copy ≡ self.now) }
    {
        let meta = self.meta.clone()?;
        let table = self.table.copy()?;
        Ok(Placed { meta, table })
    }
}

impl Model for Served {
    ghost use Rattle.lsm_edit.specs.Served.{ServedValue, IsServed};

    ghost Value = { ServedValue };

    ghost view = { λ s. record { version = s.current; places = s.placed.items } };

    ghost invariant = { λ s. IsServed (record { version = s.current; places = s.placed.items }) };
}

impl Served {
    ghost use Rattle.lsm_edit.specs.Version.{IsVersion};
    ghost use Rattle.lsm_edit.specs.Served.{IsServed, first_served, after_advance, AreAsRecorded, tables_of, table_at};

    /// Version 0, without tables.
    pub fn new(alloc: Global) -> Served
        ensures { result ≡ first_served }
    {
        Served {
            current: Version::new(alloc),
            placed: Vec::new(alloc),
        }
    }

    /// The version.
    pub fn version(&self) -> &Version
        ensures { result.now ≡ self.now.version }
    {
        &self.current
    }

    /// The files with their tables, in search order.
    pub fn places(&self) -> &[Placed]
        ensures all { result.now ≡ self.now.places }
        ensures sound { IsServed self.now × IsVersion self.now.version }
    {
        // Proof hint: the version's invariant.
        let _number = self.current.number();
        self.placed.as_slice()
    }

    /// What the version lists.
    pub fn listing(&self) -> Listing<'_>
        ensures number { result.number ≡ self.now.version.number }
        ensures flushed { result.flushed ≡ self.now.version.flushed }
        ensures files { result.files.now ≡ self.now.version.files }
        ensures sound { IsServed self.now × IsVersion self.now.version }
    {
        Listing {
            number: VersionNumber::new(self.current.number()),
            flushed: self.current.flushed(),
            files: self.current.files(),
        }
    }

    /// A version with a table for each of its files, by number.
    pub fn from_tables(version: Version, tables: Vec<Table>) -> Result<Served, AllocError>
        requires { AreAsRecorded version.files tables.items }
        ensures version { IfOk result (λ s. s.version ≡ version) }
        ensures places { IfOk result (λ s. SameMembers s.places (placed_of version.files tables.items)) }
    {
        let placed = places_of(version.alloc(), version.files(), tables)?;
        Ok(Served {
            current: version,
            placed,
        })
    }

    /// The same version with the same tables, which share their bytes and entries.
    pub fn copy(&self, alloc: Global) -> Result<Served, AllocError>
        ensures { IfOk result (λ copy. copy ≡ self.now) }
    {
        let current = self.current.copy(alloc)?;
        let placed = copies_of_places(alloc, self.placed.as_slice())?;
        Ok(Served { current, placed })
    }

    /// Becomes the next version by an edit, with the tables of the files that it adds, by number. Refuses as
    /// `Version::apply` does. A refusal changes nothing, and the tables come back.
    pub fn advance(
        &mut self,
        edit: &Edit,
        tables: Vec<Table>,
    ) -> Result<(), (ApplyError, Vec<Table>)>
        requires sound { IsEdit edit.now }
        requires recorded { AreAsRecorded edit.now.added tables.items }
        ensures ok { OnOk result ((apply_fault self.old.version edit.now ≡ None) × (self.new ≡ after_advance self.old edit.now tables.items)) }
        ensures err { OnErr result (self.new ≡ self.old) }
        ensures refused { IfErr result (λ e. Refuses ApplyError.OutOfMemory (apply_fault self.old.version edit.now) e.0) }
        ensures returned { IfErr result (λ e. e.1.items ≡ tables.items) }
    {
        match self.current.fault_of(edit) {
            Some(fault) => return Err((fault, tables)),
            None => {}
        }
        match self.prepare(edit, tables) {
            Ok(prepared) => {
                self.take_up(prepared);
                Ok(())
            }
            Err((_, tables)) => Err((ApplyError::OutOfMemory, tables)),
        }
    }

    /// The entry of the key with the greatest sequence at most `at`. Allocates nothing.
    pub fn get_at(&self, key: &[u8], at: Seq) -> Option<EntryRef<'_>>
        ensures first { option_map lent_entry result ≡ first_visible (tables_of self.now.places) key.now at }
        ensures found { AreOrdered (tables_of self.now.places) → option_map lent_entry result ≡ visible (all_entries (tables_of self.now.places)) key.now at }
    {
        first_in(self.places(), key, at)
    }

    /// The same at the version's flushed sequence, above which it has no entry.
    pub fn get(&self, key: &[u8]) -> Option<EntryRef<'_>>
        ensures first { option_map lent_entry result ≡ first_visible (tables_of self.now.places) key.now self.now.version.flushed }
        ensures found { AreOrdered (tables_of self.now.places) → option_map lent_entry result ≡ visible (all_entries (tables_of self.now.places)) key.now self.now.version.flushed }
    {
        self.get_at(key, self.current.flushed())
    }

    /// The value that a key has in the version: the newest put no later than its flushed sequence, unless a delete is
    /// newer. Allocates nothing.
    pub fn read(&self, key: &[u8]) -> Option<&[u8]>
        ensures first { option_copied result ≡ value_in self.now key.now }
        ensures found { AreOrdered (tables_of self.now.places) → option_copied result ≡ value_at (all_entries (tables_of self.now.places)) key.now self.now.version.flushed }
    {
        let Some(entry) = self.get(key) else {
            return None;
        };
        match entry.kind {
            Kind::Put => Some(entry.value),
            Kind::Delete => None,
        }
    }

    /// The files of a level from the first whose largest key is at or after `key`, in the order of their keys, and after
    /// them those of deeper levels. O(log n) comparisons, no allocation.
    pub fn level_from(&self, level: u8, key: &[u8]) -> &[Placed]
        requires { 1 ≤ level }
        ensures from { result.now ≡ filter (λ p. not (comes_left level key.now p)) self.now.places }
        ensures sound { IsServed self.now }
    {
        let places = self.places();
        let start = place_in(places, level, key);
        &places[start..]
    }

    /// The table of a file.
    pub fn table(&self, number: u64) -> Option<&Table>
        ensures { option_copied result ≡ table_at self.now.places number }
    {
        for placed in &self.placed {
            if placed.meta.number == number {
                return Some(&placed.table);
            }
        }
        None
    }
}

// The same files with the same tables, which share their bytes and entries.
fn copies_of_places(alloc: Global, places: &[Placed]) -> Result<Vec<Placed>, AllocError>
    ensures { IfOk result (λ copies. copies.items ≡ places.now) }
{
    let mut copies = Vec::with_capacity(alloc, places.len())?;
    for placed in places {
        let copy = placed.copy()?;
        copies.push(copy)?;
    }
    Ok(copies)
}

// The files with their tables, in search order.
fn places_of(
    alloc: Global,
    files: &[FileMeta],
    tables: Vec<Table>,
) -> Result<Vec<Placed>, AllocError>
    requires recorded { AreAsRecorded files.now tables.items }
    requires ordered { AreInSearchOrder (in_order (placed_of files.now tables.items)) }
    ensures { IfOk result (λ places. places.items ≡ in_order (placed_of files.now tables.items)) }
{
    let copies = copies_of(alloc, files)?;
    let mut places = Vec::with_capacity(alloc, tables.len())?;
    put_each(&mut places, copies, tables);
    Ok(places)
}

// Inserts files with their tables among others, which have room for them, in search order.
fn put_each(places: &mut Vec<Placed>, files: Vec<FileMeta>, tables: Vec<Table>)
    requires room { length places.old.items + length tables.items ≤ vec_capacity places.old }
    requires recorded { AreAsRecorded files.items tables.items }
    requires ordered { AreInSearchOrder (put_all (placed_of files.items tables.items) places.old.items) }
    ensures { places.new.items ≡ put_all (placed_of files.items tables.items) places.old.items }
{
    let (mut files, mut tables) = (files, tables);
    while let Some(table) = tables.pop() {
        let Some(meta) = files.pop() else {
            unreachable!()
        };
        put_in(places, Placed { meta, table });
    }
}

// Inserts a file before the first one that it is searched before. There is room.
fn put_in(places: &mut Vec<Placed>, placed: Placed)
    requires room { length places.old.items < vec_capacity places.old }
    requires ordered { AreInSearchOrder (put_in_order placed places.old.items) }
    ensures items { places.new.items ≡ put_in_order placed places.old.items }
    ensures room { vec_capacity places.old ≤ vec_capacity places.new }
{
    let spot = spot_of(places.as_slice(), &placed);
    places.insert(spot, placed).unwrap();
}

// The index of the first file that the file is searched before.
fn spot_of(places: &[Placed], placed: &Placed) -> usize
    requires { AreInSearchOrder (put_in_order placed.now places.now) }
    ensures within { result ≤ length places.now }
    ensures spot { put_in_order placed.now places.now ≡ take result places.now ++ placed.now ∷ drop result places.now }
{
    places.partition_point(|other| !goes_first(&placed.meta, &other.meta))
}

// Whether the one file is searched before the other.
fn goes_first(file: &FileMeta, other: &FileMeta) -> bool
    ensures { result ≡ is_before file.now other.now }
{
    if file.level != other.level {
        return file.level < other.level;
    }
    if file.level == 0 {
        other.number < file.number
    } else {
        other.smallest.cmp(&file.largest).is_gt()
    }
}

// The index of the first file at or after the key in a level, or after the level.
fn place_in(places: &[Placed], level: u8, key: &[u8]) -> usize
    requires recorded { AllRecorded places.now }
    requires ordered { AreInSearchOrder places.now }
    requires deeper { 1 ≤ level }
    ensures within { result ≤ length places.now }
    ensures point { IsPartitionPoint (λ p. comes_left level key.now p ≡ true) (λ p. comes_left level key.now p ≡ false) places.now result }
{
    places.partition_point(|placed| stands_left(placed, level, key))
}

// Whether the file is of an upper level, or of this one with all its keys below the key.
fn stands_left(placed: &Placed, level: u8, key: &[u8]) -> bool
    ensures { result ≡ comes_left level key.now placed.now }
{
    if placed.meta.level != level {
        return placed.meta.level < level;
    }
    key.cmp(placed.meta.largest.as_slice()).is_gt()
}
