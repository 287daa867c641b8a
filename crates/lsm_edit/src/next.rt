//! The edits that follow a version: of a flush, of an opening and of an install, each made so that it applies.

ghost use Rattle.std.specs.Prelude.{◌≡◌, ℕ, ◌+◌, ◌<◌, ◌≤◌, ◌++◌, true, false, IfOk, None};
ghost use Rattle.std.specs.List.{list_any};
ghost use Rattle.lsm_key.specs.Sets.{IsIn};
ghost use Rattle.lsm_edit.specs.declared.file.FileMeta.{FileMeta};
ghost use Rattle.lsm_edit.specs.declared.edit.EditKind.TheVariants.{Install};
ghost use Rattle.lsm_edit.specs.File.{IsFile};
ghost use Rattle.lsm_edit.specs.Edit.{IsEdit, AreRemoved, AreAdded};
ghost use Rattle.lsm_edit.specs.Version.{apply_fault, has_number, has_overlap, files_without};
ghost use Rattle.lsm_edit.specs.Next.{flush_edit, epoch_edit, install_edit, number_after};
ghost use Rattle.lsm_edit.specs.Served.{IsAsRecorded};
ghost use Rattle.lsm_table.specs.Tables.{IsTable};

use crate::{Edit, EditKind, FileMeta, Version};
use lsm_key::{Items, KeyRangeRef, MAX_LEVEL, MAX_NUMBER, Seq};
use lsm_table::Table;
use std::alloc::{AllocError, Global};

impl FileMeta {
    /// The record of a table, for a level and a number. Shares the table's keys.
    pub fn of_table(number: u64, level: u8, table: &Table) -> Result<FileMeta, AllocError>
        requires some { 1 ≤ number }
        requires most { number ≤ MAX_NUMBER }
        requires level { level ≤ MAX_LEVEL }
        ensures place { IfOk result (λ f. (f.number ≡ number) × (f.level ≡ level)) }
        ensures sound { IfOk result IsFile }
        ensures recorded { IfOk result (λ f. IsAsRecorded f table.now) }
    {
        know_table(table);
        let smallest = table.smallest().clone()?;
        let largest = table.largest().clone()?;
        Ok(FileMeta {
            number,
            level,
            smallest,
            largest,
            bytes: table.bytes().len() as u32,
            entries: table.count() as u32,
        })
    }

    /// The keys of its table: from the least to the greatest.
    pub fn range(&self) -> KeyRangeRef<'_>
        ensures lo { result.lo.now ≡ self.now.smallest }
        ensures hi { result.hi.now ≡ self.now.largest }
    {
        KeyRangeRef {
            lo: self.smallest.as_slice(),
            hi: self.largest.as_slice(),
        }
    }
}

impl Edit {
    /// The edit that adds a file with the writes up to a sequence, under the version's next file number.
    pub fn flush(
        alloc: Global,
        version: &Version,
        flushed: Seq,
        file: FileMeta,
    ) -> Result<Edit, AllocError>
        requires number { version.now.number + 1 ≤ MAX_NUMBER }
        requires next_file { version.now.next_file + 1 ≤ MAX_NUMBER }
        requires epoch { 1 ≤ version.now.epoch }
        requires newer { version.now.flushed < flushed }
        requires sound { IsFile file }
        requires place { (file.number ≡ version.now.next_file) × (file.level ≡ 0) }
        ensures edit { IfOk result (λ e. e ≡ flush_edit version.now flushed file) }
        ensures sound { IfOk result IsEdit }
        ensures applies { IfOk result (λ e. apply_fault version.now e ≡ None) }
    {
        let number = version.number() + 1;
        let next_file = version.next_file() + 1;
        // Proof hint: the sequence fits.
        let _written = flushed.number();
        let mut added = Items::new(alloc);
        added.push(file)?;
        Ok(Edit {
            number,
            kind: EditKind::Flush,
            flushed,
            epoch: version.epoch(),
            next_file,
            removed: Items::new(alloc),
            added,
        })
    }

    /// The edit that replaces files by the outputs of a merge: at least one is removed, and the added ones are of one
    /// level from 1 to 6, with new numbers in ascending order. The next file number is the one after the last of them,
    /// or stays the same if none is added.
    pub fn install(version: &Version, removed: Items<u64>, added: Items<FileMeta>) -> Edit
        requires number { version.now.number + 1 ≤ MAX_NUMBER }
        requires epoch { 1 ≤ version.now.epoch }
        requires removed { AreRemoved Install removed }
        requires present { (n : ℕ) → IsIn n removed → list_any (has_number n) version.now.files ≡ true }
        requires added { AreAdded Install added }
        requires fresh { (f : FileMeta) → IsIn f added → version.now.next_file ≤ f.number }
        requires room { number_after version.now.next_file added ≤ MAX_NUMBER }
        requires disjoint { has_overlap (files_without removed version.now.files ++ added) ≡ false }
        ensures edit { result ≡ install_edit version.now removed added }
        ensures sound { IsEdit result }
        ensures applies { apply_fault version.now result ≡ None }
    {
        let next_file = number_past(added.as_slice(), version.next_file());
        Edit {
            number: version.number() + 1,
            kind: EditKind::Install,
            flushed: version.flushed(),
            epoch: version.epoch(),
            next_file,
            removed,
            added,
        }
    }

    /// The edit that begins the next epoch.
    pub fn epoch(alloc: Global, version: &Version) -> Edit
        requires number { version.now.number + 1 ≤ MAX_NUMBER }
        requires epoch { version.now.epoch + 1 ≤ MAX_NUMBER }
        ensures edit { result ≡ epoch_edit version.now }
        ensures sound { IsEdit result }
        ensures applies { apply_fault version.now result ≡ None }
    {
        Edit {
            number: version.number() + 1,
            kind: EditKind::Epoch,
            flushed: version.flushed(),
            epoch: version.epoch() + 1,
            next_file: version.next_file(),
            removed: Items::new(alloc),
            added: Items::new(alloc),
        }
    }
}

// The number after those of files with ascending numbers, or the given one if there are none.
fn number_past(files: &[FileMeta], least: u64) -> u64
    requires { number_after least files.now ≤ MAX_NUMBER }
    ensures { result ≡ number_after least files.now }
{
    match files.last() {
        Some(file) => file.number + 1,
        None => least,
    }
}

// Proof hint: the table's invariant.
fn know_table(table: &Table)
    ensures { IsTable table.now.bytes table.now.entries }
{
    let _bytes = table.bytes();
}
