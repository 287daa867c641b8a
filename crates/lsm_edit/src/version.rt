//! Versions: the files that a store has after each edit.

ghost use Rattle.std.specs.Prelude.{◌≡◌, ◌≤◌, ◌&&◌, ◌||◌, ◌++◌, ◌↔◌, false, not, None, OnOk, OnErr, IfOk, IfErr, IsTrue, nat_lt, nat_le};
ghost use Rattle.std.specs.List.{list_any};
ghost use Rattle.std.specs.List.Sorted.{IsNonDecreasing};
ghost use Rattle.lsm_key.specs.Faults.{Refuses};
ghost use Rattle.lsm_edit.specs.Edit.{IsEdit};
ghost use Rattle.lsm_edit.specs.Version.{clashes, goes_back, has_number, has_overlap, is_low, miscounts, files_without, is_listed};

use crate::file::same_files;
use crate::numbers::{has_file, is_among, is_listed, lacks};
use crate::{Edit, EditKind, FileMeta};
use lsm_key::{MAX_NUMBER, Seq};
use std::alloc::{AllocError, AllocFailed, Global};
use std::marker::Model;
use thiserror::Error;

/// Why an edit does not apply to a version: the first reason that holds.
#[derive(Clone, Copy, Debug, PartialEq, Eq, Error)]
pub enum ApplyError {
    #[error("the edit is not for the next version")]
    WrongNumber,
    #[error("a removed file is not in the version")]
    NoSuchFile,
    #[error("an added file reuses a file number")]
    FileExists,
    #[error("two files of one level below level 0 overlap")]
    Overlap,
    #[error("the flushed sequence goes back, or moves without a flush")]
    FlushedBack,
    #[error("the next file number or the epoch is wrong")]
    BadCounter,
    #[error("out of memory")]
    OutOfMemory,
}

impl From<AllocError> for ApplyError {
    ghost use Rattle.std.specs.Prelude.{◌≡◌};
    ghost use Rattle.lsm_edit.specs.declared.version.ApplyError.TheVariants.{OutOfMemory};

    ghost from_gives = { λ _ e. e ≡ OutOfMemory };

    fn from(_e: AllocError) -> ApplyError {
        ApplyError::OutOfMemory
    }
}

impl<T: Drop> From<AllocFailed<T>> for ApplyError {
    ghost use Rattle.std.specs.Prelude.{◌≡◌};
    ghost use Rattle.lsm_edit.specs.declared.version.ApplyError.TheVariants.{OutOfMemory};

    ghost from_gives = { λ _ e. e ≡ OutOfMemory };

    fn from(_e: AllocFailed<T>) -> ApplyError {
        ApplyError::OutOfMemory
    }
}

/// The files of a store at one point of its history: the result of applying its edits up to a number.
///
/// Invariant: each file's record is sound, file numbers rise and are below `next_file`, no two files of one level from 1 up overlap, and
/// no number is above `MAX_NUMBER`.
#[derive(Debug, Drop)]
pub struct Version {
    alloc: Global,
    number: u64,
    flushed: Seq,
    epoch: u64,
    next_file: u64,
    listed: Vec<FileMeta>,
}

impl Model for Version {
    ghost use Rattle.lsm_edit.specs.Version.{VersionValue, IsVersion};

    ghost Value = { VersionValue };

    ghost view = { λ v. record { number = v.number; flushed = v.flushed; epoch = v.epoch; next_file = v.next_file; files = v.listed.items } };

    ghost invariant = { λ v. IsVersion (record { number = v.number; flushed = v.flushed; epoch = v.epoch; next_file = v.next_file; files = v.listed.items }) };
}

impl Version {
    ghost use Rattle.lsm_edit.specs.Version.{IsVersion, first_version, after_apply, apply_fault};

    /// Version 0: before the first edit.
    pub fn new(alloc: Global) -> Version
        ensures { result ≡ first_version }
    {
        Version {
            alloc,
            number: 0,
            flushed: Seq::ZERO,
            epoch: 0,
            next_file: 1,
            listed: Vec::new(alloc),
        }
    }

    // The version of these parts.
    pub(crate) fn from_parts(
        alloc: Global,
        number: u64,
        flushed: Seq,
        epoch: u64,
        next_file: u64,
        listed: Vec<FileMeta>,
    ) -> Version
        requires { IsVersion (record { number = number; flushed = flushed; epoch = epoch; next_file = next_file; files = listed.items }) }
        ensures { result ≡ record { number = number; flushed = flushed; epoch = epoch; next_file = next_file; files = listed.items } }
    {
        Version {
            alloc,
            number,
            flushed,
            epoch,
            next_file,
            listed,
        }
    }

    /// Its number, at most `MAX_NUMBER`.
    pub fn number(&self) -> u64
        ensures value { result ≡ self.now.number }
        ensures bound { result ≤ MAX_NUMBER }
        ensures sound { IsVersion self.now }
    {
        self.number
    }

    /// Every write up to this sequence is in its files.
    pub fn flushed(&self) -> Seq
        ensures { result ≡ self.now.flushed }
    {
        self.flushed
    }

    /// The epoch: how often the store had been opened.
    pub fn epoch(&self) -> u64
        ensures value { result ≡ self.now.epoch }
        ensures bound { result ≤ MAX_NUMBER }
    {
        self.epoch
    }

    /// The number of the next file.
    pub fn next_file(&self) -> u64
        ensures value { result ≡ self.now.next_file }
        ensures bound { (1 ≤ result) × (result ≤ MAX_NUMBER) }
        ensures sound { IsVersion self.now }
    {
        self.next_file
    }

    /// Its files, by number.
    pub fn files(&self) -> &[FileMeta]
        ensures all { result.now ≡ self.now.files }
        ensures sound { IsVersion self.now }
    {
        self.listed.as_slice()
    }

    /// Whether one of its files has this number. O(log n).
    pub fn has_file(&self, number: u64) -> bool
        ensures { result ≡ list_any (has_number number) self.now.files }
    {
        has_file(self.files(), number)
    }

    /// Whether it lists the file, by its whole record. O(log n).
    pub fn lists(&self, file: &FileMeta) -> bool
        ensures { result ≡ is_listed self.now.files file.now }
    {
        is_listed(self.files(), file)
    }

    /// Becomes the next version by an edit. A refusal changes nothing.
    pub fn apply(&mut self, edit: &Edit) -> Result<(), ApplyError>
        requires { IsEdit edit.now }
        ensures ok { OnOk result ((apply_fault self.old edit.now ≡ None) × (self.new ≡ after_apply self.old edit.now)) }
        ensures err { OnErr result (self.new ≡ self.old) }
        ensures refused { IfErr result (Refuses ApplyError.OutOfMemory (apply_fault self.old edit.now)) }
    {
        match self.fault_of(edit) {
            Some(fault) => return Err(fault),
            None => {}
        }
        self.apply_valid(edit)?;
        Ok(())
    }

    /// Becomes the next version by an edit that is known to apply. If memory runs out, nothing changes.
    pub fn apply_valid(&mut self, edit: &Edit) -> Result<(), AllocError>
        requires sound { IsEdit edit.now }
        requires applies { apply_fault self.old edit.now ≡ None }
        ensures ok { OnOk result (self.new ≡ after_apply self.old edit.now) }
        ensures err { OnErr result (self.new ≡ self.old) }
    {
        let removed = removed_by(edit);
        let mut added = copies_of(self.alloc, edit.added.as_slice())?;
        self.listed.reserve(added.len())?;
        self.listed.retain(|file| !is_among(removed, file.number));
        self.listed.append(&mut added).unwrap();
        self.number = edit.number;
        self.flushed = edit.flushed;
        self.epoch = edit.epoch;
        self.next_file = edit.next_file;
        Ok(())
    }

    /// The same version. Its keys share the bytes.
    pub fn copy(&self, alloc: Global) -> Result<Version, AllocError>
        ensures { IfOk result (λ version. version ≡ self.now) }
    {
        let listed = copies_of(alloc, self.files())?;
        Ok(Version {
            alloc,
            number: self.number,
            flushed: self.flushed,
            epoch: self.epoch,
            next_file: self.next_file,
            listed,
        })
    }

    /// Whether two versions are the same.
    pub fn same(&self, other: &Version) -> bool
        ensures { IsTrue result ↔ self.now ≡ other.now }
    {
        self.number == other.number
            && self.flushed == other.flushed
            && self.epoch == other.epoch
            && self.next_file == other.next_file
            && same_files(self.files(), other.files())
    }

    // Its allocator.
    pub(crate) fn alloc(&self) -> Global
        ensures sound { IsVersion self.now }
    {
        self.alloc
    }

    /// Why the edit does not apply, if it does not. Allocates nothing.
    pub fn fault_of(&self, edit: &Edit) -> Option<ApplyError>
        requires { IsEdit edit.now }
        ensures fault { result ≡ apply_fault self.now edit.now }
        ensures sound { IsVersion self.now }
    {
        let (removed, added) = (removed_by(edit), edit.added.as_slice());
        if edit.number != self.number + 1 {
            return Some(ApplyError::WrongNumber);
        }
        if lacks(&self.listed, removed) {
            return Some(ApplyError::NoSuchFile);
        }
        if has_below(added, self.next_file) {
            return Some(ApplyError::FileExists);
        }
        if overlaps_after(&self.listed, removed, added) {
            return Some(ApplyError::Overlap);
        }
        if is_back(edit.kind, self.flushed, edit.flushed) {
            return Some(ApplyError::FlushedBack);
        }
        if self.miscounts(edit) {
            return Some(ApplyError::BadCounter);
        }
        None
    }

    // Whether the next file number or the epoch is wrong.
    fn miscounts(&self, edit: &Edit) -> bool
        ensures { result ≡ (is_low self.now edit.now || miscounts edit.now.kind self.now.epoch edit.now.epoch) }
    {
        edit.next_file < self.next_file
            || reaches(edit.added.as_slice(), edit.next_file)
            || is_miscounted(edit.kind, self.epoch, edit.epoch)
    }
}

/// The numbers of the files that an edit removes, which ascend.
pub fn removed_by(edit: &Edit) -> &[u64]
    requires { IsEdit edit.now }
    ensures all { result.now ≡ edit.now.removed }
    ensures ascending { IsNonDecreasing result.now }
{
    edit.removed.as_slice()
}

// Whether two of the files overlap, once these are removed and added.
fn overlaps_after(files: &[FileMeta], removed: &[u64], added: &[FileMeta]) -> bool
    requires disjoint { has_overlap files.now ≡ false }
    requires ascending { IsNonDecreasing removed.now }
    ensures { result ≡ has_overlap (files_without removed.now files.now ++ added.now) }
{
    meets_kept(files, removed, added) || overlaps(added)
}

// Whether a remaining file overlaps an added one.
fn meets_kept(files: &[FileMeta], removed: &[u64], added: &[FileMeta]) -> bool
    requires { IsNonDecreasing removed.now }
    ensures { result ≡ list_any (λ f. not (list_any (λ n. has_number n f) removed.now) && list_any (clashes f) added.now) files.now }
{
    files.iter().any(|file| !is_among(removed, file.number) && has_clash(file, added))
}

// Whether two of the files overlap.
fn overlaps(files: &[FileMeta]) -> bool
    ensures { result ≡ has_overlap files.now }
{
    let mut rest = files;
    while let Some((file, others)) = rest.split_first() {
        if has_clash(file, others) {
            return true;
        }
        rest = others;
    }
    false
}

// Whether the file overlaps one of the others.
fn has_clash(file: &FileMeta, others: &[FileMeta]) -> bool
    ensures { result ≡ list_any (clashes file.now) others.now }
{
    others.iter().any(|other| clash(file, other))
}

// Whether two files of one level from 1 up have a key in common, by their ranges.
fn clash(file: &FileMeta, other: &FileMeta) -> bool
    ensures { result ≡ clashes file.now other.now }
{
    file.level == other.level && file.level > 0 && file.range().overlaps(other.range())
}

// Whether a file reuses a number.
fn has_below(files: &[FileMeta], next_file: u64) -> bool
    ensures { result ≡ list_any (λ f. nat_lt f.number next_file) files.now }
{
    files.iter().any(|f| f.number < next_file)
}

// Whether a file has the next number, or a later one.
fn reaches(files: &[FileMeta], next_file: u64) -> bool
    ensures { result ≡ list_any (λ f. nat_le next_file f.number) files.now }
{
    files.iter().any(|f| next_file <= f.number)
}

fn is_back(kind: EditKind, old: Seq, new: Seq) -> bool
    ensures { result ≡ goes_back kind old new }
{
    match kind {
        EditKind::Flush => new.number() <= old.number(),
        EditKind::Install | EditKind::Epoch => new.number() != old.number(),
    }
}

fn is_miscounted(kind: EditKind, old: u64, new: u64) -> bool
    requires { old ≤ MAX_NUMBER }
    ensures { result ≡ miscounts kind old new }
{
    match kind {
        EditKind::Flush | EditKind::Install => new != old,
        EditKind::Epoch => new != old + 1,
    }
}

// Copies of the files. Their keys share the bytes.
pub(crate) fn copies_of(alloc: Global, files: &[FileMeta]) -> Result<Vec<FileMeta>, AllocError>
    ensures { IfOk result (λ copies. copies.items ≡ files.now) }
{
    let mut copies = Vec::with_capacity(alloc, files.len())?;
    for file in files {
        let copy = file.clone()?;
        copies.push(copy)?;
    }
    Ok(copies)
}
