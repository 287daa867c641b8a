//! What file records and edits may say, as tests.

ghost use Rattle.std.specs.Prelude.{◌≡◌, ◌<◌, ◌≤◌, ◌↔◌, All, AllPairs, IsTrue};
ghost use Rattle.lsm_key.specs.Spelling.{IsKey};
ghost use Rattle.lsm_edit.specs.Edit.{AreAdded, AreRemoved, IsEdit};
ghost use Rattle.lsm_edit.specs.File.{AreKeys, IsFile};

use crate::edit::Shape;
use crate::{Edit, EditKind, FileMeta};
use bytes::Bytes;
use lsm_key::{MAX_KEY_BYTES, MAX_LEVEL, MAX_NUMBER, MAX_TABLE_BYTES};

impl FileMeta {
    ghost use Rattle.std.specs.Prelude.{◌↔◌, IsTrue};
    ghost use Rattle.lsm_edit.specs.File.{IsFile};

    /// Whether it is within its limits.
    pub fn is_valid(&self) -> bool
        ensures { IsTrue result ↔ IsFile self.now }
    {
        is_number(self.number)
            && self.level <= MAX_LEVEL
            && are_keys(&self.smallest, &self.largest)
            && self.bytes >= 1
            && self.bytes <= MAX_TABLE_BYTES as u32
            && self.entries >= 1
    }
}

impl Edit {
    ghost use Rattle.std.specs.Prelude.{◌<◌, ◌≤◌, ◌^◌, ◌↔◌, IsTrue};
    ghost use Rattle.lsm_edit.specs.Edit.{IsEdit};

    /// Whether it says only what an edit of its kind may say. Allocates nothing.
    pub fn is_valid(&self) -> bool
        ensures { IsTrue result ↔ IsEdit self.now }
    {
        if !self.has_valid_numbers() {
            return false;
        }
        if !are_removed(self.kind, self.removed.as_slice()) {
            return false;
        }
        are_added(self.kind, self.added.as_slice())
    }

    fn has_valid_numbers(&self) -> bool
        ensures numbers { IsTrue result ↔ ((1 ≤ self.now.number) × (self.now.number ≤ MAX_NUMBER)) × ((1 ≤ self.now.epoch) × (self.now.epoch ≤ MAX_NUMBER)) × ((1 ≤ self.now.next_file) × (self.now.next_file ≤ MAX_NUMBER)) }
        ensures flushed { self.now.flushed < 2 ^ 56 }
    {
        // Proof hint: the bound of a sequence.
        let _flushed = self.flushed.number();
        is_number(self.number) && is_number(self.epoch) && is_number(self.next_file)
    }
}

// Whether a version, a file or an epoch may have the number.
fn is_number(number: u64) -> bool
    ensures { IsTrue result ↔ (1 ≤ number) × (number ≤ MAX_NUMBER) }
{
    number >= 1 && number <= MAX_NUMBER
}

/// Whether these are two keys, the first not after the second.
pub fn are_keys(lo: &Bytes, hi: &Bytes) -> bool
    ensures { IsTrue result ↔ AreKeys lo.now hi.now }
{
    is_key(lo) && is_key(hi) && lo.cmp(hi).is_le()
}

fn is_key(key: &Bytes) -> bool
    ensures { IsTrue result ↔ IsKey MAX_KEY_BYTES key.now }
{
    !key.is_empty() && key.len() <= MAX_KEY_BYTES
}

// Whether an edit of the kind may remove these files.
fn are_removed(kind: EditKind, numbers: &[u64]) -> bool
    ensures { IsTrue result ↔ AreRemoved kind numbers.now }
{
    let shape = kind.shape();
    is_count(numbers.len(), shape.least_removed, shape.most_removed)
        && numbers.iter().all(|number| is_number(*number))
        && numbers_rise(numbers)
}

// Whether an edit of the kind may add these files.
fn are_added(kind: EditKind, files: &[FileMeta]) -> bool
    ensures { IsTrue result ↔ AreAdded kind files.now }
{
    let shape = kind.shape();
    is_count(files.len(), shape.least_added, shape.most_added)
        && are_valid(files)
        && are_between(shape.lowest, shape.deepest, files)
        && files_rise(files)
        && are_of_one_level(files)
}

fn are_valid(files: &[FileMeta]) -> bool
    ensures { IsTrue result ↔ All IsFile files.now }
{
    files.iter().all(|file| file.is_valid())
}

fn are_between(lowest: u8, deepest: u8, files: &[FileMeta]) -> bool
    ensures { IsTrue result ↔ All (λ f. (lowest ≤ f.level) × (f.level ≤ deepest)) files.now }
{
    files
        .iter()
        .all(|file| file.level >= lowest && file.level <= deepest)
}

fn is_count(count: usize, least: u32, most: u32) -> bool
    ensures { IsTrue result ↔ (least ≤ count) × (count ≤ most) }
{
    count >= least as usize && count <= most as usize
}

fn numbers_rise(numbers: &[u64]) -> bool
    ensures { IsTrue result ↔ AllPairs (λ m n. m < n) numbers.now }
{
    for i in 1..numbers.len() {
        if numbers[i] <= numbers[i - 1] {
            return false;
        }
    }
    true
}

/// Whether each file's number is below those of the files after it.
pub fn files_rise(files: &[FileMeta]) -> bool
    ensures { IsTrue result ↔ AllPairs (λ f g. f.number < g.number) files.now }
{
    for i in 1..files.len() {
        if files[i].number <= files[i - 1].number {
            return false;
        }
    }
    true
}

fn are_of_one_level(files: &[FileMeta]) -> bool
    ensures { IsTrue result ↔ AllPairs (λ f g. f.level ≡ g.level) files.now }
{
    for i in 1..files.len() {
        if files[i].level != files[i - 1].level {
            return false;
        }
    }
    true
}
