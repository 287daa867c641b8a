//! Edits: what one version adds to the one before it.
//!
//! An edit, its numbers big-endian:
//!
//!     8 bytes   number of the version that it makes
//!     1 byte    kind, 1 for a flush, 2 for an install, 3 for an epoch
//!     8 bytes   flushed sequence
//!     8 bytes   epoch
//!     8 bytes   next file number
//!     4 bytes   count of removed files
//!     8 bytes     number of each, ascending
//!     4 bytes   count of added files
//!                 file record of each, by number

ghost use Rattle.std.specs.Prelude.{◌≡◌, ◌≤◌, ◌<◌, ◌^◌, ◌++◌, ◌↔◌, ◌-◌, length, All, IfOk, IsTrue, OnOk, Ok};
ghost use Rattle.lsm_edit.specs.File.{IsFile, size};
ghost use Rattle.lsm_key.specs.Reading.{Gives};
ghost use Rattle.lsm_edit.specs.declared.edit.Edit.{Edit};
ghost use Rattle.lsm_edit.specs.Edit.{IsEdit, IsSpelledEdit, edit, head, read_edit, edit_at, edit_kind_at, edit_kind_code, shape, removed_bytes, added_bytes, removed_at, added_at, numbers_at, files_at};

use crate::file::{FileBounds, files_bytes, read_file, same_files, write_file};
use crate::{FileMeta, FormatError, FormatFault};
use bytes::{BufMut, Bytes, BytesMut};
use lsm_key::{
    Items, MAX_KEY_BYTES, MAX_LEVEL, MAX_NUMBER, Refused, Seq, know_bytes, read_ranged_u32,
    read_ranged_u64, read_u8, read_u32,
};
use std::alloc::{AllocError, Global};

/// Why a version follows another.
#[derive(Clone, Copy, Debug, PartialEq, Eq)]
pub enum EditKind {
    /// A memtable became a table of level 0.
    Flush,
    /// Files were merged into others of a deeper level.
    Install,
    /// A coordinator opened the store.
    Epoch,
}

/// What a version adds to the one before it (LevelDB, version edits).
#[derive(Debug, Drop)]
pub struct Edit {
    /// The number of the version that it makes.
    pub number: u64,
    pub kind: EditKind,
    /// The version's flushed sequence: every write up to it is in the version's tables.
    pub flushed: Seq,
    pub epoch: u64,
    /// The number of the next file: every file's number is below it.
    pub next_file: u64,
    /// The numbers of the removed files, ascending.
    pub removed: Items<u64>,
    /// The added files, by number.
    pub added: Items<FileMeta>,
}

impl Edit {
    ghost use Rattle.std.specs.Prelude.{◌≡◌, ◌↔◌, IfOk, IsTrue};

    /// The same edit. Its keys share the bytes.
    pub fn copy(&self, alloc: Global) -> Result<Edit, AllocError>
        ensures { IfOk result (λ edit. edit ≡ self.now) }
    {
        let removed = self.removed.as_slice().to_vec(alloc)?;
        let added = self.added.as_slice().to_vec(alloc)?;
        Ok(Edit {
            number: self.number,
            kind: self.kind,
            flushed: self.flushed,
            epoch: self.epoch,
            next_file: self.next_file,
            removed: Items::from_vec(removed),
            added: Items::from_vec(added),
        })
    }

    /// Whether two edits are the same.
    pub fn same(&self, other: &Edit) -> bool
        ensures { IsTrue result ↔ self.now ≡ other.now }
    {
        self.number == other.number
            && self.kind == other.kind
            && self.flushed == other.flushed
            && self.epoch == other.epoch
            && self.next_file == other.next_file
            && same_numbers(self.removed.as_slice(), other.removed.as_slice())
            && same_files(self.added.as_slice(), other.added.as_slice())
    }
}

/// How many files an edit may remove and add, and between which levels the added ones may be.
#[derive(Clone, Copy)]
pub(crate) struct Shape {
    pub(crate) least_removed: u32,
    pub(crate) most_removed: u32,
    pub(crate) least_added: u32,
    pub(crate) most_added: u32,
    pub(crate) lowest: u8,
    pub(crate) deepest: u8,
}

impl EditKind {
    /// Its code in an edit.
    fn code(self) -> u8
        ensures { result ≡ edit_kind_code self }
    {
        match self {
            EditKind::Flush => 1,
            EditKind::Install => 2,
            EditKind::Epoch => 3,
        }
    }

    /// What such an edit may say.
    pub(crate) fn shape(self) -> Shape
        ensures { result ≡ shape self }
    {
        let plain = Shape {
            least_removed: 0,
            most_removed: 0,
            least_added: 0,
            most_added: 0,
            lowest: 0,
            deepest: 0,
        };
        match self {
            EditKind::Flush => Shape {
                least_added: 1,
                most_added: 1,
                ..plain
            },
            EditKind::Install => Shape {
                least_removed: 1,
                most_removed: u32::MAX,
                least_added: 0,
                most_added: u32::MAX,
                lowest: 1,
                deepest: MAX_LEVEL,
            },
            EditKind::Epoch => plain,
        }
    }
}

/// Whether two lists have the same numbers in the same order.
pub fn same_numbers(numbers: &[u64], others: &[u64]) -> bool
    ensures { IsTrue result ↔ numbers.now ≡ others.now }
{
    numbers == others
}

fn read_kind<F: Copy>(rest: &mut Bytes, short: F, bad: F) -> Result<EditKind, Refused<F>>
    ensures { Gives (λ k. (k, rest.new)) result (edit_kind_at short bad rest.old) }
{
    match read_u8(rest, short)? {
        1 => Ok(EditKind::Flush),
        2 => Ok(EditKind::Install),
        3 => Ok(EditKind::Epoch),
        _ => Err(Refused::Fault(bad)),
    }
}

// `count` ascending numbers from the front, the first at least `least` and none above `most`, which is below
// `u64::MAX`.
fn read_numbers<F: Copy>(
    alloc: Global,
    count: u32,
    least: u64,
    most: u64,
    rest: &mut Bytes,
    short: F,
    bad: F,
) -> Result<Items<u64>, Refused<F>>
    requires { most < 2 ^ 64 - 1 }
    ensures { Gives (λ numbers. (numbers, rest.new)) result (numbers_at short bad most count least rest.old) }
{
    let mut numbers = Items::new(alloc);
    let mut least = least;
    for _place in 0..count {
        let number = read_ranged_u64(rest, least, most, short, bad)?;
        numbers.push(number)?;
        least = number + 1;
    }
    Ok(numbers)
}

// The files that an edit of the kind removes.
#[tactic(auto, unfolding(crate::specs::Edit::removed_at))]
fn read_removed<F: Copy>(
    alloc: Global,
    kind: EditKind,
    rest: &mut Bytes,
    short: F,
    bad: F,
) -> Result<Items<u64>, Refused<F>>
    ensures { Gives (λ numbers. (numbers, rest.new)) result (removed_at short bad kind rest.old) }
{
    let shape = kind.shape();
    let count = read_ranged_u32(rest, shape.least_removed, shape.most_removed, short, bad)?;
    read_numbers(alloc, count, 1, MAX_NUMBER, rest, short, bad)
}

// `count` files of one level within bounds, with ascending numbers and keys of at most `max_key` bytes.
fn read_files<F: Copy>(
    alloc: Global,
    count: u32,
    within: FileBounds,
    rest: &mut Bytes,
    max_key: usize,
    short: F,
    bad: F,
) -> Result<Items<FileMeta>, Refused<F>>
    requires { within.most < 2 ^ 64 - 1 }
    ensures { Gives (λ files. (files, rest.new)) result (files_at max_key short bad count within rest.old) }
{
    let mut files = Items::new(alloc);
    let mut within = within;
    for _place in 0..count {
        let file = read_file(alloc, rest, max_key, within, short, bad)?;
        within = FileBounds {
            least: file.number + 1,
            most: within.most,
            lowest: file.level,
            deepest: file.level,
        };
        files.push(file)?;
    }
    Ok(files)
}

// The files that an edit of the kind adds.
#[tactic(auto, unfolding(crate::specs::Edit::added_at))]
fn read_added<F: Copy>(
    alloc: Global,
    kind: EditKind,
    rest: &mut Bytes,
    max_key: usize,
    short: F,
    bad: F,
) -> Result<Items<FileMeta>, Refused<F>>
    ensures { Gives (λ files. (files, rest.new)) result (added_at max_key short bad kind rest.old) }
{
    let shape = kind.shape();
    let count = read_ranged_u32(rest, shape.least_added, shape.most_added, short, bad)?;
    let within = FileBounds {
        least: 1,
        most: MAX_NUMBER,
        lowest: shape.lowest,
        deepest: shape.deepest,
    };
    read_files(alloc, count, within, rest, max_key, short, bad)
}

/// An edit from the front, with keys of at most `max_key` bytes. The fault is `short` if the bytes end inside a field,
/// and `bad` if a field breaks its rule.
#[tactic(auto, unfolding(crate::specs::Edit::edit_at))]
pub fn read_edit<F: Copy>(
    alloc: Global,
    rest: &mut Bytes,
    max_key: usize,
    short: F,
    bad: F,
) -> Result<Edit, Refused<F>>
    ensures { Gives (λ e. (e, rest.new)) result (edit_at max_key short bad rest.old) }
{
    let number = read_ranged_u64(rest, 1, MAX_NUMBER, short, bad)?;
    let kind = read_kind(rest, short, bad)?;
    let flushed = read_ranged_u64(rest, 0, Seq::MAX, short, bad)?;
    let epoch = read_ranged_u64(rest, 1, MAX_NUMBER, short, bad)?;
    let next_file = read_ranged_u64(rest, 1, MAX_NUMBER, short, bad)?;
    let removed = read_removed(alloc, kind, rest, short, bad)?;
    let added = read_added(alloc, kind, rest, max_key, short, bad)?;
    Ok(Edit {
        number,
        kind,
        flushed: Seq::new(flushed),
        epoch,
        next_file,
        removed,
        added,
    })
}

/// The edit that the bytes encode, all of the bytes, or the first fault.
pub fn decode_edit(alloc: Global, bytes: Bytes) -> Result<Edit, FormatError>
    // What is decoded encodes to these bytes.
    ensures found { IfOk result (λ e. IsSpelledEdit bytes e) }
    // What encodes to these bytes is decoded, unless memory runs out.
    ensures only { (e : Edit) → IsSpelledEdit bytes e → Gives (λ x. x) result (Ok e) }
    // The fault is the first one.
    ensures exact { Gives (λ x. x) result (read_edit bytes) }
{
    know_bytes(&bytes);
    read_whole(alloc, bytes)
}

// The edit that the bytes encode, with no byte left.
#[tactic(auto, unfolding(crate::specs::Edit::read_edit))]
fn read_whole(alloc: Global, bytes: Bytes) -> Result<Edit, FormatError>
    ensures { Gives (λ x. x) result (read_edit bytes) }
{
    let mut rest = bytes;
    let edit = read_edit(
        alloc,
        &mut rest,
        MAX_KEY_BYTES,
        FormatFault::Truncated,
        FormatFault::BadField,
    )?;
    if !rest.is_empty() {
        return Err(Refused::Fault(FormatFault::TrailingBytes));
    }
    Ok(edit)
}

// The size of an edit without its files: four numbers of eight bytes, the kind, and two counts.
const HEAD_BYTES: usize = 41;

// Appends what comes before the added files.
fn write_head(out: &mut BytesMut, e: &Edit) -> Result<(), AllocError>
    requires { IsEdit e.now }
    ensures { OnOk result (out.new.items ≡ out.old.items ++ head e.now) }
{
    out.put_u64(e.number)?;
    out.put_u8(e.kind.code())?;
    out.put_u64(e.flushed.number())?;
    out.put_u64(e.epoch)?;
    out.put_u64(e.next_file)?;
    write_numbers(out, e.removed.as_slice())?;
    Ok(())
}

// Appends a count of numbers, and each number.
fn write_numbers(out: &mut BytesMut, numbers: &[u64]) -> Result<(), AllocError>
    requires { length numbers.now < 2 ^ 32 }
    ensures { OnOk result (out.new.items ≡ out.old.items ++ removed_bytes numbers.now) }
{
    out.put_u32(numbers.len() as u32)?;
    for number in numbers {
        out.put_u64(*number)?;
    }
    Ok(())
}

/// Appends a count of files, and the record of each.
pub(crate) fn write_files(out: &mut BytesMut, files: &[FileMeta]) -> Result<(), AllocError>
    requires sound { All IsFile files.now }
    requires few { length files.now < 2 ^ 32 }
    ensures { OnOk result (out.new.items ≡ out.old.items ++ added_bytes files.now) }
{
    out.put_u32(files.len() as u32)?;
    for file in files {
        write_file(out, file)?;
    }
    Ok(())
}

/// Appends the edit.
pub fn write_edit(out: &mut BytesMut, e: &Edit) -> Result<(), AllocError>
    requires { IsEdit e.now }
    ensures { OnOk result (out.new.items ≡ out.old.items ++ edit e.now) }
{
    write_head(out, e)?;
    write_files(out, e.added.as_slice())?;
    Ok(())
}

/// How many bytes the edit has, at most `usize::MAX`.
pub fn edit_bytes(e: &Edit) -> usize
    requires { IsEdit e.now }
    ensures { result ≡ size (edit e.now) }
{
    let removed = 8 * e.removed.as_slice().len();
    files_bytes(e.added.as_slice()).saturating_add(HEAD_BYTES + removed)
}

/// The one encoding of the edit.
pub fn encode_edit(alloc: Global, e: &Edit) -> Result<Bytes, AllocError>
    requires { IsEdit e.now }
    ensures { IfOk result (λ b. b ≡ edit e.now) }
{
    let mut out = BytesMut::with_capacity(alloc, edit_bytes(e))?;
    write_edit(&mut out, e)?;
    Ok(out.freeze()?)
}
