//! File records: what an edit and a base say of a table. Both spell it in the same way, so it has a file of its own.
//!
//! A record, its numbers big-endian:
//!
//!     8 bytes   number of the file
//!     1 byte    level, 0 to 6
//!     2 bytes   length of the smallest key, 1 to 4,096
//!               that key
//!     2 bytes   length of the largest key, 1 to 4,096
//!               that key
//!     4 bytes   bytes of the table, 1 to 16,777,216
//!     4 bytes   count of its entries, at least 1

ghost use Rattle.std.specs.Prelude.{◌≡◌, ◌++◌, ◌↔◌, [], IsTrue, OnOk, length, All};
ghost use Rattle.std.specs.List.{flat_map};
ghost use Rattle.lsm_key.specs.Reading.{Gives};
ghost use Rattle.lsm_edit.specs.File.{IsFile, file, file_at, size};

use crate::earlier_files::EarlierFiles;
use bytes::{BufMut, Bytes, BytesMut};
use lsm_key::{
    MAX_TABLE_BYTES, Refused, read_key, read_ranged_u8, read_ranged_u32, read_ranged_u64, write_key,
};
use std::alloc::{AllocError, Global};

/// What a version knows of a table: its level, and what is in it.
#[derive(Debug, Drop, Clone, PartialEq, Eq)]
pub struct FileMeta {
    /// Its number, from 1, which no other table ever has.
    pub number: u64,
    /// Its level, 0 to 6.
    pub level: u8,
    /// Its least user key.
    pub smallest: Bytes,
    /// Its greatest user key.
    pub largest: Bytes,
    /// Its length in bytes.
    pub bytes: u32,
    /// How many entries it has.
    pub entries: u32,
}

/// Which file record may come next.
#[derive(Clone, Copy, Debug)]
pub struct FileBounds {
    /// The least number that it may have.
    pub least: u64,
    /// The greatest one.
    pub most: u64,
    /// The lowest level that it may have.
    pub lowest: u8,
    /// The deepest one.
    pub deepest: u8,
}

/// A record within bounds from the front, with keys of at most `max_key` bytes. The fault is `short` if the bytes end
/// inside a field, and `bad` if a field breaks its rule. Allocates nothing.
pub fn read_file<F: Copy>(
    alloc: Global,
    rest: &mut Bytes,
    max_key: usize,
    within: FileBounds,
    short: F,
    bad: F,
) -> Result<FileMeta, Refused<F>>
    ensures { Gives (λ f. (f, rest.new)) result (file_at max_key short bad within [] rest.old) }
{
    let earlier = EarlierFiles::new(alloc);
    read_apart(rest, max_key, within, &earlier, short, bad)
}

/// The same of a file that overlaps none of the earlier ones of its level, if it is not level 0.
#[tactic(auto, unfolding(crate::specs::File::file_at))]
pub(crate) fn read_apart<F: Copy>(
    rest: &mut Bytes,
    max_key: usize,
    within: FileBounds,
    earlier: &EarlierFiles,
    short: F,
    bad: F,
) -> Result<FileMeta, Refused<F>>
    ensures { Gives (λ f. (f, rest.new)) result (file_at max_key short bad within earlier.now rest.old) }
{
    let number = read_ranged_u64(rest, within.least, within.most, short, bad)?;
    let level = read_ranged_u8(rest, within.lowest, within.deepest, short, bad)?;
    let smallest = read_key(rest, max_key, short, bad)?;
    let largest = read_key(rest, max_key, short, bad)?;
    let meets = earlier.meet(level, &smallest, &largest)?;
    if smallest.cmp(&largest).is_gt() || meets {
        return Err(Refused::Fault(bad));
    }
    let bytes = read_ranged_u32(rest, 1, MAX_TABLE_BYTES as u32, short, bad)?;
    let entries = read_ranged_u32(rest, 1, u32::MAX, short, bad)?;
    Ok(FileMeta {
        number,
        level,
        smallest,
        largest,
        bytes,
        entries,
    })
}

/// Appends a record.
pub fn write_file(out: &mut BytesMut, meta: &FileMeta) -> Result<(), AllocError>
    requires { IsFile meta.now }
    ensures { OnOk result (out.new.items ≡ out.old.items ++ file meta.now) }
{
    out.put_u64(meta.number)?;
    out.put_u8(meta.level)?;
    write_key(out, meta.smallest.as_slice())?;
    write_key(out, meta.largest.as_slice())?;
    out.put_u32(meta.bytes)?;
    out.put_u32(meta.entries)?;
    Ok(())
}

// How many bytes a record has.
fn file_bytes(meta: &FileMeta) -> usize
    requires { IsFile meta.now }
    ensures { result ≡ length (file meta.now) }
{
    21 + meta.smallest.len() + meta.largest.len()
}

/// How many bytes the records have together, at most `usize::MAX`.
pub fn files_bytes(files: &[FileMeta]) -> usize
    requires { All IsFile files.now }
    ensures { result ≡ size (flat_map file files.now) }
{
    let mut total: usize = 0;
    for file in files {
        total = total.saturating_add(file_bytes(file));
    }
    total
}

/// Whether two lists of files are the same.
pub fn same_files(files: &[FileMeta], others: &[FileMeta]) -> bool
    ensures { IsTrue result ↔ files.now ≡ others.now }
{
    files == others
}
