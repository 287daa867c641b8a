//! Bases: whole versions as bytes.
//!
//! A base, its numbers big-endian:
//!
//!     8 bytes   number of the version
//!     8 bytes   flushed sequence
//!     8 bytes   epoch
//!     8 bytes   next file number
//!     4 bytes   count of files
//!                 file record of each, by number

ghost use Rattle.std.specs.Prelude.{◌≡◌, ◌<◌, ◌≤◌, ◌^◌, ◌++◌, ◌-◌, [], All, length, IfOk, OnOk, Ok};
ghost use Rattle.lsm_key.specs.Reading.{Gives};
ghost use Rattle.lsm_edit.specs.declared.file.FileMeta.{FileMeta};
ghost use Rattle.lsm_edit.specs.Base.{IsBase, IsSpelledBase, base, base_at, listed_at, read_base, version_files_at};
ghost use Rattle.lsm_edit.specs.File.{size};
ghost use Rattle.lsm_edit.specs.Version.{VersionValue};

use crate::earlier_files::EarlierFiles;
use crate::edit::write_files;
use crate::file::{FileBounds, files_bytes, read_apart};
use crate::{FileMeta, FormatError, FormatFault, Version};
use bytes::{BufMut, Bytes, BytesMut};
use lsm_key::{
    MAX_KEY_BYTES, MAX_LEVEL, MAX_NUMBER, Refused, Seq, know_bytes, read_ranged_u32,
    read_ranged_u64,
};
use std::alloc::{AllocError, Global};

// The size of a base without its files: four numbers of eight bytes, and a count.
const HEAD_BYTES: usize = 36;

/// Appends the version.
pub fn write_base(out: &mut BytesMut, version: &Version) -> Result<(), AllocError>
    requires few { length version.now.files < 2 ^ 32 }
    ensures { OnOk result (out.new.items ≡ out.old.items ++ base version.now) }
{
    out.put_u64(version.number())?;
    out.put_u64(version.flushed().number())?;
    out.put_u64(version.epoch())?;
    out.put_u64(version.next_file())?;
    write_files(out, version.files())?;
    Ok(())
}

/// How many bytes the version has, at most `usize::MAX`.
pub fn base_bytes(version: &Version) -> usize
    ensures { result ≡ size (base version.now) }
{
    files_bytes(version.files()).saturating_add(HEAD_BYTES)
}

/// The one encoding of the version.
pub fn encode_base(alloc: Global, version: &Version) -> Result<Bytes, AllocError>
    requires sound { IsBase version.now }
    requires few { length version.now.files < 2 ^ 32 }
    ensures { IfOk result (λ b. b ≡ base version.now) }
{
    let mut out = BytesMut::with_capacity(alloc, base_bytes(version))?;
    write_base(&mut out, version)?;
    Ok(out.freeze()?)
}

// `count` files of a version, with numbers below `next_file` and keys of at most `max_key` bytes.
fn read_version_files<F: Copy>(
    alloc: Global,
    count: u32,
    next_file: u64,
    rest: &mut Bytes,
    max_key: usize,
    short: F,
    bad: F,
) -> Result<Vec<FileMeta>, Refused<F>>
    requires { (1 ≤ next_file) × (next_file ≤ MAX_NUMBER) }
    ensures { Gives (λ files. (files.items, rest.new)) result (version_files_at max_key short bad count (record { least = 1; most = next_file - 1; lowest = 0; deepest = MAX_LEVEL }, []) rest.old) }
{
    let mut files = EarlierFiles::new(alloc);
    let mut least = 1;
    for _place in 0..count {
        let within = FileBounds {
            least,
            most: next_file - 1,
            lowest: 0,
            deepest: MAX_LEVEL,
        };
        let file = read_apart(rest, max_key, within, &files, short, bad)?;
        least = file.number + 1;
        files = files.with(file)?;
    }
    Ok(files.into_vec())
}

// The files of a version with this next file number, after their count.
#[tactic(auto, unfolding(crate::specs::Base::listed_at))]
fn read_listed<F: Copy>(
    alloc: Global,
    next_file: u64,
    rest: &mut Bytes,
    max_key: usize,
    short: F,
    bad: F,
) -> Result<Vec<FileMeta>, Refused<F>>
    requires { (1 ≤ next_file) × (next_file ≤ MAX_NUMBER) }
    ensures { Gives (λ files. (files.items, rest.new)) result (listed_at max_key short bad next_file rest.old) }
{
    let count = read_ranged_u32(rest, 0, u32::MAX, short, bad)?;
    read_version_files(alloc, count, next_file, rest, max_key, short, bad)
}

/// A version from the front, with keys of at most `max_key` bytes. The fault is `short` if the bytes end inside a field,
/// and `bad` if a field breaks its rule. The time is O(n log n) in the number of files.
#[tactic(auto, unfolding(crate::specs::Base::base_at))]
pub fn read_base<F: Copy>(
    alloc: Global,
    rest: &mut Bytes,
    max_key: usize,
    short: F,
    bad: F,
) -> Result<Version, Refused<F>>
    requires { max_key ≤ MAX_KEY_BYTES }
    ensures { Gives (λ v. (v, rest.new)) result (base_at max_key short bad rest.old) }
{
    know_bytes(rest);
    let number = read_ranged_u64(rest, 1, MAX_NUMBER, short, bad)?;
    let flushed = read_ranged_u64(rest, 0, Seq::MAX, short, bad)?;
    let epoch = read_ranged_u64(rest, 1, MAX_NUMBER, short, bad)?;
    let next_file = read_ranged_u64(rest, 1, MAX_NUMBER, short, bad)?;
    let files = read_listed(alloc, next_file, rest, max_key, short, bad)?;
    Ok(Version::from_parts(alloc, number, Seq::new(flushed), epoch, next_file, files))
}

/// The version that the bytes encode, all of the bytes, or the first fault. The time is O(n log n) in the number
/// of files.
pub fn decode_base(alloc: Global, bytes: Bytes) -> Result<Version, FormatError>
    // What is decoded encodes to these bytes.
    ensures found { IfOk result (λ v. IsSpelledBase bytes v) }
    // What encodes to these bytes is decoded, unless memory runs out.
    ensures only { (v : VersionValue) → IsSpelledBase bytes v → Gives (λ x. x) result (Ok v) }
    // The fault is the first one.
    ensures exact { Gives (λ x. x) result (read_base bytes) }
{
    know_bytes(&bytes);
    read_whole(alloc, bytes)
}

// The version that the bytes encode, with no byte left.
#[tactic(auto, unfolding(crate::specs::Base::read_base))]
fn read_whole(alloc: Global, bytes: Bytes) -> Result<Version, FormatError>
    ensures { Gives (λ x. x) result (read_base bytes) }
{
    let mut rest = bytes;
    let version = read_base(
        alloc,
        &mut rest,
        MAX_KEY_BYTES,
        FormatFault::Truncated,
        FormatFault::BadField,
    )?;
    if !rest.is_empty() {
        return Err(Refused::Fault(FormatFault::TrailingBytes));
    }
    Ok(version)
}
