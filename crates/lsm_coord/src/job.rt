//! The parts of a picked job, as the current version and the live snapshots make them.

ghost use Rattle.std.specs.Prelude.{◌≡◌, ◌<◌, ◌≤◌, ◌↔◌, ◌++◌, IfOk, IsTrue, OnOk, filter, length, map, slice_index};
ghost use Rattle.lsm_edit.specs.declared.file.FileMeta.{FileMeta};
ghost use Rattle.lsm_pick.specs.Rule.{inputs_of};
ghost use Rattle.lsm_coord.specs.declared.snapshot.Snapshot.{Snapshot};
ghost use Rattle.lsm_coord.specs.Contract.Picking.{ArePointsOf, deeper_files, range_of, touches_at};

use crate::snapshot::Snapshot;
use lsm_claim::{Hull, Want};
use lsm_edit::FileMeta;
use lsm_key::{KeyRange, MAX_JOB_LEVEL, Seq};
use std::alloc::{AllocError, Global};

/// The sequences of the snapshots, each once, ascending.
pub(crate) fn points_of(alloc: Global, snapshots: &[Snapshot]) -> Result<Vec<Seq>, AllocError>
    ensures all { IfOk result (λ points. ArePointsOf snapshots.now points.items) }
    ensures few { IfOk result (λ points. length points.items ≤ length snapshots.now) }
{
    let mut points = sequences_of(alloc, snapshots)?;
    points.sort_unstable();
    points.dedup();
    Ok(points)
}

// The sequence of each snapshot.
fn sequences_of(alloc: Global, snapshots: &[Snapshot]) -> Result<Vec<Seq>, AllocError>
    ensures { IfOk result (λ all. all.items ≡ map (λ (x : Snapshot). x.at) snapshots.now) }
{
    snapshots.iter().map(|live| live.at).collect(alloc)
}

/// The input files of a compaction, whose numbers are in the order of the version's files.
pub(crate) fn inputs_of(
    alloc: Global,
    files: &[FileMeta],
    want: &Want,
) -> Result<Vec<FileMeta>, AllocError>
    requires { want.now.files ≡ map (λ (f : FileMeta). f.number) (inputs_of files.now want.now) }
    ensures { IfOk result (λ inputs. inputs.items ≡ inputs_of files.now want.now) }
{
    let numbers = want.files.as_slice();
    let mut inputs = Vec::with_capacity(alloc, numbers.len())?;
    let mut next = 0;
    for file in files {
        if !stands_at(numbers, next, file.number) {
            continue;
        }
        inputs.push(copy_of(file)?)?;
        next += 1;
    }
    Ok(inputs)
}

// The same file. Its keys share the bytes.
fn copy_of(file: &FileMeta) -> Result<FileMeta, AllocError>
    ensures { IfOk result (λ copy. copy ≡ file.now) }
{
    file.clone()
}

// Whether the number is the one at that index.
fn stands_at(numbers: &[u64], place: usize, number: u64) -> bool
    ensures { IsTrue result ↔ ((place < length numbers.now) × (slice_index numbers.now place ≡ number)) }
{
    place < numbers.len() && numbers[place] == number
}

/// The key ranges of the files below both levels of a compaction that may have its keys, by level and number.
pub(crate) fn deeper_of(
    alloc: Global,
    files: &[FileMeta],
    want: &Want,
) -> Result<Vec<KeyRange>, AllocError>
    requires { want.now.level ≤ MAX_JOB_LEVEL }
    ensures { IfOk result (λ ranges. ranges.items ≡ map range_of (deeper_files files.now want.now)) }
{
    let mut ranges = Vec::new(alloc);
    for level in want.level + 2..MAX_JOB_LEVEL + 2 {
        push_ranges(&mut ranges, files, &want.hull, level)?;
    }
    Ok(ranges)
}

// Appends the ranges of the files of a level that may have keys of the hull.
fn push_ranges(
    ranges: &mut Vec<KeyRange>,
    files: &[FileMeta],
    hull: &Hull,
    level: u8,
) -> Result<(), AllocError>
    ensures { OnOk result (ranges.new.items ≡ ranges.old.items ++ map range_of (filter (touches_at hull.now level) files.now)) }
{
    for file in files {
        if is_at(file, hull, level) {
            ranges.push(range_of(file)?)?;
        }
    }
    Ok(())
}

// Whether the file is of the level, and may have keys of the hull.
fn is_at(file: &FileMeta, hull: &Hull, level: u8) -> bool
    ensures { result ≡ touches_at hull.now level file.now }
{
    file.level == level && hull.range().overlaps(file.range())
}

// The key range of a file, as its record says.
fn range_of(file: &FileMeta) -> Result<KeyRange, AllocError>
    ensures { IfOk result (λ range. range ≡ range_of file.now) }
{
    let lo = file.smallest.clone()?;
    let hi = file.largest.clone()?;
    Ok(KeyRange { lo, hi })
}
