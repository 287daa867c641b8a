//! The figure `merge`: a merge of the tables of two levels, each made by a flush.

ghost use Rattle.std.specs.Prelude.{◌≤◌};

use crate::bench::Bench;
use crate::error::{GONE, NO_JOB, NO_MERGE, TimingError};
use crate::figure::{Figure, with_bytes};
use crate::flushes::LARGE_BATCH;
use crate::keys::{mix, or_one, scattered_key};
use crate::load::{Load, Ops};
use bytes::Bytes;
use lsm_claim::JobId;
use lsm_coord::Coord;
use lsm_edit::FileMeta;
use lsm_key::{DEFAULT_BLOCK, Items, MAX_INPUTS};
use lsm_merge::merge;
use lsm_msg::{Job, JobParts};
use lsm_table::Table;
use lsm_vault::MemoryVault;
use std::alloc::{AllocError, Global};

/// The upper one of the two levels.
const UPPER: u8 = 1;

/// What the entries of a table weigh, at most: about as much as the outputs of a merge.
const TABLE_WEIGHT: u64 = 1_950_000;

/// The bytes of a megabyte, here.
const MEGABYTE: u64 = 1_000_000;

/// Times the merge of the tables of two levels, which flushes make, with `megabytes` MB of keys and values in all. One key in eight is in
/// both.
pub(crate) fn time_merge(
    bench: Bench,
    coord: &mut Coord<MemoryVault>,
    megabytes: u64,
) -> Result<(), TimingError> {
    let (tables, lower) = tables_in(bench, coord, megabytes)?;
    let job = job_of(bench.alloc(), &tables, lower)?;
    time_job(bench, &tables, &job)
}

fn time_job(bench: Bench, tables: &[Table], job: &Job) -> Result<(), TimingError> {
    let figure = Figure::begin(bench, "merge")?;
    let Ok(outputs) = merge(bench.alloc(), tables, job) else {
        return Err(NO_MERGE);
    };
    figure.end(bench, entries_of(tables), checksum_of(&outputs))?;
    Ok(())
}

// The tables of the lower level and then those of the upper one, and how many the lower one has.
fn tables_in(
    bench: Bench,
    coord: &mut Coord<MemoryVault>,
    megabytes: u64,
) -> Result<(Vec<Table>, usize), TimingError> {
    let entries = megabytes.wrapping_mul(MEGABYTE) / or_one(bench.shape.entry_bytes());
    let indices = sorted_indices(bench.alloc(), entries.wrapping_mul(8) / 9)?;
    tables_of_both(bench, coord, &indices)
}

// The indices below a count, in the order of their keys, of either shape.
fn sorted_indices(alloc: Global, count: u64) -> Result<Vec<u64>, AllocError> {
    let mut indices: Vec<u64> = (0..count).collect(alloc)?;
    indices.sort_unstable_by(|index, other| scattered_key(*index).cmp(&scattered_key(*other)));
    Ok(indices)
}

fn tables_of_both(
    bench: Bench,
    coord: &mut Coord<MemoryVault>,
    indices: &[u64],
) -> Result<(Vec<Table>, usize), TimingError> {
    let mut tables = Vec::new(bench.alloc());
    add_tables(bench, coord, indices, 0, &mut tables)?;
    let lower = tables.len();
    add_tables(bench, coord, indices, 1, &mut tables)?;
    Ok((tables, lower))
}

// Adds the tables of a level, 0 for the lower and 1 for the upper one.
fn add_tables(
    bench: Bench,
    coord: &mut Coord<MemoryVault>,
    indices: &[u64],
    level: u64,
    tables: &mut Vec<Table>,
) -> Result<(), TimingError> {
    let chosen = indices_at(bench.alloc(), indices, level)?;
    for chunk in chosen.chunks(table_entries(bench)) {
        tables.push(table_of(bench, coord, chunk)?)?;
    }
    Ok(())
}

// The indices of the entries of a level: every eighth, and a random half of the others.
fn indices_at(alloc: Global, indices: &[u64], level: u64) -> Result<Vec<u64>, AllocError> {
    let mut chosen = Vec::new(alloc);
    for index in indices {
        if *index % 8 == 0 || mix(!*index) % 2 == level {
            chosen.push(*index)?;
        }
    }
    Ok(chosen)
}

// How many entries a table has.
fn table_entries(bench: Bench) -> usize
    ensures { 1 ≤ result }
{
    or_one(bench.shape.count_within(TABLE_WEIGHT)) as usize
}

// The table that a flush makes of the entries of some indices.
fn table_of(
    bench: Bench,
    coord: &mut Coord<MemoryVault>,
    indices: &[u64],
) -> Result<Table, TimingError> {
    let load = Load {
        ops: Ops::Listed(indices),
        count: indices.len() as u64,
        batch: LARGE_BATCH,
    };
    for number in 0..load.batches() {
        let batch = load.batch(bench, number)?;
        coord.write(&batch)?;
    }
    let file = coord.flush()?.file.number();
    match coord.served().table(file) {
        None => Err(GONE),
        Some(table) => Ok(table.copy()?),
    }
}

// The job that merges the tables, of which the first `lower` are of the lower level.
fn job_of(alloc: Global, tables: &[Table], lower: usize) -> Result<Job, TimingError> {
    let inputs = inputs_of(alloc, tables, lower)?;
    let id = JobId {
        epoch: 1,
        number: 1,
    };
    let parts = JobParts {
        id,
        level: UPPER,
        block: DEFAULT_BLOCK,
        points: Items::new(alloc),
        inputs,
        deeper: Items::new(alloc),
    };
    Job::new(parts).ok_or(NO_JOB)
}

// The files of the tables.
fn inputs_of(
    alloc: Global,
    tables: &[Table],
    lower: usize,
) -> Result<Items<FileMeta>, TimingError> {
    let mut inputs = Items::new(alloc);
    for (place, table) in tables.iter().enumerate() {
        if place >= MAX_INPUTS {
            return Err(NO_JOB);
        }
        let level = if place < lower { UPPER + 1 } else { UPPER };
        inputs.push(FileMeta::of_table(place as u64 + 1, level, table)?)?;
    }
    Ok(inputs)
}

fn entries_of(tables: &[Table]) -> u64 {
    let mut count = 0u64;
    for table in tables {
        count = count.wrapping_add(table.count() as u64);
    }
    count
}

fn checksum_of(outputs: &[Bytes]) -> u64 {
    let mut checksum = 0;
    for output in outputs {
        checksum = with_bytes(checksum, output);
    }
    checksum
}
