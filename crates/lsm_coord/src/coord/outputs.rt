//! Outputs of a job: the tables that a worker made.

ghost use Rattle.std.specs.Prelude.{◌≡◌, ◌≤◌, ◌⊎◌, ◌+◌, IfErr, IfOk, List, length};
ghost use Rattle.std.specs.Option.{option_copied};
ghost use Rattle.lsm_key.specs.declared.limits.TheConstants.{MAX_LEVEL, MAX_NUMBER};
ghost use Rattle.lsm_key.specs.Order.{key_lt};
ghost use Rattle.lsm_table.specs.Tables.{IsTable, Opened, largest_key, smallest_key, target_of};
ghost use Rattle.lsm_coord.specs.declared.coord.install.InstallError.TheVariants as why;
ghost use Rattle.lsm_coord.specs.Contract.Installing.{AreOutputTables, comes_next, is_table_inside, record_of, records};

use super::install::InstallError;
use bytes::Bytes;
use lsm_claim::Hull;
use lsm_edit::FileMeta;
use lsm_key::{KeyRangeRef, Refused};
use lsm_table::Table;
use std::alloc::{AllocError, Global};

/// The most tables that a result may have, so that an edit can count them.
const MAX_RESULT_TABLES: usize = u32::MAX as usize;

/// The tables of a result, opened: each is of the block target, and has only keys of the hull, after those of the one before it.
pub(crate) fn open_outputs(
    alloc: Global,
    block: u32,
    hull: &Hull,
    texts: &[Bytes],
) -> Result<Vec<Table>, InstallError>
    ensures ok { IfOk result (λ tables. AreOutputTables block hull.now texts.now tables.items) }
    ensures bad { IfErr result (λ e. (e ≡ why.OutOfMemory) ⊎ ((e ≡ why.BadResult) × ((ts : List Opened) → AreOutputTables block hull.now texts.now ts → ⊥))) }
{
    if texts.len() > MAX_RESULT_TABLES {
        return Err(InstallError::BadResult);
    }
    let mut tables = Vec::with_capacity(alloc, texts.len())?;
    for text in texts {
        let table = open_output(alloc, block, text)?;
        if !comes_next(hull, tables.last(), &table) {
            return Err(InstallError::BadResult);
        }
        tables.push(table)?;
    }
    Ok(tables)
}

// The table of an output, which must be of the block target.
fn open_output(alloc: Global, block: u32, text: &Bytes) -> Result<Table, InstallError>
    ensures ok { IfOk result (λ table. (table.bytes ≡ text.now) × IsTable text.now table.entries × (target_of text.now ≡ block)) }
    ensures bad { IfErr result (λ e. (e ≡ why.OutOfMemory) ⊎ ((e ≡ why.BadResult) × ((t : Opened) → IsTable text.now t.entries → target_of text.now ≡ block → ⊥))) }
{
    let copy = text.clone()?;
    match Table::open(alloc, copy) {
        Ok(table) if table.block() == block => Ok(table),
        Ok(_) => Err(InstallError::BadResult),
        Err(Refused::OutOfMemory) => Err(InstallError::OutOfMemory),
        Err(Refused::Fault(_)) => Err(InstallError::BadResult),
    }
}

// Whether the table's keys are in the hull, and after those of the last one.
fn comes_next(hull: &Hull, last: Option<&Table>, table: &Table) -> bool
    ensures { result ≡ comes_next hull.now (option_copied last.entry) table.now }
{
    match last {
        None => is_inside(hull, table),
        Some(before) => is_inside(hull, table) && stands_before(before, table),
    }
}

fn is_inside(hull: &Hull, table: &Table) -> bool
    ensures { result ≡ is_table_inside hull.now table.now }
{
    let keys = KeyRangeRef {
        lo: table.smallest().as_slice(),
        hi: table.largest().as_slice(),
    };
    hull.range().encloses(keys)
}

fn stands_before(before: &Table, table: &Table) -> bool
    ensures { result ≡ key_lt (largest_key before.now.entries) (smallest_key table.now.entries) }
{
    before.largest().cmp(table.smallest()).is_lt()
}

/// The records of tables of a level, under consecutive numbers.
pub(crate) fn records_of(
    alloc: Global,
    level: u8,
    first: u64,
    tables: &[Table],
) -> Result<Vec<FileMeta>, AllocError>
    requires level { level ≤ MAX_LEVEL }
    requires some { 1 ≤ first }
    requires most { first + length tables.now ≤ MAX_NUMBER }
    ensures { IfOk result (λ files. files.items ≡ records level first tables.now) }
{
    let mut files = Vec::with_capacity(alloc, tables.len())?;
    for (place, table) in tables.iter().enumerate() {
        let file = record_of(first + place as u64, level, table)?;
        files.push(file)?;
    }
    Ok(files)
}

// The record of a table.
fn record_of(number: u64, level: u8, table: &Table) -> Result<FileMeta, AllocError>
    requires level { level ≤ MAX_LEVEL }
    requires some { 1 ≤ number }
    requires most { number ≤ MAX_NUMBER }
    ensures { IfOk result (λ file. file ≡ record_of level number table.now) }
{
    FileMeta::of_table(number, level, table)
}
