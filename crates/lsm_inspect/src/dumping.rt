//! The entries of a store, and the records of its log, as text.

ghost use Rattle.std.specs.Prelude.{◌≡◌, length, IfErr, IfNone, IfOk, IfSome};
ghost use Rattle.std.specs.FinMap as map;
ghost use Rattle.lsm_versions.specs.Manifest.{Folds};
ghost use Rattle.lsm_inspect.specs.Check.{DumpRefuses, Finds, IsWriteError, unneeded_numbers};
ghost use Rattle.lsm_inspect.specs.Log.{HoldsSoMany, IsLogDamage};

use crate::checking::check;
use crate::table::table_of;
use crate::{InspectError, Report};
use bytes::Bytes;
use lsm_edit::{FileMeta, LogRecord, decode_log};
use lsm_file_vault::Contents;
use lsm_key::{ALL_LEVELS, EntryRef, Kind, Refused};
use lsm_table::Table;
use lsm_word::{Operations, Word};
use std::alloc::Global;
use std::fmt;
use std::io::{self, BufWriter, Write};

/// Writes a line for each entry of the version that the edits make: level by level, the files of a level by number, the entries of
/// a file in the order of its table. A file whose table is not as its record says is left out, and so is what the log alone has.
/// Returns what a check finds.
pub fn dump<W: Write + Drop>(
    alloc: Global,
    contents: &Contents,
    out: W,
) -> Result<Report, InspectError>
    ensures version { IfOk result (λ r. Folds contents.now.edits.items r.version) }
    ensures found { IfOk result (λ r. Finds contents.now.tables contents.now.damaged_tables.items r.version.files r.findings.items) }
    ensures unneeded { IfOk result (λ r. r.unneeded.items ≡ unneeded_numbers r.version.files (map.keys contents.now.tables)) }
    ensures beside { IfOk result (λ r. r.damaged_unneeded.items ≡ unneeded_numbers r.version.files contents.now.damaged_tables.items) }
    ensures torn { IfOk result (λ r. r.torn_bytes ≡ contents.now.torn_bytes) }
    ensures log { IfOk result (λ r. r.log_records ≡ length contents.now.log.items) }
    ensures log_bytes { IfOk result (λ r. r.log_bytes ≡ contents.now.log_bytes) }
    ensures log_damage { IfOk result (λ r. IfSome r.log_damage (IsLogDamage r.version.flushed contents.now.log.items)) }
    ensures held { IfOk result (λ r. IfNone r.log_damage (HoldsSoMany r.version.flushed contents.now.log.items r.log_above)) }
    ensures torn_log { IfOk result (λ r. r.torn_log_bytes ≡ contents.now.torn_log_bytes) }
    ensures refused { IfErr result (DumpRefuses contents.now.edits.items) }
{
    let report = check(alloc, contents)?;
    write_all(alloc, contents, report.version.files(), out)?;
    Ok(report)
}

/// Writes a line for each record of the log: `write FIRST-LAST` with its operations as a script has them behind `batch`, or
/// `freeze SEQ`. A record whose bytes are none is left out. Returns what a check finds.
pub fn dump_log<W: Write + Drop>(
    alloc: Global,
    contents: &Contents,
    out: W,
) -> Result<Report, InspectError>
    ensures version { IfOk result (λ r. Folds contents.now.edits.items r.version) }
    ensures found { IfOk result (λ r. Finds contents.now.tables contents.now.damaged_tables.items r.version.files r.findings.items) }
    ensures unneeded { IfOk result (λ r. r.unneeded.items ≡ unneeded_numbers r.version.files (map.keys contents.now.tables)) }
    ensures beside { IfOk result (λ r. r.damaged_unneeded.items ≡ unneeded_numbers r.version.files contents.now.damaged_tables.items) }
    ensures torn { IfOk result (λ r. r.torn_bytes ≡ contents.now.torn_bytes) }
    ensures log { IfOk result (λ r. r.log_records ≡ length contents.now.log.items) }
    ensures log_bytes { IfOk result (λ r. r.log_bytes ≡ contents.now.log_bytes) }
    ensures log_damage { IfOk result (λ r. IfSome r.log_damage (IsLogDamage r.version.flushed contents.now.log.items)) }
    ensures held { IfOk result (λ r. IfNone r.log_damage (HoldsSoMany r.version.flushed contents.now.log.items r.log_above)) }
    ensures torn_log { IfOk result (λ r. r.torn_log_bytes ≡ contents.now.torn_log_bytes) }
    ensures refused { IfErr result (DumpRefuses contents.now.edits.items) }
{
    let report = check(alloc, contents)?;
    write_records(alloc, contents.log.as_slice(), out)?;
    Ok(report)
}

// The files of all levels.
fn write_all<W: Write + Drop>(
    alloc: Global,
    contents: &Contents,
    files: &[FileMeta],
    out: W,
) -> Result<(), InspectError>
    ensures { IfErr result IsWriteError }
{
    let mut out = BufWriter::new(alloc, out)?;
    for level in &ALL_LEVELS {
        write_level(alloc, contents, files, *level, &mut out)?;
    }
    out.flush()?;
    Ok(())
}

// The files of a level.
fn write_level<W: Write>(
    alloc: Global,
    contents: &Contents,
    files: &[FileMeta],
    level: u8,
    out: &mut W,
) -> Result<(), InspectError>
    ensures { IfErr result IsWriteError }
{
    for file in files {
        if file.level == level {
            write_file(alloc, contents, file, out)?;
        }
    }
    Ok(())
}

// A file, unless something is wrong with its table.
fn write_file<W: Write>(
    alloc: Global,
    contents: &Contents,
    file: &FileMeta,
    out: &mut W,
) -> Result<(), InspectError>
    ensures { IfErr result IsWriteError }
{
    match table_of(alloc, contents, file) {
        Ok(table) => Ok(write_entries(file, &table, out)?),
        Err(Refused::Fault(_)) => Ok(()),
        Err(Refused::OutOfMemory) => Err(InspectError::OutOfMemory),
    }
}

// The entries of a file.
fn write_entries<W: Write>(file: &FileMeta, table: &Table, out: &mut W) -> io::Result<()> {
    for placed in table.cursor() {
        let line = EntryLine {
            file,
            entry: placed.entry(),
        };
        writeln!(out, "{line}")?;
    }
    Ok(())
}

// An entry of a file.
#[derive(Clone, Copy)]
struct EntryLine<'a> {
    file: &'a FileMeta,
    entry: EntryRef<'a>,
}

impl fmt::Display for EntryLine<'_> {
    fn fmt<W: fmt::Write>(&self, f: &mut fmt::Formatter<W>) -> fmt::Result {
        let (level, number) = (self.file.level, self.file.number);
        let key = Word(self.entry.key);
        let seq = self.entry.seq.number();
        write!(f, "L{level} file {number}: {key} @{seq} ")?;
        match self.entry.kind {
            Kind::Put => {
                let value = Word(self.entry.value);
                write!(f, "put {value}")
            }
            Kind::Delete => f.write_str("del"),
        }
    }
}

// The records of a log.
fn write_records<W: Write + Drop>(
    alloc: Global,
    texts: &[Bytes],
    out: W,
) -> Result<(), InspectError>
    ensures { IfErr result IsWriteError }
{
    let mut out = BufWriter::new(alloc, out)?;
    for text in texts {
        write_record(alloc, text, &mut out)?;
    }
    out.flush()?;
    Ok(())
}

// A record, unless its bytes are none.
fn write_record<W: Write>(alloc: Global, text: &Bytes, out: &mut W) -> Result<(), InspectError>
    ensures { IfErr result IsWriteError }
{
    match decode_log(alloc, text.clone()?) {
        Ok(logged) => Ok(write_logged(&logged, out)?),
        Err(Refused::Fault(_)) => Ok(()),
        Err(Refused::OutOfMemory) => Err(InspectError::OutOfMemory),
    }
}

// The line of a record.
fn write_logged<W: Write>(logged: &LogRecord, out: &mut W) -> io::Result<()> {
    let line = RecordLine(logged);
    writeln!(out, "{line}")
}

// A record of a log.
#[derive(Clone, Copy)]
struct RecordLine<'a>(&'a LogRecord);

impl fmt::Display for RecordLine<'_> {
    fn fmt<W: fmt::Write>(&self, f: &mut fmt::Formatter<W>) -> fmt::Result {
        match self.0 {
            LogRecord::Write(first, batch) => {
                let ops = batch.ops();
                let first = first.number();
                let last = first.saturating_add((ops.len() as u64).saturating_sub(1));
                let words = Operations(ops);
                write!(f, "write {first}-{last}{words}")
            }
            LogRecord::Freeze(at) => {
                let at = at.number();
                write!(f, "freeze {at}")
            }
        }
    }
}
