//! The report of a check: what was found, whether an opening is refused for it, and the lines that it prints.

ghost use Rattle.std.specs.Prelude.{◌==◌, ◌≡◌, ◌+◌, ◌-◌, ◌^◌, ◌&&◌, is_none, length, min, not};
ghost use Rattle.std.specs.Fmt.{WritesOnOk};
ghost use Rattle.lsm_store.specs.Stats.{IsLevelStats};
ghost use Rattle.lsm_inspect.specs.Reports.{torn_log_text};

use crate::{Finding, LogDamage};
use lsm_edit::Version;
use lsm_key::{ALL_LEVELS, FileNumber};
use lsm_store::{LevelStats, stats_of};
use std::fmt;

/// What a check found. It prints as a line for each level that has files, one for a log that has records, those of `Faults`, one for each
/// table that no file needs, one for each file that was set aside, and a last one that sums up.
#[derive(Debug, Drop)]
pub struct Report {
    /// The version that the edits make.
    pub version: Version,
    /// What is wrong with the tables of its files: at most one finding a file, the first, in the order of the files.
    pub findings: Vec<Finding>,
    /// The whole tables that no file of the version needs, ascending. A stop may leave them. An opening removes them, or sets them aside
    /// if the last edit is torn.
    pub unneeded: Vec<FileNumber>,
    /// The damaged tables that no file of the version needs, in no order. A folder that has one is not opened.
    pub damaged_unneeded: Vec<FileNumber>,
    /// How many bytes behind the last whole edit are none: what a stop has left of an append that was not synced, or a last edit that
    /// is damaged. An opening goes on without them, and loses neither them nor a table.
    pub torn_bytes: u64,
    /// How many records the log has.
    pub log_records: usize,
    /// How many operations they have above the flushed sequence, up to what is wrong with the log.
    pub log_above: u64,
    /// How many bytes they take in its file, with their frames.
    pub log_bytes: u64,
    /// What is wrong with the log over the flushed sequence. With it an opening is refused.
    pub log_damage: Option<LogDamage>,
    /// How many bytes behind the last whole log record are none: what a stop has left of appends that were not synced, or a last
    /// record that is damaged. An opening goes on without them, and does not lose them.
    pub torn_log_bytes: u64,
    /// The names of the files that openings have set aside.
    pub lost_files: Vec<String>,
}

impl Report {
    /// Whether nothing is damaged or torn.
    pub fn is_whole(&self) -> bool
        ensures { result ≡ (length self.now.findings.items == 0 && length self.now.damaged_unneeded.items == 0 && is_none self.now.log_damage && self.now.torn_bytes == 0 && self.now.torn_log_bytes == 0) }
    {
        self.findings.is_empty()
            && self.damaged_unneeded.is_empty()
            && self.log_damage.is_none()
            && self.torn_bytes == 0
            && self.torn_log_bytes == 0
    }

    // How many tables are damaged, as far as a count reaches.
    fn damaged_tables(&self) -> usize
        ensures { result ≡ min (length self.now.findings.items + length self.now.damaged_unneeded.items) (2 ^ 64 - 1) }
    {
        self.findings
            .len()
            .saturating_add(self.damaged_unneeded.len())
    }

    /// Whether an opening is refused for what is damaged: the table of a file, one beside, or the log.
    pub fn is_refused(&self) -> bool
        ensures { result ≡ not (length self.now.findings.items == 0 && length self.now.damaged_unneeded.items == 0 && is_none self.now.log_damage) }
    {
        !(self.findings.is_empty() && self.damaged_unneeded.is_empty() && self.log_damage.is_none())
    }

    /// What keeps it from being whole, as text.
    pub fn faults(&self) -> Faults<'_> {
        Faults { report: self }
    }

    /// What the files of a level have, by their records.
    pub fn level_stats(&self, level: u8) -> LevelStats
        ensures { IsLevelStats self.now.version.files level result }
    {
        stats_of(self.version.files(), level)
    }
}

impl fmt::Display for Report {
    fn fmt<W: fmt::Write>(&self, f: &mut fmt::Formatter<W>) -> fmt::Result {
        write_levels(f, self)?;
        write_log(f, self)?;
        write_faults(f, self)?;
        write_tables(f, self.unneeded.as_slice(), "no file needs it")?;
        for name in self.lost_files.as_slice() {
            writeln!(f, "{name}: set aside, nobody reads it")?;
        }
        write_sum(f, self)
    }
}

/// What keeps a store from being whole: a line for each file with a finding, for each damaged table that no file needs, for what is wrong
/// with the log, for the bytes behind the last whole edit, and for those behind the last whole log record.
#[derive(Clone, Copy)]
pub struct Faults<'a> {
    report: &'a Report,
}

impl fmt::Display for Faults<'_> {
    fn fmt<W: fmt::Write>(&self, f: &mut fmt::Formatter<W>) -> fmt::Result {
        write_faults(f, self.report)
    }
}

fn write_faults<W: fmt::Write>(f: &mut fmt::Formatter<W>, report: &Report) -> fmt::Result {
    write_findings(f, report.findings.as_slice())?;
    write_tables(
        f,
        report.damaged_unneeded.as_slice(),
        "its bytes are not those that were written, and no file needs it",
    )?;
    write_log_damage(f, report)?;
    write_torn(f, report)?;
    write_torn_log(f, report)
}

// A line for what is wrong with the log.
fn write_log_damage<W: fmt::Write>(f: &mut fmt::Formatter<W>, report: &Report) -> fmt::Result {
    match report.log_damage {
        Some(damage) => writeln!(f, "the log is bad: {damage}; an opening is refused"),
        None => Ok(()),
    }
}

// A line for the bytes behind the last whole edit, and for what an opening does about them.
fn write_torn<W: fmt::Write>(f: &mut fmt::Formatter<W>, report: &Report) -> fmt::Result {
    if report.torn_bytes == 0 {
        return Ok(());
    }
    let torn = report.torn_bytes;
    write!(
        f,
        "the last edit is torn or damaged: {torn} bytes; an opening "
    )?;
    if report.is_refused() {
        return f.write_str("is refused\n");
    }
    f.write_str("sets aside ")?;
    match report.unneeded.as_slice() {
        [] => f.write_str("no table")?,
        [table] => write!(f, "table {}", table.number())?,
        tables => write_numbers(f, tables)?,
    }
    f.write_str("\n")
}

// A line for the bytes behind the last whole log record, and for what an opening does about them.
fn write_torn_log<W: fmt::Write>(f: &mut fmt::Formatter<W>, report: &Report) -> fmt::Result
    ensures { WritesOnOk W.write_str_gives f.old result (torn_log_text report.now.torn_log_bytes (not (length report.now.findings.items == 0 && length report.now.damaged_unneeded.items == 0 && is_none report.now.log_damage))) f.new }
{
    if report.torn_log_bytes == 0 {
        return Ok(());
    }
    let torn = report.torn_log_bytes;
    write!(
        f,
        "the last log record is torn or damaged: {torn} bytes; an opening "
    )?;
    if report.is_refused() {
        f.write_str("is refused\n")
    } else {
        f.write_str("sets them aside\n")
    }
}

// `tables A, B, ..`
fn write_numbers<W: fmt::Write>(f: &mut fmt::Formatter<W>, tables: &[FileNumber]) -> fmt::Result {
    let mut before = "tables ";
    for table in tables {
        let number = table.number();
        write!(f, "{before}{number}")?;
        before = ", ";
    }
    Ok(())
}

// A line for each level that has files.
fn write_levels<W: fmt::Write>(f: &mut fmt::Formatter<W>, report: &Report) -> fmt::Result {
    for level in &ALL_LEVELS {
        let stats = report.level_stats(*level);
        if stats.files > 0 {
            writeln!(f, "L{level} {stats}")?;
        }
    }
    Ok(())
}

// A line for the log, if it has records.
fn write_log<W: fmt::Write>(f: &mut fmt::Formatter<W>, report: &Report) -> fmt::Result {
    if report.log_records == 0 {
        return Ok(());
    }
    let (records, above, bytes) = (report.log_records, report.log_above, report.log_bytes);
    let flushed = report.version.flushed().number();
    writeln!(
        f,
        "log {records} records, {above} operations above {flushed}, {bytes} bytes"
    )
}

// A line for each finding.
fn write_findings<W: fmt::Write>(f: &mut fmt::Formatter<W>, findings: &[Finding]) -> fmt::Result {
    for finding in findings {
        writeln!(f, "{finding}")?;
    }
    Ok(())
}

// A line for each of these tables.
fn write_tables<W: fmt::Write>(
    f: &mut fmt::Formatter<W>,
    tables: &[FileNumber],
    what: &str,
) -> fmt::Result {
    for table in tables {
        let number = table.number();
        writeln!(f, "table {number}: {what}")?;
    }
    Ok(())
}

// The last line, without its end.
fn write_sum<W: fmt::Write>(f: &mut fmt::Formatter<W>, report: &Report) -> fmt::Result {
    let version = &report.version;
    let (number, flushed, files) = (
        version.number(),
        version.flushed().number(),
        version.files().len(),
    );
    write!(f, "version {number} flushed {flushed}: {files} files, ")?;
    if report.is_whole() {
        return f.write_str("no damage");
    }
    let damaged = report.damaged_tables();
    write!(f, "{damaged} damaged")?;
    if report.log_damage.is_some() {
        f.write_str(", the log bad")?;
    }
    if report.torn_bytes > 0 {
        f.write_str(", the last edit not whole")?;
    }
    if report.torn_log_bytes > 0 {
        f.write_str(", the last log record not whole")?;
    }
    Ok(())
}
