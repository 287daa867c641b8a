//! Whether what a folder holds is what its edits say.

ghost use Rattle.std.specs.Prelude.{◌≡◌, ◌++◌, [], length, IfErr, IfNone, IfOk, IfSome, OnOk};
ghost use Rattle.std.specs.FinMap as map;
ghost use Rattle.lsm_versions.specs.Manifest.{Folds};
ghost use Rattle.lsm_versions.specs.Opening.{HaveTables};
ghost use Rattle.lsm_inspect.specs.Check.{CheckRefuses, Finds, IsFinding, IsWhole, items_of, unneeded_numbers};
ghost use Rattle.lsm_inspect.specs.Log.{HoldsSoMany, IsLogDamage};

use crate::reading::find_in_log;
use crate::table::table_of;
use crate::{Finding, InspectError, Report};
use lsm_edit::{FileMeta, Version};
use lsm_file_vault::Contents;
use lsm_key::{FileNumber, Refused};
use lsm_versions::replay;
use std::alloc::{AllocError, Global};

/// Replays the edits of a folder, and reads each table of the version that they make to its end. Each file whose table is not as
/// its record says is a finding. Without edits there is no file. Reads the log over what is flushed, up to what is wrong with it.
pub fn check(alloc: Global, contents: &Contents) -> Result<Report, InspectError>
    ensures version { IfOk result (λ r. Folds contents.now.edits.items r.version) }
    ensures found { IfOk result (λ r. Finds contents.now.tables contents.now.damaged_tables.items r.version.files r.findings.items) }

    // Without a finding no table is in the way of an opening.
    ensures whole { IfOk result (λ r. r.findings.items ≡ [] → HaveTables contents.now.tables r.version.files) }
    ensures unneeded { IfOk result (λ r. r.unneeded.items ≡ unneeded_numbers r.version.files (map.keys contents.now.tables)) }
    ensures beside { IfOk result (λ r. r.damaged_unneeded.items ≡ unneeded_numbers r.version.files contents.now.damaged_tables.items) }
    ensures torn { IfOk result (λ r. r.torn_bytes ≡ contents.now.torn_bytes) }
    ensures log { IfOk result (λ r. r.log_records ≡ length contents.now.log.items) }
    ensures log_bytes { IfOk result (λ r. r.log_bytes ≡ contents.now.log_bytes) }
    ensures log_damage { IfOk result (λ r. IfSome r.log_damage (IsLogDamage r.version.flushed contents.now.log.items)) }

    // Without damage the log is not in the way of an opening.
    ensures held { IfOk result (λ r. IfNone r.log_damage (HoldsSoMany r.version.flushed contents.now.log.items r.log_above)) }
    ensures torn_log { IfOk result (λ r. r.torn_log_bytes ≡ contents.now.torn_log_bytes) }
    ensures refused { IfErr result (CheckRefuses contents.now.edits.items) }
{
    let lost_files = contents.lost_files.clone()?;
    let version = version_of(alloc, contents)?;
    let findings = findings_of(alloc, contents, version.files())?;
    let in_log = find_in_log(alloc, version.flushed(), contents.log.as_slice())?;
    let unneeded = unneeded_of(&version, contents.tables.numbers(alloc)?);
    let damaged = Vec::from_slice(alloc, contents.damaged_tables.as_slice())?;
    let damaged_unneeded = unneeded_of(&version, damaged);
    Ok(Report {
        version,
        findings,
        unneeded,
        damaged_unneeded,
        torn_bytes: contents.torn_bytes,
        log_records: contents.log.len(),
        log_above: in_log.above,
        log_bytes: contents.log_bytes,
        log_damage: in_log.damage,
        torn_log_bytes: contents.torn_log_bytes,
        lost_files,
    })
}

/// The version that the edits of a folder make.
pub(crate) fn version_of(alloc: Global, contents: &Contents) -> Result<Version, InspectError>
    ensures version { IfOk result (Folds contents.now.edits.items) }
    ensures refused { IfErr result (CheckRefuses contents.now.edits.items) }
{
    let Some(version) = replay(alloc, contents.edits.as_slice())? else {
        return Err(InspectError::BadManifest);
    };
    Ok(version)
}

// What is wrong with the tables of files, in the order of the files.
fn findings_of(
    alloc: Global,
    contents: &Contents,
    files: &[FileMeta],
) -> Result<Vec<Finding>, AllocError>
    ensures { IfOk result (λ found. Finds contents.now.tables contents.now.damaged_tables.items files.now found.items) }
{
    let mut findings = Vec::new(alloc);
    for file in files {
        let found = finding_of(alloc, contents, file)?;
        push_found(&mut findings, found)?;
    }
    Ok(findings)
}

// Adds a finding, if there is one.
fn push_found(findings: &mut Vec<Finding>, found: Option<Finding>) -> Result<(), AllocError>
    ensures { OnOk result (findings.new.items ≡ findings.old.items ++ items_of found) }
{
    match found {
        Some(finding) => Ok(findings.push(finding)?),
        None => Ok(()),
    }
}

// What is wrong with the table of a file, if something is.
fn finding_of(
    alloc: Global,
    contents: &Contents,
    file: &FileMeta,
) -> Result<Option<Finding>, AllocError>
    ensures some { IfOk result (λ o. IfSome o (IsFinding contents.now.tables contents.now.damaged_tables.items file.now)) }
    ensures none { IfOk result (λ o. IfNone o (IsWhole contents.now.tables contents.now.damaged_tables.items file.now)) }
{
    match table_of(alloc, contents, file) {
        Ok(_) => Ok(None),
        Err(Refused::Fault(damage)) => {
            let file = FileNumber::new(file.number);
            Ok(Some(Finding { file, damage }))
        }
        Err(Refused::OutOfMemory) => Err(AllocError),
    }
}

// Those of the numbers that no file of the version has.
fn unneeded_of(version: &Version, numbers: Vec<FileNumber>) -> Vec<FileNumber>
    ensures { result.items ≡ unneeded_numbers version.now.files numbers.items }
{
    let mut numbers = numbers;
    numbers.retain(|number| !version.has_file(number.number()));
    numbers
}
