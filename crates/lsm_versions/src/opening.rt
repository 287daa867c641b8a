//! What a vault has, read again: the version that its edits replay to, with its tables.

ghost use Rattle.std.specs.Prelude.{◌≡◌, ◌≤◌, IfErr, IfNone, IfOk, IfSome};
ghost use Rattle.std.specs.FinMap as map;
ghost use Rattle.std.specs.Option.{option_to_list};
ghost use Rattle.lsm_table.specs.Tables.{Opened};
ghost use Rattle.lsm_edit.specs.declared.edit.Edit.{Edit};
ghost use Rattle.lsm_edit.specs.Edit.{IsSpelledEdit, read_edit};
ghost use Rattle.lsm_edit.specs.Served.{AreAsRecorded, IsAsRecorded, placed_of};
ghost use Rattle.lsm_vault.specs.Failures.{CountsFailures};
ghost use Rattle.lsm_versions.specs.Manifest.{Folds, edits_from, ok_items};
ghost use Rattle.lsm_versions.specs.Opening.{ArePlacesKept, CountsRefusal, IsLacking, LacksTable, RecoverRefuses, Recovers, manifest_version};

use crate::OpenError;
use crate::recent::edits_below;
use bytes::Bytes;
use lsm_edit::{ApplyError, Edit, FileMeta, Served, Version, decode_edit, open_as_recorded};
use lsm_key::{FileNumber, Refused, VersionNumber};
use lsm_table::Table;
use lsm_vault::{Vault, VaultError};
use std::alloc::{AllocError, Global};

/// The version that the edits of a vault replay to, with its tables, and the edits from it on. Changes nothing.
pub(crate) fn recover<V: Vault>(
    alloc: Global,
    vault: &mut V,
) -> Result<(Served, Vec<Bytes>), OpenError>
    ensures ok { IfOk result (λ r. Recovers (V.stored vault.old) r.0) }
    ensures recent { IfOk result (λ r. r.1.items ≡ edits_from r.0.version.number (V.stored vault.old).edits) }
    ensures refused { IfErr result (RecoverRefuses (V.stored vault.old)) }
    ensures stays { V.stored vault.new ≡ V.stored vault.old }
    ensures failures { V.failures vault.old ≤ V.failures vault.new }
    ensures counted { IfErr result (λ e. CountsRefusal e (V.failures vault.old) (V.failures vault.new)) }
{
    let mut edits = vault.edits()?;
    let Some(version) = replay(alloc, edits.as_slice())? else {
        return Err(OpenError::BadManifest);
    };
    let Some(tables) = tables_of(alloc, vault, version.files())? else {
        return Err(OpenError::MissingTable);
    };
    let recent = edits.split_off(edits_below(VersionNumber::new(version.number())))?;
    let served = Served::from_tables(version, tables)?;
    Ok((served, recent))
}

/// The version that these edits of a manifest make, if each applies to the version before it. No edits make version 0.
pub fn replay(alloc: Global, edits: &[Bytes]) -> Result<Option<Version>, AllocError>
    ensures some { IfOk result (λ o. IfSome o (Folds edits.now)) }
    ensures none { IfOk result (λ o. IfNone o (Folds edits.now (manifest_version edits.now) → ⊥)) }
{
    let mut version = Version::new(alloc);
    for text in edits {
        let Some(edit) = edit_of(alloc, text)? else {
            return Ok(None);
        };
        match version.apply(&edit) {
            Ok(()) => {}
            Err(why) if why == ApplyError::OutOfMemory => return Err(AllocError),
            Err(_) => return Ok(None),
        }
    }
    Ok(Some(version))
}

/// The edit that the bytes encode, if they encode one.
pub fn edit_of(alloc: Global, text: &Bytes) -> Result<Option<Edit>, AllocError>
    ensures read { IfOk result (λ o. option_to_list o ≡ ok_items (read_edit text.now)) }
    ensures some { IfOk result (λ o. IfSome o (IsSpelledEdit text.now)) }
    ensures none { IfOk result (λ o. IfNone o ((e : Edit) → IsSpelledEdit text.now e → ⊥)) }
{
    match decode_edit(alloc, text.clone()?) {
        Ok(edit) => Ok(Some(edit)),
        Err(Refused::Fault(_)) => Ok(None),
        Err(Refused::OutOfMemory) => Err(AllocError),
    }
}

// The tables of files, if the vault has each as its record says.
fn tables_of<V: Vault>(
    alloc: Global,
    vault: &mut V,
    files: &[FileMeta],
) -> Result<Option<Vec<Table>>, VaultError>
    ensures recorded { IfOk result (λ o. IfSome o (λ tables. AreAsRecorded files.now tables.items)) }
    ensures kept { IfOk result (λ o. IfSome o (λ tables. ArePlacesKept (V.stored vault.old).tables (placed_of files.now tables.items))) }
    ensures none { IfOk result (λ o. IfNone o (IsLacking (V.stored vault.old).tables files.now)) }
    ensures stays { V.stored vault.new ≡ V.stored vault.old }
    ensures counted { CountsFailures result (V.failures vault.old) (V.failures vault.new) }
{
    let mut tables = Vec::with_capacity(alloc, files.len())?;
    for file in files {
        let Some(table) = table_of(alloc, vault, file)? else {
            return Ok(None);
        };
        tables.push(table)?;
    }
    Ok(Some(tables))
}

// The table of a file, if the vault has it as the record says.
fn table_of<V: Vault>(
    alloc: Global,
    vault: &mut V,
    file: &FileMeta,
) -> Result<Option<Table>, VaultError>
    ensures some { IfOk result (λ o. IfSome o (λ t. IsAsRecorded file.now t × (map.get (V.stored vault.old).tables file.now.number ≡ Some t.bytes))) }
    ensures none { IfOk result (λ o. IfNone o (LacksTable (V.stored vault.old).tables file.now)) }
    ensures stays { V.stored vault.new ≡ V.stored vault.old }
    ensures counted { CountsFailures result (V.failures vault.old) (V.failures vault.new) }
{
    match vault.table(FileNumber::new(file.number))? {
        Some(bytes) => Ok(open_as_recorded(alloc, file, &bytes)?),
        None => Ok(None),
    }
}
