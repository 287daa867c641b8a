//! Tables put into a vault, with the edit that adds their files, and tables removed from it.

ghost use Rattle.std.specs.Prelude.{◌≡◌, ◌++◌, ◌∷◌, [], IfOk, OnOk, OnErr, filter, nat_eq, not};
ghost use Rattle.std.specs.FinMap as map;
ghost use Rattle.std.specs.List.{list_any};
ghost use Rattle.lsm_vault.specs.Failures.{CountsFailures};
ghost use Rattle.lsm_edit.specs.Served.{AreAsRecorded, placed_of};
ghost use Rattle.lsm_versions.specs.Kept.{MayHavePutSome, MayHaveRemoved};
ghost use Rattle.lsm_versions.specs.Opening.{MayHaveLost, is_live_file};
ghost use Rattle.lsm_versions.specs.Putting.{IsTableToPut, numbered_tables, put_numbered};
ghost use Rattle.lsm_versions.specs.Retention.{NumbersRise};

use crate::retired::{Retired, retired_bytes};
use bytes::Bytes;
use lsm_edit::{FileMeta, Version};
use lsm_key::FileNumber;
use lsm_table::Table;
use lsm_vault::{Vault, VaultError};
use std::alloc::{AllocError, Global};

/// The bytes of a table, and the number that they are put under.
#[derive(Drop)]
pub(crate) struct NumberedTable {
    number: FileNumber,
    bytes: Bytes,
}

/// The tables of files, with the numbers of these.
pub(crate) fn number_tables(
    alloc: Global,
    files: &[FileMeta],
    tables: &[Table],
) -> Result<Vec<NumberedTable>, AllocError>
    requires { AreAsRecorded files.now tables.now }
    ensures { IfOk result (λ numbered. numbered.items ≡ numbered_tables (placed_of files.now tables.now)) }
{
    let mut numbered = Vec::with_capacity(alloc, tables.len())?;
    let (mut next_files, mut next_tables) = (files, tables);
    while let Some((table, later_tables)) = next_tables.split_first() {
        let Some((file, later_files)) = next_files.split_first() else {
            unreachable!()
        };
        let bytes = table.bytes().clone()?;
        let number = FileNumber::new(file.number);
        numbered.push(NumberedTable { number, bytes })?;
        next_files = later_files;
        next_tables = later_tables;
    }
    Ok(numbered)
}

/// Puts tables under their numbers, and then an edit after the others. A refusal puts no edit, and may have put some of the tables.
pub(crate) fn store<V: Vault>(
    vault: &mut V,
    tables: Vec<NumberedTable>,
    edit: Bytes,
) -> Result<(), VaultError>
    ensures ok { OnOk result (V.stored vault.new ≡ record (V.stored vault.old) { edits = (V.stored vault.old).edits ++ edit ∷ []; tables = put_numbered (V.stored vault.old).tables tables.items }) }
    ensures err { OnErr result (V.stored vault.new ≡ record (V.stored vault.old) { tables = (V.stored vault.new).tables }) }
    ensures put { MayHavePutSome (IsTableToPut tables.items) (V.stored vault.old).tables (V.stored vault.new).tables }
    ensures counted { CountsFailures result (V.failures vault.old) (V.failures vault.new) }
{
    put_tables(vault, tables)?;
    vault.append_edit(edit)
}

// Puts tables under their numbers, in turn. A refusal ends it early.
fn put_tables<V: Vault>(vault: &mut V, tables: Vec<NumberedTable>) -> Result<(), VaultError>
    ensures ok { OnOk result (V.stored vault.new ≡ record (V.stored vault.old) { tables = put_numbered (V.stored vault.old).tables tables.items }) }
    ensures rest { V.stored vault.new ≡ record (V.stored vault.old) { tables = (V.stored vault.new).tables } }
    ensures put { MayHavePutSome (IsTableToPut tables.items) (V.stored vault.old).tables (V.stored vault.new).tables }
    ensures counted { CountsFailures result (V.failures vault.old) (V.failures vault.new) }
{
    for table in tables {
        vault.put_table(table.number, table.bytes)?;
    }
    Ok(())
}

/// Removes the tables that neither a file of the version nor a retired one needs. Returns their numbers, ascending. A refusal
/// may leave some of them removed.
pub(crate) fn remove_obsolete<V: Vault>(
    vault: &mut V,
    version: &Version,
    retired: &[Retired],
) -> Result<Vec<FileNumber>, VaultError>
    requires { NumbersRise retired.now }
    ensures removed { IfOk result (λ removed. removed.items ≡ filter (λ n. not (is_live_file version.now.files retired.now n)) (map.keys (V.stored vault.old).tables)) }
    ensures ok { OnOk result (V.stored vault.new ≡ record (V.stored vault.old) { tables = map.retain_keys (V.stored vault.old).tables (is_live_file version.now.files retired.now) }) }
    ensures rest { V.stored vault.new ≡ record (V.stored vault.old) { tables = (V.stored vault.new).tables } }
    ensures lost { MayHaveLost (is_live_file version.now.files retired.now) (V.stored vault.old).tables (V.stored vault.new).tables }
    ensures counted { CountsFailures result (V.failures vault.old) (V.failures vault.new) }
{
    let obsolete = find_obsolete(vault, version, retired)?;
    remove_tables(vault, obsolete.as_slice())?;
    Ok(obsolete)
}

// The numbers of the tables that neither a file of the version nor a retired one needs, ascending.
fn find_obsolete<V: Vault>(
    vault: &mut V,
    version: &Version,
    retired: &[Retired],
) -> Result<Vec<FileNumber>, VaultError>
    requires { NumbersRise retired.now }
    ensures ok { IfOk result (λ numbers. numbers.items ≡ filter (λ n. not (is_live_file version.now.files retired.now n)) (map.keys (V.stored vault.old).tables)) }
    ensures stays { V.stored vault.new ≡ V.stored vault.old }
    ensures counted { CountsFailures result (V.failures vault.old) (V.failures vault.new) }
{
    let mut numbers = vault.numbers()?;
    numbers.retain(|number| !is_live_file(version, retired, *number));
    Ok(numbers)
}

// Whether a file of the version or a retired one has the number.
fn is_live_file(version: &Version, retired: &[Retired], number: FileNumber) -> bool
    requires { NumbersRise retired.now }
    ensures { result ≡ is_live_file version.now.files retired.now number }
{
    version.has_file(number.number()) || retired_bytes(retired, number.number()).is_some()
}

// Removes the tables of these numbers, in turn. A refusal ends it early.
fn remove_tables<V: Vault>(vault: &mut V, numbers: &[FileNumber]) -> Result<(), VaultError>
    ensures ok { OnOk result (V.stored vault.new ≡ record (V.stored vault.old) { tables = map.retain_keys (V.stored vault.old).tables (λ n. not (list_any (nat_eq n) numbers.now)) }) }
    ensures rest { V.stored vault.new ≡ record (V.stored vault.old) { tables = (V.stored vault.new).tables } }
    ensures removed { MayHaveRemoved numbers.now (V.stored vault.old).tables (V.stored vault.new).tables }
    ensures counted { CountsFailures result (V.failures vault.old) (V.failures vault.new) }
{
    for number in numbers {
        vault.remove_table(*number)?;
    }
    Ok(())
}
