//! A vault that fails once, for tests.

ghost use Rattle.std.specs.Prelude.{◌≡◌, ◌+◌, ◌++◌, ◌∷◌, [], Some, IfOk, OnOk, OnErr, drop, min, ◌^◌, ◌-◌};
ghost use Rattle.std.specs.FinMap as map;
ghost use Rattle.lsm_vault.specs.Failures.{CountsFailures};
ghost use Rattle.lsm_vault.specs.Fuse.{Burns, fuse_failures};

use crate::{Vault, VaultError};
use bytes::Bytes;
use lsm_key::FileNumber;

/// A vault round another. It lets a number of calls pass, the next one reports `Device` and does nothing, and all later ones pass.
/// Every call but `failures` counts, those that only read too.
#[derive(Drop)]
pub struct FusedVault<V: Vault> {
    inside: V,
    // How many calls pass before the one that fails; none once that has come.
    left: Option<u64>,
}

impl<V: Vault> FusedVault<V> {
    /// A vault with what another one has, whose fuse lets this many calls pass.
    pub fn new(inside: V, calls: u64) -> FusedVault<V>
        ensures stored { ⟦<FusedVault<V> as Vault>⟧.stored result ≡ V.stored inside }
        ensures failures { ⟦<FusedVault<V> as Vault>⟧.failures result ≡ V.failures inside }
        ensures left { result.left ≡ Some calls }
    {
        FusedVault {
            inside,
            left: Some(calls),
        }
    }

    /// How many calls pass before the one that fails; none once that has come.
    pub fn left(&self) -> Option<u64>
        ensures { result ≡ self.now.left }
    {
        self.left
    }
}

// Counts a call. It fails if none is left.
fn count_call(left: &mut Option<u64>) -> Result<(), VaultError>
    ensures fuse { Burns left.old result left.new }
    ensures counted { CountsFailures result (fuse_failures left.old) (fuse_failures left.new) }
{
    match *left {
        None => Ok(()),
        Some(0) => {
            *left = None;
            Err(VaultError::Device)
        }
        Some(calls) => {
            *left = Some(calls - 1);
            Ok(())
        }
    }
}

// A method's clauses stand in place of the trait's, so each repeats those and adds what the fuse does.
#[tactic(auto, using(crate::proofs::FailureCounts::counted_beside))]
impl<V: Vault> Vault for FusedVault<V> {
    ghost stored = { λ v. V.stored v.inside };

    ghost failures = { λ v. V.failures v.inside + fuse_failures v.left };

    fn put_table(&mut self, number: FileNumber, table: Bytes) -> Result<(), VaultError>
        ensures ok { OnOk result (V.stored self.new.inside ≡ record (V.stored self.old.inside) { tables = map.insert (V.stored self.old.inside).tables number table }) }
        ensures err { OnErr result (V.stored self.new.inside ≡ V.stored self.old.inside) }
        ensures counted { CountsFailures result (V.failures self.old.inside + fuse_failures self.old.left) (V.failures self.new.inside + fuse_failures self.new.left) }
        ensures fuse { Burns self.old.left result self.new.left }
    {
        count_call(&mut self.left)?;
        self.inside.put_table(number, table)
    }

    fn remove_table(&mut self, number: FileNumber) -> Result<(), VaultError>
        ensures ok { OnOk result (V.stored self.new.inside ≡ record (V.stored self.old.inside) { tables = map.remove (V.stored self.old.inside).tables number }) }
        ensures err { OnErr result (V.stored self.new.inside ≡ V.stored self.old.inside) }
        ensures counted { CountsFailures result (V.failures self.old.inside + fuse_failures self.old.left) (V.failures self.new.inside + fuse_failures self.new.left) }
        ensures fuse { Burns self.old.left result self.new.left }
    {
        count_call(&mut self.left)?;
        self.inside.remove_table(number)
    }

    fn append_edit(&mut self, edit: Bytes) -> Result<(), VaultError>
        ensures ok { OnOk result (V.stored self.new.inside ≡ record (V.stored self.old.inside) { edits = (V.stored self.old.inside).edits ++ edit ∷ [] }) }
        ensures err { OnErr result (V.stored self.new.inside ≡ V.stored self.old.inside) }
        ensures counted { CountsFailures result (V.failures self.old.inside + fuse_failures self.old.left) (V.failures self.new.inside + fuse_failures self.new.left) }
        ensures fuse { Burns self.old.left result self.new.left }
    {
        count_call(&mut self.left)?;
        self.inside.append_edit(edit)
    }

    fn edits(&mut self) -> Result<Vec<Bytes>, VaultError>
        ensures ok { IfOk result (λ all. all.items ≡ (V.stored self.old.inside).edits) }
        ensures stays { V.stored self.new.inside ≡ V.stored self.old.inside }
        ensures counted { CountsFailures result (V.failures self.old.inside + fuse_failures self.old.left) (V.failures self.new.inside + fuse_failures self.new.left) }
        ensures fuse { Burns self.old.left result self.new.left }
    {
        count_call(&mut self.left)?;
        self.inside.edits()
    }

    fn table(&mut self, number: FileNumber) -> Result<Option<Bytes>, VaultError>
        ensures ok { IfOk result (λ found. found ≡ map.get (V.stored self.old.inside).tables number) }
        ensures stays { V.stored self.new.inside ≡ V.stored self.old.inside }
        ensures counted { CountsFailures result (V.failures self.old.inside + fuse_failures self.old.left) (V.failures self.new.inside + fuse_failures self.new.left) }
        ensures fuse { Burns self.old.left result self.new.left }
    {
        count_call(&mut self.left)?;
        self.inside.table(number)
    }

    fn numbers(&mut self) -> Result<Vec<FileNumber>, VaultError>
        ensures ok { IfOk result (λ all. all.items ≡ map.keys (V.stored self.old.inside).tables) }
        ensures stays { V.stored self.new.inside ≡ V.stored self.old.inside }
        ensures counted { CountsFailures result (V.failures self.old.inside + fuse_failures self.old.left) (V.failures self.new.inside + fuse_failures self.new.left) }
        ensures fuse { Burns self.old.left result self.new.left }
    {
        count_call(&mut self.left)?;
        self.inside.numbers()
    }

    fn append_log(&mut self, logged: Bytes) -> Result<(), VaultError>
        ensures ok { OnOk result (V.stored self.new.inside ≡ record (V.stored self.old.inside) { log = (V.stored self.old.inside).log ++ logged ∷ [] }) }
        ensures err { OnErr result (V.stored self.new.inside ≡ V.stored self.old.inside) }
        ensures counted { CountsFailures result (V.failures self.old.inside + fuse_failures self.old.left) (V.failures self.new.inside + fuse_failures self.new.left) }
        ensures fuse { Burns self.old.left result self.new.left }
    {
        count_call(&mut self.left)?;
        self.inside.append_log(logged)
    }

    fn log(&mut self) -> Result<Vec<Bytes>, VaultError>
        ensures ok { IfOk result (λ all. all.items ≡ (V.stored self.old.inside).log) }
        ensures stays { V.stored self.new.inside ≡ V.stored self.old.inside }
        ensures counted { CountsFailures result (V.failures self.old.inside + fuse_failures self.old.left) (V.failures self.new.inside + fuse_failures self.new.left) }
        ensures fuse { Burns self.old.left result self.new.left }
    {
        count_call(&mut self.left)?;
        self.inside.log()
    }

    fn cut_log(&mut self, count: usize) -> Result<(), VaultError>
        ensures ok { OnOk result (V.stored self.new.inside ≡ record (V.stored self.old.inside) { log = drop count (V.stored self.old.inside).log }) }
        ensures err { OnErr result (V.stored self.new.inside ≡ V.stored self.old.inside) }
        ensures counted { CountsFailures result (V.failures self.old.inside + fuse_failures self.old.left) (V.failures self.new.inside + fuse_failures self.new.left) }
        ensures fuse { Burns self.old.left result self.new.left }
    {
        count_call(&mut self.left)?;
        self.inside.cut_log(count)
    }

    fn sync_log(&mut self) -> Result<(), VaultError>
        ensures stays { V.stored self.new.inside ≡ V.stored self.old.inside }
        ensures counted { CountsFailures result (V.failures self.old.inside + fuse_failures self.old.left) (V.failures self.new.inside + fuse_failures self.new.left) }
        ensures fuse { Burns self.old.left result self.new.left }
    {
        count_call(&mut self.left)?;
        self.inside.sync_log()
    }

    fn failures(&self) -> u64 {
        match self.left {
            None => self.inside.failures().saturating_add(1),
            Some(_) => self.inside.failures(),
        }
    }
}
