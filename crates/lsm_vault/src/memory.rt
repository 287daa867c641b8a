//! A vault in memory: for tests, for simulated nodes, and for stores that need not outlive their process.

ghost use Rattle.std.specs.Prelude.{◌≡◌, drop};
ghost use Rattle.lsm_vault.specs.Stored.{empty_vault};

use crate::tables::Tables;
use crate::{Vault, VaultError};
use bytes::Bytes;
use lsm_key::FileNumber;
use std::alloc::Global;

/// A vault in memory. It has no device that could fail, so it never reports `Device`.
#[derive(Drop)]
pub struct MemoryVault {
    alloc: Global,
    edits: Vec<Bytes>,
    tables: Tables,
    log: Vec<Bytes>,
}

impl MemoryVault {
    /// A vault without edits, tables and log. Allocates nothing.
    pub fn new(alloc: Global) -> MemoryVault
        ensures { ⟦<MemoryVault as Vault>⟧.stored result ≡ empty_vault }
    {
        MemoryVault {
            alloc,
            edits: Vec::new(alloc),
            tables: Tables::new(alloc),
            log: Vec::new(alloc),
        }
    }
}

// Removes this many records, the first ones; all, where there are fewer. Takes no memory.
fn cut_first(log: &mut Vec<Bytes>, count: usize)
    ensures { log.new.items ≡ drop count log.old.items }
{
    let count = count.min(log.len());
    log.drain(..count);
}

impl Vault for MemoryVault {
    ghost stored = { λ v. record { edits = v.edits.items; tables = v.tables; log = v.log.items } };

    ghost failures = { λ _. 0 };

    fn put_table(&mut self, number: FileNumber, table: Bytes) -> Result<(), VaultError> {
        self.tables.insert(number, table)?;
        Ok(())
    }

    fn remove_table(&mut self, number: FileNumber) -> Result<(), VaultError> {
        self.tables.remove(number);
        Ok(())
    }

    fn append_edit(&mut self, edit: Bytes) -> Result<(), VaultError> {
        self.edits.push(edit)?;
        Ok(())
    }

    fn edits(&mut self) -> Result<Vec<Bytes>, VaultError> {
        Ok(self.edits.clone()?)
    }

    fn table(&mut self, number: FileNumber) -> Result<Option<Bytes>, VaultError> {
        Ok(self.tables.get(number)?)
    }

    fn numbers(&mut self) -> Result<Vec<FileNumber>, VaultError> {
        Ok(self.tables.numbers(self.alloc)?)
    }

    fn append_log(&mut self, logged: Bytes) -> Result<(), VaultError> {
        self.log.push(logged)?;
        Ok(())
    }

    fn log(&mut self) -> Result<Vec<Bytes>, VaultError> {
        Ok(self.log.clone()?)
    }

    fn cut_log(&mut self, count: usize) -> Result<(), VaultError> {
        cut_first(&mut self.log, count);
        Ok(())
    }

    fn sync_log(&mut self) -> Result<(), VaultError> {
        Ok(())
    }

    fn failures(&self) -> u64 {
        0
    }
}
