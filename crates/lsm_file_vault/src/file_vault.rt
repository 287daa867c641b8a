//! The vault over a folder: it keeps the contract of `Vault`, and leaves each call on files to the folder.

ghost use Rattle.std.specs.Prelude.{◌≡◌, ◌++◌, ◌∷◌, [], drop, IsErr, OnErr, OnOk};
ghost use Rattle.lsm_vault.specs.Failures.{CountsFailures};

use crate::Folder;
use bytes::Bytes;
use lsm_key::FileNumber;
use lsm_vault::{Tables, Vault, VaultError};
use std::alloc::Global;
use std::io;

/// A vault whose tables, edits and log are in a folder and also in memory, from which they are read: the bytes of a table are shared
/// with who reads it. So a read never fails for the folder, and a change that the folder refused is not seen.
///
/// Invariant: the tables, the edits and the log in memory are those that the calls on the folder left which returned `Ok`.
#[derive(Drop)]
pub struct FileVault<F: Folder> {
    alloc: Global,
    folder: F,
    tables: Tables,
    edits: Vec<Bytes>,
    log: Vec<Bytes>,
    failures: u64,
    ghost same_tables: { tables ≡ F.tables folder },
    ghost same_edits: { edits.items ≡ F.edits folder },
    ghost same_log: { log.items ≡ F.log folder },
}

impl<F: Folder> FileVault<F> {
    /// A vault over a folder that has these tables, edits and log records. No failure is counted yet.
    pub fn new(
        alloc: Global,
        folder: F,
        tables: Tables,
        edits: Vec<Bytes>,
        log: Vec<Bytes>,
    ) -> FileVault<F>
        requires same_tables { tables ≡ F.tables folder }
        requires same_edits { edits.items ≡ F.edits folder }
        requires same_log { log.items ≡ F.log folder }
        ensures stored { ⟦<FileVault<F> as Vault>⟧.stored result ≡ record { edits = F.edits folder; tables = F.tables folder; log = F.log folder } }
        ensures failures { ⟦<FileVault<F> as Vault>⟧.failures result ≡ 0 }
        ensures folder { result.folder ≡ folder }
    {
        FileVault {
            alloc,
            folder,
            tables,
            edits,
            log,
            failures: 0,
        }
    }
}

// Reports why the folder refused a call. A failure of the device is counted first; a count at its greatest value can't tell of one more.
fn refusal<T>(failures: &mut u64, error: io::Error) -> Result<T, VaultError>
    ensures err { IsErr result }
    ensures counted { CountsFailures result failures.old failures.new }
{
    if error.kind() == io::ErrorKind::OutOfMemory {
        return Err(VaultError::OutOfMemory);
    }
    match failures.checked_add(1) {
        Some(count) => {
            *failures = count;
            Err(VaultError::Device)
        }
        None => Err(VaultError::OutOfMemory),
    }
}

// The records without this many of the first ones; none, if there are fewer.
fn left_after(log: &[Bytes], count: usize) -> &[Bytes]
    ensures { result.now ≡ drop count log.now }
{
    &log[count.min(log.len())..]
}

// Removes this many records, the first ones; all, if there are fewer. Takes no memory.
fn cut_first(log: &mut Vec<Bytes>, count: usize)
    ensures { log.new.items ≡ drop count log.old.items }
{
    let count = count.min(log.len());
    log.drain(..count);
}

#[tactic(auto, using(lsm_vault::proofs::Restoring::put_restored))]
impl<F: Folder> Vault for FileVault<F> {
    ghost stored = { λ v. record { edits = F.edits v.folder; tables = F.tables v.folder; log = F.log v.folder } };

    ghost failures = { λ v. v.failures };

    fn put_table(&mut self, number: FileNumber, table: Bytes) -> Result<(), VaultError> {
        let shared = table.clone()?;
        // Memory first, since that can be undone.
        let before = self.tables.insert(number, shared)?;
        match self.folder.put_table(number, &table) {
            Ok(()) => Ok(()),
            Err(error) => {
                self.tables.put_back(number, before);
                refusal(&mut self.failures, error)
            }
        }
    }

    fn remove_table(&mut self, number: FileNumber) -> Result<(), VaultError> {
        match self.folder.remove_table(number) {
            Ok(()) => {
                self.tables.remove(number);
                Ok(())
            }
            Err(error) => refusal(&mut self.failures, error),
        }
    }

    fn append_edit(&mut self, edit: Bytes) -> Result<(), VaultError>
        ensures ok { OnOk result (⟦<FileVault<F> as Vault>⟧.stored self.new ≡ record (⟦<FileVault<F> as Vault>⟧.stored self.old) { edits = F.edits self.old.folder ++ edit ∷ [] }) }
        ensures err { OnErr result (⟦<FileVault<F> as Vault>⟧.stored self.new ≡ ⟦<FileVault<F> as Vault>⟧.stored self.old) }
        ensures counted { CountsFailures result self.old.failures self.new.failures }
        ensures synced { OnOk result (F.is_synced self.new.folder) }
    {
        self.edits.reserve(1)?;
        match self.folder.append_edit(&edit) {
            Ok(()) => {
                self.edits.push_reserved(edit);
                Ok(())
            }
            Err(error) => refusal(&mut self.failures, error),
        }
    }

    fn edits(&mut self) -> Result<Vec<Bytes>, VaultError> {
        Ok(self.edits.clone()?)
    }

    fn table(&mut self, number: FileNumber) -> Result<Option<Bytes>, VaultError> {
        Ok(self.tables.get(number)?)
    }

    fn numbers(&mut self) -> Result<Vec<FileNumber>, VaultError> {
        Ok(self.tables.numbers(self.alloc)?)
    }

    fn append_log(&mut self, logged: Bytes) -> Result<(), VaultError> {
        self.log.reserve(1)?;
        match self.folder.append_log(&logged) {
            Ok(()) => {
                self.log.push_reserved(logged);
                Ok(())
            }
            Err(error) => refusal(&mut self.failures, error),
        }
    }

    fn log(&mut self) -> Result<Vec<Bytes>, VaultError> {
        Ok(self.log.clone()?)
    }

    fn cut_log(&mut self, count: usize) -> Result<(), VaultError> {
        match self
            .folder
            .cut_log(count, left_after(self.log.as_slice(), count))
        {
            Ok(()) => {
                cut_first(&mut self.log, count);
                Ok(())
            }
            Err(error) => refusal(&mut self.failures, error),
        }
    }

    fn sync_log(&mut self) -> Result<(), VaultError>
        ensures stays { ⟦<FileVault<F> as Vault>⟧.stored self.new ≡ ⟦<FileVault<F> as Vault>⟧.stored self.old }
        ensures counted { CountsFailures result self.old.failures self.new.failures }
        ensures synced { OnOk result (F.is_synced self.new.folder) }
    {
        match self.folder.sync_log() {
            Ok(()) => Ok(()),
            Err(error) => refusal(&mut self.failures, error),
        }
    }

    fn failures(&self) -> u64 {
        self.failures
    }
}
