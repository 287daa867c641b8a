//! What every vault promises: the contract that a store stands on, whatever keeps the bytes.

ghost use Rattle.std.specs.Prelude.{◌≡◌, ◌++◌, ◌∷◌, [], ◌^◌, ◌-◌, ℕ, IfOk, OnOk, OnErr, drop, min};
ghost use Rattle.std.specs.FinMap as map;
ghost use Rattle.lsm_vault.specs.Failures.{CountsFailures};
ghost use Rattle.lsm_vault.specs.Stored.{VaultValue};

use crate::VaultError;
use bytes::Bytes;
use lsm_key::FileNumber;

/// What outlives a restart: the edits and the records of the log, each in the order in which they were appended, and the tables by file
/// number. Each call happens whole or not at all, and the bytes are shared, never copied.
///
/// A call reports `Device` only if the count of failures rose in it. The count never falls.
pub trait Vault {
    ghost stored: { Self → VaultValue };

    ghost failures: { Self → ℕ };

    /// Stores a table under a number. One that the number had is replaced.
    fn put_table(&mut self, number: FileNumber, table: Bytes) -> Result<(), VaultError>
        ensures ok { OnOk result (stored self.new ≡ record (stored self.old) { tables = map.insert (stored self.old).tables number table }) }
        ensures err { OnErr result (stored self.new ≡ stored self.old) }
        ensures counted { CountsFailures result (failures self.old) (failures self.new) };

    /// Removes the table of a number, if there is one.
    fn remove_table(&mut self, number: FileNumber) -> Result<(), VaultError>
        ensures ok { OnOk result (stored self.new ≡ record (stored self.old) { tables = map.remove (stored self.old).tables number }) }
        ensures err { OnErr result (stored self.new ≡ stored self.old) }
        ensures counted { CountsFailures result (failures self.old) (failures self.new) };

    /// Adds an edit after the others.
    fn append_edit(&mut self, edit: Bytes) -> Result<(), VaultError>
        ensures ok { OnOk result (stored self.new ≡ record (stored self.old) { edits = (stored self.old).edits ++ edit ∷ [] }) }
        ensures err { OnErr result (stored self.new ≡ stored self.old) }
        ensures counted { CountsFailures result (failures self.old) (failures self.new) };

    /// The edits, in the order in which they were appended.
    fn edits(&mut self) -> Result<Vec<Bytes>, VaultError>
        ensures ok { IfOk result (λ all. all.items ≡ (stored self.old).edits) }
        ensures stays { stored self.new ≡ stored self.old }
        ensures counted { CountsFailures result (failures self.old) (failures self.new) };

    /// The table of a number, if there is one.
    fn table(&mut self, number: FileNumber) -> Result<Option<Bytes>, VaultError>
        ensures ok { IfOk result (λ found. found ≡ map.get (stored self.old).tables number) }
        ensures stays { stored self.new ≡ stored self.old }
        ensures counted { CountsFailures result (failures self.old) (failures self.new) };

    /// The numbers of the tables, ascending.
    fn numbers(&mut self) -> Result<Vec<FileNumber>, VaultError>
        ensures ok { IfOk result (λ all. all.items ≡ map.keys (stored self.old).tables) }
        ensures stays { stored self.new ≡ stored self.old }
        ensures counted { CountsFailures result (failures self.old) (failures self.new) };

    /// Adds a record to the log, after the others.
    fn append_log(&mut self, logged: Bytes) -> Result<(), VaultError>
        ensures ok { OnOk result (stored self.new ≡ record (stored self.old) { log = (stored self.old).log ++ logged ∷ [] }) }
        ensures err { OnErr result (stored self.new ≡ stored self.old) }
        ensures counted { CountsFailures result (failures self.old) (failures self.new) };

    /// The records of the log, in the order in which they were appended.
    fn log(&mut self) -> Result<Vec<Bytes>, VaultError>
        ensures ok { IfOk result (λ all. all.items ≡ (stored self.old).log) }
        ensures stays { stored self.new ≡ stored self.old }
        ensures counted { CountsFailures result (failures self.old) (failures self.new) };

    /// Removes this many records of the log, the first ones; all, where there are fewer.
    fn cut_log(&mut self, count: usize) -> Result<(), VaultError>
        ensures ok { OnOk result (stored self.new ≡ record (stored self.old) { log = drop count (stored self.old).log }) }
        ensures err { OnErr result (stored self.new ≡ stored self.old) }
        ensures counted { CountsFailures result (failures self.old) (failures self.new) };

    /// Makes the records of the log durable, where it was not done as each was appended: once it is `Ok`, all of them outlive what the
    /// vault outlives, but for those that a refused `cut_log` was to remove. After a refusal those that were appended since the last
    /// such call may not.
    fn sync_log(&mut self) -> Result<(), VaultError>
        ensures stays { stored self.new ≡ stored self.old }
        ensures counted { CountsFailures result (failures self.old) (failures self.new) };

    /// How often the device failed. The number saturates: of a count past the greatest `u64` it is that.
    fn failures(&self) -> u64
        ensures { result ≡ min (failures self.now) (2 ^ 64 - 1) };
}
