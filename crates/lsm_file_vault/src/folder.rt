//! What a vault asks of the folder that keeps its data.

ghost use Rattle.std.specs.Prelude.{◌≡◌, ℕ, ◌++◌, ◌∷◌, [], List, OnOk, drop, is_ok, if◌then◌else◌};
ghost use Rattle.std.specs.FinMap as map;
ghost use Rattle.lsm_vault.specs.Stored.{TableMap};

use bytes::Bytes;
use lsm_key::FileNumber;
use std::io;

/// A folder of tables by file number, and of edits and log records in the order in which they were appended. `tables`, `edits` and
/// `log` are what the calls leave that returned `Ok`: a call that was refused counts as not made.
pub trait Folder {
    ghost tables: { Self → TableMap };

    ghost edits: { Self → List (List ℕ) };

    ghost log: { Self → List (List ℕ) };

    /// Each record of the log outlives a power cut.
    ghost is_synced: { Self → Type 0 };

    /// Stores a table under a number so that it outlives the process, in place of the one that the number had.
    fn put_table(&mut self, number: FileNumber, table: &Bytes) -> io::Result<()>
        ensures tables { tables self.new ≡ (if is_ok result then map.insert (tables self.old) number table.now else tables self.old) }
        ensures edits { edits self.new ≡ edits self.old }
        ensures log { log self.new ≡ log self.old };

    /// Removes the table of a number, if there is one.
    fn remove_table(&mut self, number: FileNumber) -> io::Result<()>
        ensures tables { tables self.new ≡ (if is_ok result then map.remove (tables self.old) number else tables self.old) }
        ensures edits { edits self.new ≡ edits self.old }
        ensures log { log self.new ≡ log self.old };

    /// Adds an edit after the others so that it outlives the process. The log is synced before.
    fn append_edit(&mut self, edit: &Bytes) -> io::Result<()>
        ensures edits { edits self.new ≡ (if is_ok result then edits self.old ++ edit.now ∷ [] else edits self.old) }
        ensures synced { OnOk result (is_synced self.new) }
        ensures tables { tables self.new ≡ tables self.old }
        ensures log { log self.new ≡ log self.old };

    /// Adds a record to the log, after the others, so that it outlives the process, at the latest once `sync_log` has returned `Ok`.
    fn append_log(&mut self, logged: &Bytes) -> io::Result<()>
        ensures log { log self.new ≡ (if is_ok result then log self.old ++ logged.now ∷ [] else log self.old) }
        ensures tables { tables self.new ≡ tables self.old }
        ensures edits { edits self.new ≡ edits self.old };

    /// Removes the first `count` records of the log, all if there are fewer, so that those that are left outlive the process. A folder
    /// keeps no record in memory, so it is told which are left.
    fn cut_log(&mut self, count: usize, left: &[Bytes]) -> io::Result<()>
        requires left { left.now ≡ drop count (log self.old) }
        ensures log { log self.new ≡ (if is_ok result then drop count (log self.old) else log self.old) }
        ensures tables { tables self.new ≡ tables self.old }
        ensures edits { edits self.new ≡ edits self.old };

    /// Makes the records of the log outlive a power cut, those that do not yet.
    fn sync_log(&mut self) -> io::Result<()>
        ensures synced { OnOk result (is_synced self.new) }
        ensures log { log self.new ≡ log self.old }
        ensures tables { tables self.new ≡ tables self.old }
        ensures edits { edits self.new ≡ edits self.old };
}
