//! The version set: the current version with its tables, the vault with the edits that made it, and the files that versions from
//! the floor on have and the current one lacks.

ghost use Rattle.std.specs.Prelude.{◌≡◌, ◌+◌, ◌<◌, ◌≤◌, ◌++◌, ◌∷◌, List, [], None, Some, IfErr, IfOk, IfSome, OnOk, OnErr, drop, slice_get};
ghost use Rattle.std.specs.Option.{option_copied};
ghost use Rattle.lsm_key.specs.declared.entry.Entry.{Entry};
ghost use Rattle.lsm_key.specs.Places.{first_visible};
ghost use Rattle.lsm_table.specs.Tables.{IsTable};
ghost use Rattle.lsm_edit.specs.Edit.{IsEdit};
ghost use Rattle.lsm_edit.specs.Served.{AreAsRecorded, IsServed, placed_of, tables_of};
ghost use Rattle.lsm_edit.specs.Version.{IsVersion, apply_fault};
ghost use Rattle.lsm_vault.specs.Failures.{CountsFailures};
ghost use Rattle.lsm_versions.specs.Cached.{CopiesValue};
ghost use Rattle.lsm_versions.specs.Manifest.{IsVersionSet, MayHavePut, after_logging, after_trimming, read_edits};
ghost use Rattle.lsm_versions.specs.Kept.{IsTableOf, StaysApart};
ghost use Rattle.lsm_versions.specs.Opening.{CountsRefusal, EpochRefused, IsNextEpoch, IsRecoverable, MayHaveDropped, MayHaveLost, OpenRefuses, Opens, RecoverRefuses, is_live, is_live_file, obsolete_tables, without_obsolete};
ghost use Rattle.lsm_versions.specs.declared.error.OpenError.TheVariants.{NumbersExhausted};
ghost use Rattle.lsm_versions.specs.Retention.{bytes_at};

use crate::OpenError;
use crate::cached::{new_cache, value_through};
use crate::opening::{edit_of, recover};
use crate::putting::{number_tables, remove_obsolete, store};
use crate::recent::{edits_below, let_go, push_recent};
use crate::recovered::Recovered;
use crate::retired::{Retired, put_retired, retired_by, retired_bytes};
use bytes::Bytes;
use lsm_cache::BlockCache;
use lsm_edit::{Edit, Served, Version, encode_edit};
use lsm_key::{FileNumber, MAX_NUMBER, Seq, VersionNumber};
use lsm_table::Table;
use lsm_vault::{Vault, VaultError};
use std::alloc::{AllocError, Global};
use std::marker::Model;

/// The current version with its tables; the vault, whose edits are the manifest; and the retired files, by number.
///
/// Invariant: the manifest replays to the current version, the retired files are those that some version from the floor on lists and the current
/// one lacks, and the vault has the tables of all of them. The recent edits are those of the manifest from the floor on. The cache holds blocks
/// of the current version's tables alone.
#[derive(Drop)]
pub struct VersionSet<V: Vault> {
    alloc: Global,
    current: Served,
    vault: V,
    floor: VersionNumber,
    retired: Vec<Retired>,
    // They share the bytes that were appended to the vault.
    recent: Vec<Bytes>,
    cache: BlockCache,
}

impl<V: Vault> Model for VersionSet<V> {
    ghost use Rattle.std.specs.Coded.{codes};
    ghost use Rattle.std.specs.Prelude.{◌≡◌};
    ghost use Rattle.lsm_vault.specs.Stored.{vault_code};
    ghost use Rattle.lsm_versions.specs.Cached.{HoldsAll};
    ghost use Rattle.lsm_versions.specs.Manifest.{IsVersionSet, VersionSetValue, edits_from};

    ghost Value = { VersionSetValue };

    ghost coded = { Prim.hlevel (codes, vault_code) };

    ghost view = { λ v. record { served = v.current; stored = V.stored v.vault; retired = v.retired.items; floor = v.floor; failures = V.failures v.vault } };

    ghost invariant = { λ v. IsVersionSet (record { served = v.current; stored = V.stored v.vault; retired = v.retired.items; floor = v.floor; failures = V.failures v.vault }) × (v.recent.items ≡ edits_from v.floor (V.stored v.vault).edits) × HoldsAll v.current.places v.cache };
}

impl<V: Vault> VersionSet<V> {
    /// Opens what a vault has: recovers it, and begins the next epoch. A refusal hands the vault back, whose edits and log are as
    /// before; some tables that no file of the version needs may be gone.
    pub fn open(alloc: Global, vault: V) -> Result<VersionSet<V>, (OpenError, V)>
        ensures ok { IfOk result (Opens (V.stored vault)) }
        ensures failures { IfOk result (λ v. V.failures vault ≤ v.failures) }
        ensures refused { IfErr result (λ e. OpenRefuses (V.stored vault) e.0) }
        ensures left { IfErr result (λ e. MayHaveDropped e.0 (V.stored vault) (V.stored e.1)) }
        ensures counted { IfErr result (λ e. CountsRefusal e.0 (V.failures vault) (V.failures e.1)) }
    {
        match VersionSet::recover(alloc, vault) {
            Ok(recovered) => recovered.begin(),
            Err(refused) => Err(refused),
        }
    }

    /// Reads what a vault has: replays its edits, and reads the tables of the version that they make. Changes nothing; a refusal
    /// hands the vault back.
    pub fn recover(alloc: Global, vault: V) -> Result<Recovered<V>, (OpenError, V)>
        ensures ok { IfOk result (λ recovered. recovered.stored ≡ V.stored vault) }
        ensures whole { OnOk result (IsRecoverable (V.stored vault)) }
        ensures failures { IfOk result (λ recovered. V.failures vault ≤ recovered.failures) }
        ensures refused { IfErr result (λ e. RecoverRefuses (V.stored vault) e.0) }
        ensures left { IfErr result (λ e. V.stored e.1 ≡ V.stored vault) }
        ensures counted { IfErr result (λ e. CountsRefusal e.0 (V.failures vault) (V.failures e.1)) }
    {
        let mut vault = vault;
        let cache = match new_cache(alloc) {
            Ok(cache) => cache,
            Err(_) => return Err((OpenError::OutOfMemory, vault)),
        };
        let (current, recent) = match recover(alloc, &mut vault) {
            Ok(recovered) => recovered,
            Err(why) => return Err((why, vault)),
        };
        let floor = current.listing().number;
        let versions = VersionSet {
            alloc,
            current,
            vault,
            floor,
            retired: Vec::new(alloc),
            recent,
            cache,
        };
        Ok(Recovered::of(versions))
    }

    /// Logs the edit of the next epoch, once all tables are removed that no file of the version needs, and raises the floor
    /// to the version after it.
    pub(crate) fn begin_epoch(&mut self) -> Result<(), OpenError>
        requires { self.old.retired ≡ [] }
        ensures ok { OnOk result (IsNextEpoch self.old self.new) }
        ensures refused { IfErr result (EpochRefused self.old.served.version) }
        ensures err { OnErr result (self.new ≡ record self.old { stored = record self.old.stored { tables = self.new.stored.tables }; failures = self.new.failures }) }
        ensures lost { OnErr result (MayHaveLost (is_live_file self.old.served.version.files []) self.old.stored.tables self.new.stored.tables) }
        ensures exhausted { IfErr result (λ e. e ≡ NumbersExhausted → self.new ≡ self.old) }
        ensures failures { self.old.failures ≤ self.new.failures }
        ensures counted { IfErr result (λ e. CountsRefusal e self.old.failures self.new.failures) }
    {
        let version = self.current.version();
        if version.number() >= MAX_NUMBER || version.epoch() >= MAX_NUMBER {
            return Err(OpenError::NumbersExhausted);
        }
        let edit = Edit::epoch(self.alloc, version);
        self.remove_obsolete()?;
        self.log_and_apply(&edit, Vec::new(self.alloc))?;
        let floor = VersionNumber::new(self.current.version().number());
        let_go(&mut self.recent, self.floor, floor);
        self.floor = floor;
        Ok(())
    }

    // Removes the tables that neither a file of the version nor a retired one needs. Returns their numbers, ascending.
    fn remove_obsolete(&mut self) -> Result<Vec<FileNumber>, VaultError>
        ensures removed { IfOk result (λ removed. removed.items ≡ obsolete_tables self.old) }
        ensures ok { OnOk result (self.new ≡ record (without_obsolete self.old) { failures = self.new.failures }) }
        ensures rest { self.new ≡ record self.old { stored = record self.old.stored { tables = self.new.stored.tables }; failures = self.new.failures } }
        ensures lost { MayHaveLost (is_live self.old) self.old.stored.tables self.new.stored.tables }
        ensures counted { CountsFailures result self.old.failures self.new.failures }
    {
        // Proof hint: the places are the version's files.
        let _places = self.current.places();
        remove_obsolete(&mut self.vault, self.current.version(), &self.retired)
    }

    /// The current version with its tables.
    pub fn served(&self) -> &Served
        ensures served { result.now ≡ self.now.served }
        ensures set { IsVersionSet self.now }
        ensures sound { IsServed self.now.served × IsVersion self.now.served.version }
    {
        // Proof hint: the invariants of the version and of its places.
        let _places = self.current.places();
        &self.current
    }

    /// The current version.
    pub fn version(&self) -> &Version
        ensures { result.now ≡ self.now.served.version }
    {
        self.current.version()
    }

    /// The least version whose files are served.
    pub fn floor(&self) -> VersionNumber
        ensures { result ≡ self.now.floor }
    {
        self.floor
    }

    /// A copy of the value that a read of the key at the sequence finds in the current version's tables: none, if no table has an
    /// entry of it that is seen, or the first one that has one has a deletion. It is read through the cache. An error is the copy's.
    pub fn value(&mut self, key: &[u8], at: Seq) -> Result<Option<Bytes>, AllocError>
        ensures copied { CopiesValue (first_visible (tables_of self.old.served.places) key.now at) result }
        ensures same { self.new ≡ self.old }
    {
        value_through(&self.current, &mut self.cache, self.alloc, key, at)
    }

    /// The bytes of a file that the current version lists or that is retired. They are a table's.
    pub fn bytes_of(&self, number: u64) -> Option<&Bytes>
        ensures bytes { option_copied result ≡ bytes_at self.now.served.places self.now.retired number }
        ensures sound { IfSome result (λ bytes. (entries : List Entry) × IsTable bytes.now entries) }
    {
        match self.current.table(number) {
            Some(table) => Some(table.bytes()),
            None => retired_bytes(&self.retired, number),
        }
    }

    /// The edits of the manifest, from the first on, as the vault has them. They share the bytes.
    pub fn edits(&mut self) -> Result<Vec<Bytes>, VaultError>
        ensures ok { IfOk result (λ edits. edits.items ≡ self.old.stored.edits) }
        ensures same { self.new ≡ record self.old { failures = self.new.failures } }
        ensures counted { CountsFailures result self.old.failures self.new.failures }
    {
        self.vault.edits()
    }

    /// The records of the vault's log, in the order in which they were appended. They share the bytes.
    pub(crate) fn log(&mut self) -> Result<Vec<Bytes>, VaultError>
        ensures ok { IfOk result (λ records. records.items ≡ self.old.stored.log) }
        ensures same { self.new ≡ record self.old { failures = self.new.failures } }
        ensures counted { CountsFailures result self.old.failures self.new.failures }
    {
        self.vault.log()
    }

    /// Adds a record to the vault's log, after the others. Whether it is one, and follows them, is the caller's to see.
    pub fn append_log(&mut self, logged: Bytes) -> Result<(), VaultError>
        ensures ok { OnOk result (self.new ≡ record self.old { stored = record self.old.stored { log = self.old.stored.log ++ logged ∷ [] }; failures = self.new.failures }) }
        ensures err { OnErr result (self.new ≡ record self.old { failures = self.new.failures }) }
        ensures counted { CountsFailures result self.old.failures self.new.failures }
    {
        self.vault.append_log(logged)
    }

    /// Removes this many records of the vault's log, the first ones; all, where there are fewer.
    pub fn cut_log(&mut self, count: usize) -> Result<(), VaultError>
        ensures ok { OnOk result (self.new ≡ record self.old { stored = record self.old.stored { log = drop count self.old.stored.log }; failures = self.new.failures }) }
        ensures err { OnErr result (self.new ≡ record self.old { failures = self.new.failures }) }
        ensures counted { CountsFailures result self.old.failures self.new.failures }
    {
        self.vault.cut_log(count)
    }

    /// Makes the records of the vault's log durable, where the vault did not as each was appended.
    pub fn sync_log(&mut self) -> Result<(), VaultError>
        ensures same { self.new ≡ record self.old { failures = self.new.failures } }
        ensures counted { CountsFailures result self.old.failures self.new.failures }
    {
        self.vault.sync_log()
    }

    /// The edit that makes the version after this one, from the floor on. It is within the grammar.
    pub fn edit_after(&self, number: VersionNumber) -> Result<Edit, AllocError>
        requires from { self.now.floor ≤ number + 1 }
        requires below { number < self.now.served.version.number }
        ensures next { IfOk result (λ e. slice_get (read_edits self.now.stored.edits) number ≡ Some e) }
        ensures sound { IfOk result IsEdit }
    {
        let at = number.number() as usize - edits_below(self.floor);
        let Some(edit) = edit_of(self.alloc, &self.recent[at])? else {
            unreachable!()
        };
        Ok(edit)
    }

    /// Raises the floor to a version, unless it is higher, lets the retired files go that no version from it on lists, and removes
    /// the tables of all files that are not live. Returns their numbers, ascending. A refusal leaves the floor raised; some of
    /// these tables may be gone, and the next trim or opening removes the rest.
    pub fn trim(&mut self, to: VersionNumber) -> Result<Vec<FileNumber>, VaultError>
        requires { to ≤ self.old.served.version.number }
        ensures removed { IfOk result (λ removed. removed.items ≡ obsolete_tables (after_trimming self.old to)) }
        ensures ok { OnOk result (self.new ≡ record (without_obsolete (after_trimming self.old to)) { failures = self.new.failures }) }
        ensures rest { self.new ≡ record (after_trimming self.old to) { stored = record self.old.stored { tables = self.new.stored.tables }; failures = self.new.failures } }
        ensures lost { MayHaveLost (is_live (after_trimming self.old to)) self.old.stored.tables self.new.stored.tables }
        ensures counted { CountsFailures result self.old.failures self.new.failures }
    {
        let floor = self.floor.max(to);
        self.retired.retain(|file| file.until >= floor);
        let_go(&mut self.recent, self.floor, floor);
        self.floor = floor;
        self.remove_obsolete()
    }

    /// Stores the tables of the files that an edit adds, by number, then logs the edit, which is known to apply, and becomes the
    /// version after it. The files that it removes retire. A refusal changes nothing but that some of these tables may be stored.
    pub fn log_and_apply(&mut self, edit: &Edit, tables: Vec<Table>) -> Result<(), VaultError>
        requires sound { IsEdit edit.now }
        requires recorded { AreAsRecorded edit.now.added tables.items }
        requires applies { apply_fault self.old.served.version edit.now ≡ None }
        ensures ok { OnOk result (self.new ≡ record (after_logging self.old edit.now tables.items) { failures = self.new.failures }) }
        ensures err { OnErr result (MayHavePut (IsTableOf (placed_of edit.now.added tables.items)) self.old self.new) }
        ensures apart { OnErr result (StaysApart edit.now.added self.old.stored.tables self.new.stored.tables) }
        ensures counted { CountsFailures result self.old.failures self.new.failures }
    {
        let bytes = encode_edit(self.alloc, edit)?;
        let retiring = retired_by(self.alloc, self.served(), edit)?;
        let recent = bytes.clone()?;
        self.retired.reserve(retiring.len())?;
        self.recent.reserve(1)?;
        let Ok(prepared) = self.current.prepare(edit, tables) else {
            return Err(VaultError::OutOfMemory);
        };
        let numbered = number_tables(self.alloc, edit.added.as_slice(), prepared.tables())?;
        store(&mut self.vault, numbered, bytes)?;
        self.current.take_up(prepared);
        // Its blocks were those of the version before.
        self.cache.clear();
        put_retired(&mut self.retired, retiring);
        push_recent(&mut self.recent, recent);
        Ok(())
    }

    /// Ends it, and hands the vault back.
    pub fn close(self) -> V
        ensures vault { V.stored result ≡ self.stored }
        ensures failures { V.failures result ≡ self.failures }
    {
        let VersionSet {
            alloc: _,
            current: _,
            vault,
            floor: _,
            retired: _,
            recent: _,
            cache: _,
        } = self;
        vault
    }
}
