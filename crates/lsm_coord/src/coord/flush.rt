//! Flushes: a memtable becomes a table.

ghost use Rattle.std.specs.Prelude.{◌≡◌, ◌<◌, ◌≤◌, None, IfErr, IfSome, OnOk, OnErr};
ghost use Rattle.lsm_table.specs.Tables.{target_of};
ghost use Rattle.lsm_edit.specs.File.{IsFile};
ghost use Rattle.lsm_edit.specs.Log.{read_records};
ghost use Rattle.lsm_edit.specs.Served.{IsAsRecorded};
ghost use Rattle.lsm_vault.specs.Failures.{CountsFailures};
ghost use Rattle.lsm_versions.specs.Manifest.{MayHavePut};
ghost use Rattle.lsm_coord.specs.Model.Event.{Flush};
ghost use Rattle.lsm_coord.specs.Contract.Shows.{Follows};
ghost use Rattle.lsm_coord.specs.Contract.Calls.{Adds, AddsTable, FlushRefuses, IsFlushTable, MayHaveStored, flush_fault, flush_source};
ghost use Rattle.lsm_coord.specs.Contract.Logs.{records_upto};
ghost use Rattle.lsm_coord.specs.Contract.Sound.{KeepsSound};
ghost use Rattle.lsm_coord.specs.Contract.Replies.{flush_reply};
ghost use Rattle.lsm_coord.specs.Inner.Putting.{AddsFile, CanNumber, IsTableOfFile};

use super::Coord;
use super::logging::cut_log;
use crate::CoordError;
use lsm_edit::{Edit, FileMeta};
use lsm_key::{FileNumber, MAX_NUMBER, Seq, VersionNumber};
use lsm_mem::Memtable;
use lsm_table::Table;
use lsm_vault::{Vault, VaultError};
use lsm_versions::VersionSet;
use std::alloc::Global;

/// What a flush produced.
#[derive(Clone, Copy, Debug, PartialEq, Eq)]
pub struct Flushed {
    /// The version that it made.
    pub number: VersionNumber,
    /// Every write up to this sequence is in the version's tables.
    pub seq: Seq,
    /// The new table's file number.
    pub file: FileNumber,
}

impl<V: Vault> Coord<V> {
    /// Turns the frozen memtable, or the active one if none is frozen, into a table of level 0 in the next version: the vault gets
    /// the table first, and then the edit; after it the records of that memtable are cut from the log, where the vault does so. A
    /// refusal changes nothing, but that the vault may have the table; a later flush puts one under the same number.
    pub fn flush(&mut self) -> Result<Flushed, CoordError>
        ensures step { Follows self.old Flush (flush_reply result) self.new }
        ensures ok { OnOk result ((flush_fault self.old ≡ None) × Adds self.old self.new) }
        ensures refused { IfErr result (λ e. FlushRefuses self.old e self.new) }
        ensures failures { self.old.failures ≤ self.new.failures }
        ensures sound { KeepsSound self.old self.new }
    {
        match self.flush_fault() {
            Some(why) => return Err(why),
            None => {}
        }
        let number = self.versions.version().number() + 1;
        let file = self.versions.version().next_file();
        let seq = self.flush_end();
        let table = self.flushable().table(self.alloc, self.limits.block)?;
        let meta = FileMeta::of_table(file, 0, &table)?;
        self.add_table(meta, table, seq)?;
        Ok(Flushed {
            number: VersionNumber::new(number),
            seq,
            file: FileNumber::new(file),
        })
    }

    // Why nothing can be flushed, if nothing can.
    fn flush_fault(&self) -> Option<CoordError>
        ensures { result ≡ flush_fault self.now }
    {
        if self.frozen.is_none() && self.active.is_empty() {
            return Some(CoordError::NothingToFlush);
        }
        let version = self.versions.version();
        if version.number() >= MAX_NUMBER || version.next_file() >= MAX_NUMBER {
            return Some(CoordError::NumbersExhausted);
        }
        None
    }

    // The memtable that a flush takes.
    fn flushable(&self) -> &Memtable
        ensures { result.now ≡ (flush_source self.now).memtable }
    {
        match &self.frozen {
            Some(frozen) => &frozen.memtable,
            None => &self.active,
        }
    }

    // Its last sequence.
    fn flush_end(&self) -> Seq
        ensures { result ≡ (flush_source self.now).end }
    {
        match &self.frozen {
            Some(frozen) => frozen.end,
            None => self.newest,
        }
    }

    // How many first records of the log have what a flush takes, if it is known.
    fn flush_records(&self) -> Option<usize>
        ensures { IfSome result (λ n. n ≡ records_upto (flush_source self.now).end (read_records self.now.stored.log)) }
    {
        match &self.frozen {
            Some(_) => self.frozen_upto,
            None => self.logged,
        }
    }

    // Adds a table with the entries of the memtable that a flush takes, which goes, from the log too. After a refusal the vault may
    // have the table.
    fn add_table(&mut self, meta: FileMeta, table: Table, end: Seq) -> Result<(), VaultError>
        requires room { CanNumber self.old.served.version }
        requires end { end ≡ (flush_source self.old).end }
        requires newer { self.old.served.version.flushed < end }
        requires sound { IsFile meta }
        requires place { (meta.number ≡ self.old.served.version.next_file) × (meta.level ≡ 0) }
        requires recorded { IsAsRecorded meta table }
        requires whole { table.entries ≡ (flush_source self.old).memtable }
        requires cut { target_of table.bytes ≡ self.old.limits.block }
        ensures ok { OnOk result (AddsTable self.old meta table self.new) }
        ensures sound { OnOk result (KeepsSound self.old self.new) }
        ensures err { OnErr result (MayHaveStored (IsFlushTable self.old) self.old self.new) }
        ensures counted { CountsFailures result self.old.failures self.new.failures }
    {
        // Proof hint: all files of the version have lower numbers.
        let _files = self.versions.version().files();
        let upto = self.flush_records();
        put_table(self.alloc, &mut self.versions, meta, table, end)?;
        self.logged = cut_log(&mut self.versions, self.logged, upto);
        self.frozen_upto = None;
        if self.frozen.is_some() {
            self.frozen = None;
            return Ok(());
        }
        self.active = self.active.successor();
        Ok(())
    }
}

// Logs and applies the edit of a flush up to a sequence, to a table of level 0. After a refusal the vault may have the table.
fn put_table<V: Vault>(
    alloc: Global,
    versions: &mut VersionSet<V>,
    meta: FileMeta,
    table: Table,
    end: Seq,
) -> Result<(), VaultError>
    requires room { CanNumber versions.old.served.version }
    requires epoch { 1 ≤ versions.old.served.version.epoch }
    requires newer { versions.old.served.version.flushed < end }
    requires sound { IsFile meta }
    requires place { (meta.number ≡ versions.old.served.version.next_file) × (meta.level ≡ 0) }
    requires recorded { IsAsRecorded meta table }
    ensures ok { OnOk result (AddsFile versions.old end meta table versions.new) }
    ensures err { OnErr result (MayHavePut (IsTableOfFile meta table) versions.old versions.new) }
    ensures counted { CountsFailures result versions.old.failures versions.new.failures }
{
    let edit = Edit::flush(alloc, versions.served().version(), end, meta)?;
    let mut tables = Vec::with_capacity(alloc, 1)?;
    tables.push(table)?;
    versions.log_and_apply(&edit, tables)?;
    Ok(())
}
