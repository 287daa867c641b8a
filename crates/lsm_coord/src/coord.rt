//! The coordinator: one store, over a vault.

mod claims;
mod flush;
mod install;
mod logging;
mod outputs;
mod read;
mod scan;
mod serve;
mod snapshots;
mod trim;
mod write;

use crate::frozen::Frozen;
use crate::replay::{Replayed, replay_log};
use crate::snapshot::Snapshot;
use bytes::Bytes;
pub use flush::Flushed;
pub use install::{Install, InstallError};
use logging::cut_log;
use lsm_claim::ClaimBook;
use lsm_key::{Limits, MAX_JOB_LEVEL, Seq};
use lsm_mem::Memtable;
use lsm_pick::is_due;
use lsm_vault::{Vault, VaultError};
use lsm_versions::{OpenError, VersionSet};
use std::alloc::Global;
use std::marker::Model;

/// One store: its memtables, its version set over a vault, its live snapshots, and the claims of this epoch. The vault's log has
/// what the memtables have; snapshots and claims are lost when it ends.
///
/// Invariant: the log holds the writes that the memtables have, those after the current version's flushed sequence; the claims are of the
/// version's epoch, and each live one is of a job whose inputs may still be merged.
#[derive(Drop)]
pub struct Coord<V: Vault> {
    alloc: Global,
    // When its levels need compaction.
    limits: Limits,
    versions: VersionSet<V>,
    active: Memtable,
    frozen: Option<Frozen>,
    newest: Seq,
    // How many records the vault's log has, and how many of them are up to the end of the frozen memtable, its freeze included. A
    // number that is not known only leaves the log longer.
    logged: Option<usize>,
    frozen_upto: Option<usize>,
    live: Vec<Snapshot>,
    // How many snapshots this epoch has made.
    made: u64,
    book: ClaimBook,
}

impl<V: Vault> Model for Coord<V> {
    ghost use Rattle.std.specs.Coded.{codes};
    ghost use Rattle.lsm_vault.specs.Stored.{vault_code};
    ghost use Rattle.lsm_coord.specs.Contract.Value.{CoordValue};
    ghost use Rattle.lsm_coord.specs.Contract.Logs.{IsCounted, IsLogged};
    ghost use Rattle.lsm_coord.specs.Contract.Memory.{IsCoord};

    ghost Value = { CoordValue };

    ghost coded = { Prim.hlevel (codes, vault_code) };

    ghost view = { λ c. record { limits = c.limits; active = c.active; frozen = c.frozen; served = c.versions.served; stored = c.versions.stored; last = c.newest; snapshots = c.live.items; made = c.made; floor = c.versions.floor; retired = c.versions.retired; book = c.book; failures = c.versions.failures } };

    ghost invariant = { λ c. IsCoord c.active c.frozen c.newest c.versions.served c.book c.live.items × IsLogged c.active c.frozen c.newest c.versions.served.version.flushed c.versions.stored.log × IsCounted c.frozen c.versions.stored.log c.logged c.frozen_upto };
}

impl<V: Vault> Coord<V> {
    ghost use Rattle.std.specs.Prelude.{◌≡◌, ◌≤◌, ◌&&◌, [], IfErr, IfOk, nat_le};
    ghost use Rattle.std.specs.Option.{unwrap_or};
    ghost use Rattle.lsm_key.specs.declared.limits.TheConstants.{MAX_JOB_LEVEL};
    ghost use Rattle.lsm_pick.specs.Due.{is_due};
    ghost use Rattle.lsm_edit.specs.Served.{IsServed};
    ghost use Rattle.lsm_edit.specs.Version.{IsVersion};
    ghost use Rattle.lsm_vault.specs.Failures.{CountsFailures};
    ghost use Rattle.lsm_versions.specs.Manifest.{IsVersionSet};
    ghost use Rattle.lsm_versions.specs.Opening.{CountsRefusal, MayHaveDropped, OpenRefuses};
    ghost use Rattle.lsm_coord.specs.Model.Changes.{after_stop};
    ghost use Rattle.lsm_coord.specs.Model.State.{State, first_state};
    ghost use Rattle.lsm_coord.specs.Contract.Shows.{Shows};
    ghost use Rattle.lsm_coord.specs.Contract.Logs.{MayCut};
    ghost use Rattle.lsm_coord.specs.Contract.Seats.{LogComesFirst, OpenFollows, OpenRefusedFollows, OpensCoord, ShowsDown, opened_coord};
    ghost use Rattle.lsm_coord.specs.Inner.Replaying.{ReplaysLog};

    /// Opens what a vault has, in the next epoch: what was flushed, and what its log holds after that. A vault without edits and log
    /// is a new store. A refusal hands the vault back with its edits and log; some tables that no file of the version needs may be
    /// gone. What the tables have is cut from the log last, where the vault does so.
    pub fn open(alloc: Global, vault: V, limits: Limits) -> Result<Coord<V>, (OpenError, V)>
        ensures ok { IfOk result (OpensCoord (V.stored vault) limits) }
        ensures failures { IfOk result (λ c. V.failures vault ≤ c.failures) }
        ensures step { IfOk result (OpenFollows (V.stored vault)) }
        ensures new { IfOk result (λ c. (V.stored vault).edits ≡ [] → (V.stored vault).log ≡ [] → Shows c first_state) }
        ensures refused { IfErr result (λ e. OpenRefuses (V.stored vault) e.0) }
        ensures first { IfErr result (λ e. LogComesFirst (V.stored vault) e.0) }
        ensures left { IfErr result (λ e. MayHaveDropped e.0 (V.stored vault) (V.stored e.1)) }
        ensures counted { IfErr result (λ e. CountsRefusal e.0 (V.failures vault) (V.failures e.1)) }
        ensures stays { IfErr result (λ e. OpenRefusedFollows (V.stored vault) e.0 (V.stored e.1)) }
    {
        let mut recovered = match VersionSet::recover(alloc, vault) {
            Ok(recovered) => recovered,
            Err(refused) => return Err(refused),
        };
        // All that grows has grown before the next epoch begins.
        let replayed = match replay_log(alloc, &mut recovered) {
            Ok(replayed) => replayed,
            Err(why) => return Err((why, recovered.close())),
        };
        let versions = match recovered.begin() {
            Ok(versions) => versions,
            Err(refused) => return Err(refused),
        };
        Ok(Coord::of(alloc, limits, versions, replayed))
    }

    // The coordinator of a version set whose log was replayed. What the tables have is cut from the log.
    fn of(alloc: Global, limits: Limits, versions: VersionSet<V>, replayed: Replayed) -> Coord<V>
        requires opened { 1 ≤ versions.served.version.epoch }
        requires replays { ReplaysLog versions.served.version.flushed versions.stored.log replayed }
        ensures cut { MayCut versions.served.version.flushed versions.stored.log result.stored.log }
        ensures is { result ≡ record (opened_coord limits versions) { active = replayed.active; frozen = replayed.frozen; stored = record versions.stored { log = result.stored.log }; last = unwrap_or replayed.last versions.served.version.flushed; failures = result.failures } }
        ensures failures { versions.failures ≤ result.failures }
        ensures set { IsVersionSet versions }
        ensures sound { IsServed versions.served × IsVersion versions.served.version }
    {
        let mut versions = versions;
        // Proof hint: the version and its places are sound.
        let _served = versions.served();
        let newest = replayed.newest(versions.version().flushed());
        let book = ClaimBook::new(alloc, versions.version().epoch());
        let logged = cut_log(
            &mut versions,
            Some(replayed.read),
            Some(replayed.flushed_upto),
        );
        let frozen_upto = replayed.frozen_left(logged);
        let Replayed {
            active,
            frozen,
            last: _,
            read: _,
            flushed_upto: _,
            frozen_upto: _,
        } = replayed;
        Coord {
            alloc,
            limits,
            versions,
            active,
            frozen,
            newest,
            logged,
            frozen_upto,
            live: Vec::new(alloc),
            made: 0,
            book,
        }
    }

    /// When its levels need compaction.
    pub(crate) fn limits(&self) -> Limits
        ensures { result ≡ self.now.limits }
    {
        self.limits
    }

    /// The epoch of its claims.
    pub fn epoch(&self) -> u64
        ensures { result ≡ self.now.book.epoch }
    {
        self.book.epoch()
    }

    /// The sequence of the last operation that it has accepted.
    pub fn latest_sequence(&self) -> Seq
        ensures { result ≡ self.now.last }
    {
        self.newest
    }

    /// Whether a level needs compaction. The deepest one, which has none below it, never does.
    pub fn is_due(&self, level: u8) -> bool
        ensures { result ≡ (nat_le level MAX_JOB_LEVEL && is_due self.now.limits self.now.served.version.files level) }
    {
        level <= MAX_JOB_LEVEL && is_due(&self.limits, self.versions.version().files(), level)
    }

    /// The edits of the manifest, from the first on, as the vault has them. They share the bytes.
    pub fn edits(&mut self) -> Result<Vec<Bytes>, VaultError>
        ensures ok { IfOk result (λ edits. edits.items ≡ self.old.stored.edits) }
        ensures same { self.new ≡ record self.old { failures = self.new.failures } }
        ensures counted { CountsFailures result self.old.failures self.new.failures }
    {
        self.versions.edits()
    }

    /// Makes the records of the vault's log durable, where the vault did not as each was appended: once it is `Ok`, every operation up
    /// to the last sequence is. After a refusal those since the last such call may not be, though they are read.
    pub fn sync_log(&mut self) -> Result<(), VaultError>
        ensures same { self.new ≡ record self.old { failures = self.new.failures } }
        ensures counted { CountsFailures result self.old.failures self.new.failures }
    {
        self.versions.sync_log()
    }

    /// Ends it, and hands the vault back, whose log has what was not flushed. Snapshots are lost, and all claims are stale.
    pub fn close(self) -> V
        ensures vault { V.stored result ≡ self.stored }
        ensures failures { V.failures result ≡ self.failures }
        ensures stops { (s : State) → Shows self s → ShowsDown self.stored (after_stop s) }
    {
        // Proof hint: the version and its places are sound, and the vault has their tables.
        let _listing = self.versions.served().listing();
        let Coord {
            alloc: _,
            limits: _,
            versions,
            active: _,
            frozen: _,
            newest: _,
            logged: _,
            frozen_upto: _,
            live: _,
            made: _,
            book: _,
        } = self;
        versions.close()
    }
}
