//! What a vault has, read before anything in it is changed.

ghost use Rattle.std.specs.Prelude.{◌≡◌, ◌≤◌, [], IfErr, IfOk};
ghost use Rattle.lsm_vault.specs.Failures.{CountsFailures};
ghost use Rattle.lsm_versions.specs.Opening.{CountsRefusal, EpochRefused, MayHaveDropped, Opens, manifest_version};

use crate::{OpenError, VersionSet};
use bytes::Bytes;
use lsm_key::Seq;
use lsm_vault::{Vault, VaultError};
use std::marker::Model;

/// What a vault has, read: its edits replay to a version, and it has the table of each file. An opening goes on from it by `begin`,
/// which is the first to change the vault, so whatever else an opening may be refused for comes between.
///
/// Invariant: no file is retired.
#[derive(Drop)]
pub struct Recovered<V: Vault> {
    // At the version that the edits replay to.
    versions: VersionSet<V>,
}

impl<V: Vault> Model for Recovered<V> {
    ghost use Rattle.std.specs.Coded.{codes};
    ghost use Rattle.std.specs.Prelude.{◌≡◌, []};
    ghost use Rattle.lsm_vault.specs.Stored.{vault_code};
    ghost use Rattle.lsm_versions.specs.Opening.{RecoveredValue};

    ghost Value = { RecoveredValue };

    ghost coded = { Prim.hlevel (codes, vault_code) };

    ghost view = { λ r. record { stored = r.versions.stored; failures = r.versions.failures } };

    ghost invariant = { λ r. r.versions.retired ≡ [] };
}

impl<V: Vault> Recovered<V> {
    /// Of a version set without a retired file.
    pub(crate) fn of(versions: VersionSet<V>) -> Recovered<V>
        requires { versions.retired ≡ [] }
        ensures stored { result.stored ≡ versions.stored }
        ensures failures { result.failures ≡ versions.failures }
    {
        Recovered { versions }
    }

    /// The records of the log, in the order in which they were appended. They share the bytes.
    pub fn log(&mut self) -> Result<Vec<Bytes>, VaultError>
        ensures ok { IfOk result (λ records. records.items ≡ self.old.stored.log) }
        ensures same { self.new ≡ record self.old { failures = self.new.failures } }
        ensures counted { CountsFailures result self.old.failures self.new.failures }
    {
        self.versions.log()
    }

    /// The flushed sequence: each write up to it is in a table.
    pub fn flushed(&self) -> Seq
        ensures { result ≡ (manifest_version self.now.stored.edits).flushed }
    {
        // Proof hint: the edits replay to the version.
        let _served = self.versions.served();
        self.versions.version().flushed()
    }

    /// Begins the next epoch: removes all tables that no file of the version needs, and logs the edit of the epoch. The floor is the
    /// version after it. A refusal hands the vault back, whose edits and log are as before; some of those tables may be gone.
    pub fn begin(self) -> Result<VersionSet<V>, (OpenError, V)>
        ensures ok { IfOk result (Opens self.stored) }
        ensures failures { IfOk result (λ v. self.failures ≤ v.failures) }
        ensures refused { IfErr result (λ e. EpochRefused (manifest_version self.stored.edits) e.0) }
        ensures left { IfErr result (λ e. MayHaveDropped e.0 self.stored (V.stored e.1)) }
        ensures counted { IfErr result (λ e. CountsRefusal e.0 self.failures (V.failures e.1)) }
    {
        let Recovered { versions } = self;
        let mut versions = versions;
        // Proof hint: the edits replay to the version, and its places are sound.
        let _served = versions.served();
        match versions.begin_epoch() {
            Ok(()) => Ok(versions),
            Err(why) => Err((why, versions.close())),
        }
    }

    /// Gives the opening up, and hands the vault back.
    pub fn close(self) -> V
        ensures vault { V.stored result ≡ self.stored }
        ensures failures { V.failures result ≡ self.failures }
    {
        let Recovered { versions } = self;
        versions.close()
    }
}
