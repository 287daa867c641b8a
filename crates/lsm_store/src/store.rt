//! The store over a vault: how it is opened and closed. Its calls stand in files of their own, by what they do.

mod compact;
mod pace;
mod range;
mod read;
mod snapshots;
mod write;

use crate::Options;
use lsm_coord::Coord;
use lsm_pick::CompactPointers;
use lsm_vault::Vault;
use lsm_versions::OpenError;
pub use range::Range;
use std::alloc::Global;
use std::marker::Model;

/// A store over a vault: all its flushes and compactions run inside its calls. The vault has each operation before it is answered, in
/// its log or in a table, so that no operation is lost when the store ends; its snapshots are. Which operations a power cut
/// could take is said where the vault is made; after a `sync` that is `Ok` none of those before it.
///
/// Invariant: between two calls no job runs.
#[derive(Drop)]
pub struct Store<V: Vault> {
    alloc: Global,
    coord: Coord<V>,
    // Where each level goes on. They determine only which of the compactions that are due is the next.
    pointers: CompactPointers,
    // What the accepted batches weigh for which no compaction was run yet. It determines only when one is.
    unpaced: usize,
}

impl<V: Vault> Model for Store<V> {
    ghost use Rattle.std.specs.Coded.{codes};
    ghost use Rattle.lsm_vault.specs.Stored.{vault_code};
    ghost use Rattle.lsm_coord.specs.Contract.Value.{CoordValue};
    ghost use Rattle.lsm_store.specs.Store.{IsIdle};

    ghost Value = { CoordValue };

    ghost coded = { Prim.hlevel (codes, vault_code) };

    ghost view = { λ s. s.coord };

    ghost invariant = { λ s. IsIdle s.coord };
}

impl<V: Vault> Store<V> {
    ghost use Rattle.std.specs.Prelude.{◌≡◌, ◌≤◌, [], List, IfErr, IfOk};
    ghost use Rattle.lsm_key.specs.declared.op.Op.{Op};
    ghost use Rattle.lsm_versions.specs.Opening.{CountsRefusal, MayHaveDropped, OpenRefuses};
    ghost use Rattle.lsm_coord.specs.declared.snapshot.Snapshot.{Snapshot};
    ghost use Rattle.lsm_coord.specs.Contract.Seats.{LogComesFirst, OpensCoord};
    ghost use Rattle.lsm_store.specs.Store.{Holds, HoldsStored};

    /// Opens what a vault has: what is in its tables, and what its log has after that. A vault without edits and log is a new store. A
    /// refusal hands the vault back with its edits and its log; some tables that no file of the version needs may be gone.
    pub fn open(alloc: Global, vault: V, options: Options) -> Result<Store<V>, (OpenError, V)>
        ensures ok { IfOk result (OpensCoord (V.stored vault) options.limits) }
        ensures failures { IfOk result (λ store. V.failures vault ≤ store.failures) }
        ensures stored { (writes : List Op) → HoldsStored (V.stored vault) writes → IfOk result (λ store. Holds store writes []) }
        ensures new { IfOk result (λ store. (V.stored vault).edits ≡ [] → (V.stored vault).log ≡ [] → Holds store [] []) }
        ensures refused { IfErr result (λ e. OpenRefuses (V.stored vault) e.0) }
        ensures first { IfErr result (λ e. LogComesFirst (V.stored vault) e.0) }
        ensures left { IfErr result (λ e. MayHaveDropped e.0 (V.stored vault) (V.stored e.1)) }
        ensures counted { IfErr result (λ e. CountsRefusal e.0 (V.failures vault) (V.failures e.1)) }
        ensures stays { (writes : List Op) → HoldsStored (V.stored vault) writes → IfErr result (λ e. HoldsStored (V.stored e.1) writes) }
    {
        match Coord::open(alloc, vault, options.limits) {
            Ok(coord) => Ok(Store {
                alloc,
                coord,
                pointers: CompactPointers::new(),
                unpaced: 0,
            }),
            Err(refused) => Err(refused),
        }
    }

    /// Ends it, and hands the vault back, which has all operations.
    pub fn close(self) -> V
        ensures vault { V.stored result ≡ self.stored }
        ensures failures { V.failures result ≡ self.failures }
        ensures stored { (writes : List Op) (snapshots : List Snapshot) → Holds self writes snapshots → HoldsStored self.stored writes }
    {
        let Store {
            alloc: _,
            coord,
            pointers: _,
            unpaced: _,
        } = self;
        coord.close()
    }
}
