//! The lock around a shared coordinator: how a hub is made and closed. Its calls stand in `calls`.

ghost use Rattle.std.specs.Prelude.{◌≡◌, ◌≢◌, ◌+◌, ◌∷◌, [], IfErr, IfOk, IsErrAnd, length};

mod calls;

use crate::exchange::Witness;
use crate::shared::{Shared, Start, Tally};
use lsm_coord::Coord;
use lsm_vault::Vault;
use std::alloc::Global;
use std::sync::Mutex;
use std::sync::ledger::Blank;
use thiserror::Error;

/// How many parts the ledger of a hub has: as many callers may have tallies of their own.
pub const PARTS: u64 = 4;

/// Why a hub is not closed.
#[derive(Clone, Copy, Debug, PartialEq, Eq, Error)]
pub enum CloseError {
    /// The tally has not all parts of the hub's ledger. Merge the others into it, and close again.
    #[error("a tally is missing")]
    MissingTally,
    /// Its records, with those that were merged into it, are not those of the history, each once and in its order.
    #[error("the tallies do not have exactly the calls of the history")]
    WrongRecord,
}

/// A coordinator that threads share: a lock around it and the history of its calls. Each method locks once, and lends what lies
/// under the lock to one method of `Shared`. It is `Drop` if the vault is; otherwise `close` ends it. No clause of theirs says
/// which history a call was recorded in: `close` does.
#[derive(Drop)]
pub struct Hub<V: Vault, J: Start, N: Witness + Drop> {
    lock: Mutex<Shared<V, J, N>>,
}

impl<V: Vault, J: Start, N: Witness + Drop> Hub<V, J, N> {
    ghost use Rattle.lsm_nodes.specs.Closing.{IsPartedInto, MissHistory};
    ghost use Rattle.lsm_nodes.specs.Histories.{installed_in, installs_in};
    ghost use Rattle.lsm_nodes.specs.Tallies.{new_tally};

    /// A hub, and the tally that has all parts of its ledger.
    pub fn new(alloc: Global, coord: Coord<V>, blank: Blank) -> (Hub<V, J, N>, Tally<J>)
        requires ledger { (blank.name ≡ J.name) × (blank.parts ≡ J.parts) × (J.parts ≡ PARTS) }
        requires start { coord ≡ J.start }
        requires idle { coord.book.live ≡ [] }
        ensures { result.1 ≡ new_tally PARTS }
    {
        let (book, share) = blank.open::<J>();
        let hub = Hub::around(Shared::new(alloc, coord, book));
        (hub, Tally::new(alloc, share, PARTS))
    }

    /// Closes it with the tally into which all others were merged: the history is then exactly the records of all tallies, each
    /// once, each caller's in its order, and the tally's installs are those of the history, which are those that the manifest has beside
    /// the ones at the start. A refusal hands both back. One for a wrong record means a history of as many calls as the tally has records,
    /// which these are not; so a hub that recorded no call closes. That this history is the hub's no clause can say here: `Shared::matches`
    /// says it of its own.
    #[tactic(auto, using(crate::proofs::TalliedRecords::more_installs))]
    pub fn close(
        self,
        tally: Tally<J>,
    ) -> Result<Shared<V, J, N>, (CloseError, Hub<V, J, N>, Tally<J>)>
        requires { J.parts ≡ PARTS }
        ensures missing { tally.parts ≢ PARTS → IsErrAnd result (λ e. e.0 ≡ CloseError.MissingTally) }
        ensures wrong { tally.parts ≡ PARTS → IfErr result (λ e. (e.0 ≡ CloseError.WrongRecord) × MissHistory (tally.mine ∷ tally.others)) }
        ensures back { IfErr result (λ e. e.2 ≡ tally) }
        ensures history { IfOk result (λ s. IsPartedInto s.history (tally.mine ∷ tally.others)) }
        ensures installs { IfOk result (λ s. length (installed_in s.history) ≡ tally.installed) }
        ensures edits { IfOk result (λ s. length (installs_in s.coord.stored.edits) ≡ length (installs_in J.start.stored.edits) + tally.installed) }
    {
        let mut tally = tally;
        let Hub { lock } = self;
        let mut shared = lock.into_inner();
        if tally.parts() != PARTS {
            return Err((CloseError::MissingTally, Hub::around(shared), tally));
        }
        if !shared.matches(&mut tally) {
            return Err((CloseError::WrongRecord, Hub::around(shared), tally));
        }
        // Proof hint: the installs of the manifest.
        let _history = shared.history();
        Ok(shared)
    }

    fn around(shared: Shared<V, J, N>) -> Hub<V, J, N> {
        Hub {
            lock: Mutex::new(shared),
        }
    }
}
