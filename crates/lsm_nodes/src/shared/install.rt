//! Installs under the lock. They stand apart from the other recorded calls, since a refusal has to hand the claim back.

ghost use Rattle.std.specs.Prelude.{◌≡◌, ◌+◌, ◌<◌, ◌≤◌, ◌^◌, ◌⊎◌};
ghost use Rattle.lsm_coord.specs.declared.call.Call.TheVariants as call;
ghost use Rattle.lsm_nodes.specs.Answers.{install_answer};
ghost use Rattle.lsm_nodes.specs.Calls.{InstallsResult, IsMissed, IsRecorded};
ghost use Rattle.lsm_nodes.specs.Tallies.{exchange_of, installs_by};

use super::{Shared, Start, has_room, log};
use crate::exchange::Witness;
use crate::installed::{install_answers, install_calls};
use crate::shared::Tally;
use lsm_claim::Claim;
use lsm_coord::{Install, InstallError};
use lsm_msg::JobResult;
use lsm_vault::Vault;

impl<V: Vault, J: Start, N: Witness + Drop> Shared<V, J, N> {
    /// `Coord::install`, recorded. One that is done counts in the tally as picked and installed. If there is no memory for the
    /// record, nothing is done and the claim is handed back, a stale one too.
    pub fn install(&mut self, claim: Claim, made: &JobResult, tally: &mut Tally<J>) -> Install
        requires part { 0 < tally.old.parts }
        requires fits { tally.old.picked + 1 < 2 ^ 64 }
        ensures { ((result ≡ Install.Kept claim InstallError.OutOfMemory) × IsMissed self.old self.new tally.old tally.new) ⊎ (IsRecorded self.old self.new tally.old tally.new (exchange_of (call.Install claim.id made.now) (install_answer result)) × InstallsResult self.old.coord claim made.now result self.new.coord) }
    {
        let Shared {
            coord,
            history,
            book,
            alloc,
        } = self;
        let Tally {
            mine,
            share,
            picked,
            installed,
            ..
        } = tally;
        if !has_room(history, mine) {
            return Install::Kept(claim, InstallError::OutOfMemory);
        }
        let Ok((calls, rooms)) = install_calls(*alloc, claim.id(), made) else {
            return Install::Kept(claim, InstallError::OutOfMemory);
        };
        let before = N::of(coord.served());
        let result = coord.install(claim, made);
        let done = done_by(&result);
        *picked += done;
        *installed += done;
        let answers = install_answers(&result, made.tables.len(), rooms);
        log(history, mine, book, share, before, calls, answers);
        result
    }
}

// 1 for an install that is done, else 0.
fn done_by(outcome: &Install) -> u64
    ensures counts { result ≡ installs_by (install_answer outcome.now) }
    ensures one { result ≤ 1 }
{
    match outcome {
        Install::Done(_, _) => 1,
        _ => 0,
    }
}
