//! Dispatchers: they pick jobs, have them carried to workers, and install the results.

ghost use Rattle.std.specs.Prelude.{◌≡◌, ◌+◌, ◌<◌, ◌≤◌, ◌^◌, ◌++◌, List, count_by};
ghost use Rattle.lsm_nodes.specs.Carrying.{CarriesPicks};
ghost use Rattle.lsm_nodes.specs.Tallies.{EndsRound, SettlesPicks, is_done, records_of};

use crate::exchange::Witness;
use crate::hub::Hub;
use crate::shared::{Start, Tally};
use lsm_claim::Settled;
use lsm_coord::{CoordError, Install};
use lsm_msg::{Job, JobResult};
use lsm_vault::Vault;
use std::sync::Wait;

/// How a round ended.
#[derive(Clone, Copy, Debug, PartialEq, Eq)]
pub enum RoundEnd {
    /// The job that it picked is installed.
    Installed,
    /// The job that it picked is not installed: its claim was given back, or was stale.
    NotInstalled,
    /// No job was due.
    Idle,
    /// The pick was refused.
    Refused(CoordError),
}

/// Carries a job to a worker, and its result back, or nothing. No lock is held while it does.
pub trait Link {
    ghost use Rattle.std.specs.Prelude.{List, [], ◌∷◌, Option, None};
    ghost use Rattle.lsm_msg.specs.declared.job.JobParts.{JobParts};
    ghost use Rattle.lsm_nodes.specs.Carrying.{GainsKnown};

    // The jobs that it was given, one after another, if they are known.
    ghost carried: { Self → Option (List JobParts) } = { λ _. None };

    fn carry(&mut self, job: Job) -> Option<JobResult>
        ensures { GainsKnown (carried self.old) (carried self.new) (job ∷ []) };
}

// Picks a job, has it carried, and installs its result. A claim that is not installed is given back.
fn round<V: Vault, J: Start, N: Witness + Drop, L: Link, R: Wait>(
    rt: &R,
    hub: &Hub<V, J, N>,
    link: &mut L,
    tally: &mut Tally<J>,
) -> RoundEnd
    requires part { 0 < tally.old.parts }
    requires fits { tally.old.picked + 1 < 2 ^ 64 }
    ensures parts { tally.new.parts ≡ tally.old.parts }
    ensures picked { tally.new.picked ≤ tally.old.picked + 1 }
    ensures ends { EndsRound tally.old tally.new result }
    ensures others { tally.new.others ≡ tally.old.others }
    ensures settled { SettlesPicks tally.old tally.new }
    ensures carried { CarriesPicks (L.carried link.old) (L.carried link.new) tally.old tally.new }
{
    match hub.pick(rt, tally) {
        Ok(None) => RoundEnd::Idle,
        Err(why) => RoundEnd::Refused(why),
        Ok(Some((claim, job))) => match link.carry(job) {
            None => {
                tally.count(hub.give_back(rt, claim));
                RoundEnd::NotInstalled
            }
            Some(made) => match hub.install(rt, claim, &made, tally) {
                Install::Done(_number, _files) => RoundEnd::Installed,
                Install::Stale(_, _) => {
                    tally.count(Settled::Stale);
                    RoundEnd::NotInstalled
                }
                Install::Kept(claim, _) => {
                    tally.count(hub.give_back(rt, claim));
                    RoundEnd::NotInstalled
                }
            },
        },
    }
}

/// One round: a pick, a carry without the lock, and an install; and how it ended. A round that picks nothing counts nothing; a claim that is
/// not installed is given back, and counts as returned, or as stale if its job was not live. The tally keeps its parts. The link is given
/// the job that is picked, once, and no other.
pub fn dispatch<V: Vault, J: Start, N: Witness + Drop, L: Link, R: Wait>(
    rt: &R,
    hub: &Hub<V, J, N>,
    link: &mut L,
    tally: Tally<J>,
) -> (Tally<J>, RoundEnd)
    requires part { 0 < tally.parts }
    requires fits { tally.picked + 1 < 2 ^ 64 }
    ensures parts { result.0.parts ≡ tally.parts }
    ensures picked { result.0.picked ≤ tally.picked + 1 }
    ensures ends { EndsRound tally result.0 result.1 }
    ensures sum { result.0.picked ≡ result.0.installed + result.0.returned + result.0.stale }
    ensures installed { result.0.installed ≡ count_by is_done (records_of result.0) }
    ensures others { result.0.others ≡ tally.others }
    ensures settled { SettlesPicks tally result.0 }
    ensures carried { CarriesPicks (L.carried link.old) (L.carried link.new) tally result.0 }
{
    let mut tally = tally;
    let end = round(rt, hub, link, &mut tally);
    // Proof hint: what every tally keeps.
    let _picked = tally.picked();
    let _installed = tally.installed();
    (tally, end)
}
