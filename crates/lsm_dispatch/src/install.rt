//! Results that are installed, and what is due after them.

ghost use Rattle.std.specs.Prelude.{◌≡◌, ℕ, List, ◌∷◌, [], true, Err, IfErr, IfOk, OnErr, OnOk};
ghost use Rattle.lsm_coord.specs.Contract.Calls.{TrimRefuses};
ghost use Rattle.lsm_coord.specs.Contract.Installing.{HoldsSoundMerge};
ghost use Rattle.lsm_coord.specs.Contract.Replies.{error_of};
ghost use Rattle.lsm_store.specs.Store.{Keeps};
ghost use Rattle.lsm_dispatch.specs.Crews.{Ends};
ghost use Rattle.lsm_dispatch.specs.Dispatching.{InstallsInOrder, IsDue, JobRefuses, ResultRefuses, Settles, TakenResult, TakesClaim, TrimsTo, stays_after};

use lsm_claim::Claim;
use lsm_coord::{Coord, CoordError, Install, InstallError};
use lsm_key::VersionNumber;
use lsm_msg::JobResult;
use lsm_store::Due;
use lsm_vault::Vault;

/// Installs a result of a claim's job, and lets the tables go that it replaced. A claim that is not installed is given back. Returns
/// whether its worker stays: not if the result is none of its job.
pub(crate) fn take_result<V: Vault>(
    coord: &mut Coord<V>,
    claim: Claim,
    made: &JobResult,
) -> Result<bool, CoordError>
    ensures ok { IfOk result (λ stays. TakesClaim coord.old claim made.now stays coord.new) }
    ensures refused { IfErr result (λ e. ResultRefuses coord.old claim made.now e coord.new) }
    ensures ended { Ends coord.old.book (claim.id ∷ []) coord.new.book }
    ensures passes { (results : List TakenResult) × InstallsInOrder coord.old results coord.new }
{
    match install(coord, claim, made) {
        Ok(Some(number)) => {
            trim(coord, number)?;
            Ok(true)
        }
        Ok(None) => Ok(true),
        Err(why) => stays_after(why),
    }
}

// Whether the worker of a result that is refused stays. A refusal that is not the worker's fault is an error.
fn stays_after(why: InstallError) -> Result<bool, CoordError>
    ensures ok { IfOk result (λ stays. stays ≡ stays_after (Err why)) }
    ensures err { IfErr result (λ e. (stays_after (Err why) ≡ true) × (e ≡ error_of why)) }
{
    match why {
        InstallError::WrongJob => Ok(false),
        InstallError::BadResult => Ok(false),
        InstallError::NumbersExhausted => Err(CoordError::NumbersExhausted),
        InstallError::OutOfMemory => Err(CoordError::OutOfMemory),
        InstallError::Device => Err(CoordError::Device),
    }
}

// Installs a result of a claim's job, and returns the number of the new version, or `None` if the job is not live. A claim that
// is not installed is given back.
fn install<V: Vault>(
    coord: &mut Coord<V>,
    claim: Claim,
    made: &JobResult,
) -> Result<Option<VersionNumber>, InstallError>
    ensures settles { Settles coord.old claim made.now result coord.new }
    ensures ended { Ends coord.old.book (claim.id ∷ []) coord.new.book }
    ensures merged { HoldsSoundMerge coord.old claim.id made.now → Keeps coord.old coord.new }
    ensures refused { OnErr result (Keeps coord.old coord.new) }
{
    match coord.install(claim, made) {
        Install::Done(number, _files) => Ok(Some(number)),
        Install::Stale(_, _) => Ok(None),
        Install::Kept(claim, why) => {
            coord.give_back(claim);
            Err(why)
        }
    }
}

// Lets the tables go that only versions before this one list.
fn trim<V: Vault>(coord: &mut Coord<V>, number: VersionNumber) -> Result<(), CoordError>
    ensures book { coord.new.book ≡ coord.old.book }
    ensures keeps { Keeps coord.old coord.new }
    ensures trims { OnOk result (TrimsTo coord.old number coord.new) }
    ensures refused { IfErr result (λ e. TrimRefuses coord.old number e coord.new) }
{
    coord.trim(number)?;
    Ok(())
}

/// What is still due: nothing, compactions of which each exceeds a job size limit, or more. It picks the next job by number, and
/// gives it back: what is due is the same in every order.
pub fn due_of<V: Vault>(coord: &mut Coord<V>) -> Result<Due, CoordError>
    ensures ok { IfOk result (IsDue coord.old coord.new) }
    ensures err { OnErr result (coord.new ≡ coord.old) }
    ensures refused { IfErr result (JobRefuses coord.old) }
    ensures keeps { Keeps coord.old coord.new }
    ensures none { coord.old.book.live ≡ [] → coord.new.book.live ≡ [] }
{
    match coord.pick() {
        Ok(None) => Ok(Due::Nothing),
        Ok(Some((claim, _job))) => {
            coord.give_back(claim);
            Ok(Due::More)
        }
        Err(CoordError::TooWide) => Ok(Due::TooLarge),
        Err(why) => Err(why),
    }
}
