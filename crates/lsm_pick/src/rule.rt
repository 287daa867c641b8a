//! The rule of a pick.

ghost use Rattle.std.specs.Prelude.{◌≡◌, ◌≤◌, ◌⊎◌, ◌∷◌, ◌&&◌, [], IfOk, IfErr, OnErr, IfSome, MatchOption, flat_map, nat_eq};
ghost use Rattle.std.specs.Bool.{beq};
ghost use Rattle.std.specs.List.{list_any};
ghost use Rattle.std.specs.Option.{option_copied};
ghost use Rattle.lsm_key.specs.Order.{key_lt};
ghost use Rattle.lsm_key.specs.Sets.{IsIn};
ghost use Rattle.lsm_claim.specs.Levels.{shares_level};
ghost use Rattle.lsm_key.specs.KeyRanges.{ranges_meet};
ghost use Rattle.lsm_edit.specs.declared.edit.EditKind.TheVariants.{Install};
ghost use Rattle.lsm_edit.specs.Edit.{AreRemoved};
ghost use Rattle.lsm_msg.specs.Legal.{IsLegal};
ghost use Rattle.lsm_pick.specs.declared.error.PickError.TheVariants.{OutOfMemory, TooWide};
ghost use Rattle.lsm_pick.specs.After.{candidates_in, level_after, level_candidates_in, part_of_level};
ghost use Rattle.lsm_pick.specs.Closure.{Candidate};
ghost use Rattle.lsm_pick.specs.Due.{due_levels};
ghost use Rattle.lsm_pick.specs.Reach.{IsFull, is_taken, candidate_of};
ghost use Rattle.lsm_pick.specs.Rule.{AreBlocked, AreTooLarge, IsFirst, level_candidates, candidates, file_candidates};
ghost use Rattle.lsm_pick.specs.Outcome.{HasOutcome, CanPick};

use crate::PickError;
use crate::due::is_due;
use crate::limit::fits_limits;
use crate::outcome::Outcome;
use crate::pointers::CompactPointers;
use crate::reach::closure;
use crate::want::want_of;
use lsm_claim::{ClaimBook, LiveJob, Want, shares_level};
use lsm_edit::{FileMeta, Placed, Served};
use lsm_key::{KeyRangeRef, Limits, MAX_JOB_LEVEL};
use std::alloc::{AllocError, Global};

/// What to merge next: the first candidate that conflicts with no running job and is within the job limits. `None` if
/// no level needs compaction or all candidates conflict. `TooWide` if at least one candidate failed only by size and
/// none is eligible. Allocates only for the compaction that it returns.
///
/// In each round a candidate costs a binary search and the files that it overlaps, and at level 0 a pass over level 0
/// too; each round adds at least one file. A candidate that conflicts with no job costs a pass over the version's
/// files.
pub fn pick(
    alloc: Global,
    served: &Served,
    book: &ClaimBook,
    limits: &Limits,
) -> Result<Option<Want>, PickError>
    ensures some { IfOk result (λ picked. IfSome picked (IsFirst served.now.version.files book.now.live (candidates limits.now served.now.version.files))) }
    ensures none { IfOk result (λ picked. picked ≡ None → AreBlocked served.now.version.files book.now.live (candidates limits.now served.now.version.files)) }
    ensures level { IfOk result (λ picked. IfSome picked (λ want. want.level ≤ MAX_JOB_LEVEL)) }
    ensures legal { IfOk result (λ picked. IfSome picked (IsLegal served.now.version.files)) }
    ensures removable { IfOk result (λ picked. IfSome picked (λ want. AreRemoved Install want.files)) }
    ensures too_wide { IfErr result (λ e. e ≡ TooWide → AreTooLarge served.now.version.files book.now.live (candidates limits.now served.now.version.files)) }
    ensures memory { IfErr result (λ e. e ≡ OutOfMemory → CanPick served.now.version.files book.now.live (candidates limits.now served.now.version.files)) }
{
    pick_after(alloc, served, book, limits, None)
}

/// The same in the order of the pointers, if there are any: below level 0 the files after a level's pointer come first,
/// then the others, each by key. So a level is merged all round, which writes less in the end. A level's candidates are
/// found by a pass over the version's files, or by two.
pub fn pick_after(
    alloc: Global,
    served: &Served,
    book: &ClaimBook,
    limits: &Limits,
    pointers: Option<&CompactPointers>,
) -> Result<Option<Want>, PickError>
    ensures some { IfOk result (λ picked. IfSome picked (IsFirst served.now.version.files book.now.live (candidates_in (option_copied pointers.entry) limits.now served.now))) }
    ensures none { IfOk result (λ picked. picked ≡ None → AreBlocked served.now.version.files book.now.live (candidates_in (option_copied pointers.entry) limits.now served.now)) }
    ensures level { IfOk result (λ picked. IfSome picked (λ want. want.level ≤ MAX_JOB_LEVEL)) }
    ensures legal { IfOk result (λ picked. IfSome picked (IsLegal served.now.version.files)) }
    ensures removable { IfOk result (λ picked. IfSome picked (λ want. AreRemoved Install want.files)) }
    ensures too_wide { IfErr result (λ e. e ≡ TooWide → AreTooLarge served.now.version.files book.now.live (candidates_in (option_copied pointers.entry) limits.now served.now)) }
    ensures memory { IfErr result (λ e. e ≡ OutOfMemory → CanPick served.now.version.files book.now.live (candidates_in (option_copied pointers.entry) limits.now served.now)) }
{
    // Proof hint: the version's invariant.
    let _listing = served.listing();
    match try_all(alloc, served, book.live(), limits, pointers)? {
        Outcome::Picked(want) => Ok(Some(want)),
        Outcome::TooLarge => Err(PickError::TooWide),
        Outcome::Blocked => Ok(None),
    }
}

// The outcome of all candidates.
fn try_all(
    alloc: Global,
    served: &Served,
    live: &[LiveJob],
    limits: &Limits,
    pointers: Option<&CompactPointers>,
) -> Result<Outcome, AllocError>
    ensures ok { IfOk result (HasOutcome served.now.version.files live.now (candidates_in (option_copied pointers.entry) limits.now served.now)) }
    ensures err { OnErr result (CanPick served.now.version.files live.now (candidates_in (option_copied pointers.entry) limits.now served.now)) }
{
    let mut outcome = Outcome::Blocked;
    for level in 0..MAX_JOB_LEVEL + 1 {
        if is_due(limits, served.listing().files, level) {
            let here = try_level_in(alloc, served, live, pointers, level)?;
            outcome = outcome.or(here);
            if outcome.is_picked() {
                return Ok(outcome);
            }
        }
    }
    Ok(outcome)
}

// The outcome of a level's candidates, below level 0 in the order of the pointers, if there are any.
fn try_level_in(
    alloc: Global,
    served: &Served,
    live: &[LiveJob],
    pointers: Option<&CompactPointers>,
    level: u8,
) -> Result<Outcome, AllocError>
    requires { level ≤ MAX_JOB_LEVEL }
    ensures ok { IfOk result (HasOutcome served.now.version.files live.now (level_candidates_in (option_copied pointers.entry) served.now level)) }
    ensures err { OnErr result (CanPick served.now.version.files live.now (level_candidates_in (option_copied pointers.entry) served.now level)) }
{
    if level == 0 {
        return try_level(alloc, served, live, level);
    }
    match pointers {
        None => try_level(alloc, served, live, level),
        Some(pointers) => try_level_after(alloc, served, live, level, pointers.at(level)),
    }
}

// The outcome of a deeper level's candidates: the files that begin above the pointer, and then the others.
fn try_level_after(
    alloc: Global,
    served: &Served,
    live: &[LiveJob],
    level: u8,
    pointer: &[u8],
) -> Result<Outcome, AllocError>
    requires { level ≤ MAX_JOB_LEVEL }
    ensures ok { IfOk result (HasOutcome served.now.version.files live.now (flat_map (λ p. file_candidates p.meta) (level_after level pointer.now served.now.places))) }
    ensures err { OnErr result (CanPick served.now.version.files live.now (flat_map (λ p. file_candidates p.meta) (level_after level pointer.now served.now.places))) }
{
    let above = try_part(alloc, served, live, level, pointer, true)?;
    if above.is_picked() {
        return Ok(above);
    }
    let others = try_part(alloc, served, live, level, pointer, false)?;
    Ok(above.or(others))
}

// The outcome of those files of a level that begin above the pointer, or of the others, by key.
fn try_part(
    alloc: Global,
    served: &Served,
    live: &[LiveJob],
    level: u8,
    pointer: &[u8],
    above: bool,
) -> Result<Outcome, AllocError>
    requires { level ≤ MAX_JOB_LEVEL }
    ensures ok { IfOk result (HasOutcome served.now.version.files live.now (flat_map (λ p. file_candidates p.meta) (part_of_level level pointer.now above served.now.places))) }
    ensures err { OnErr result (CanPick served.now.version.files live.now (flat_map (λ p. file_candidates p.meta) (part_of_level level pointer.now above served.now.places))) }
{
    let mut outcome = Outcome::Blocked;
    for placed in served.places() {
        if is_in_part(placed, level, pointer, above) {
            let here = try_file(alloc, served, live, &placed.meta)?;
            outcome = outcome.or(here);
            if outcome.is_picked() {
                return Ok(outcome);
            }
        }
    }
    Ok(outcome)
}

// Whether the file is of the level, and begins above the pointer or not, as is asked.
fn is_in_part(placed: &Placed, level: u8, pointer: &[u8], above: bool) -> bool
    ensures { result ≡ (nat_eq placed.now.meta.level level && beq (key_lt pointer.now placed.now.meta.smallest) above) }
{
    placed.meta.level == level && pointer.cmp(placed.meta.smallest.as_slice()).is_lt() == above
}

// The outcome of a level's candidates.
fn try_level(
    alloc: Global,
    served: &Served,
    live: &[LiveJob],
    level: u8,
) -> Result<Outcome, AllocError>
    requires { level ≤ MAX_JOB_LEVEL }
    ensures ok { IfOk result (HasOutcome served.now.version.files live.now (level_candidates served.now.version.files level)) }
    ensures err { OnErr result (CanPick served.now.version.files live.now (level_candidates served.now.version.files level)) }
{
    let mut outcome = Outcome::Blocked;
    for file in served.listing().files {
        if file.level == level {
            let here = try_file(alloc, served, live, file)?;
            outcome = outcome.or(here);
            if outcome.is_picked() {
                return Ok(outcome);
            }
        }
    }
    Ok(outcome)
}

// The outcome of a file's candidates: at level 0 the one with older files only comes second.
fn try_file(
    alloc: Global,
    served: &Served,
    live: &[LiveJob],
    first: &FileMeta,
) -> Result<Outcome, AllocError>
    requires level { first.now.level ≤ MAX_JOB_LEVEL }
    requires listed { IsIn first.now served.now.version.files }
    ensures ok { IfOk result (HasOutcome served.now.version.files live.now (file_candidates first.now)) }
    ensures err { OnErr result (CanPick served.now.version.files live.now (file_candidates first.now)) }
{
    let wide = try_closure(alloc, served, live, first, false)?;
    if first.level > 0 || wide.is_picked() {
        return Ok(wide);
    }
    let older_only = try_closure(alloc, served, live, first, true)?;
    Ok(wide.or(older_only))
}

// The outcome of one candidate.
fn try_closure(
    alloc: Global,
    served: &Served,
    live: &[LiveJob],
    first: &FileMeta,
    older_only: bool,
) -> Result<Outcome, AllocError>
    requires level { first.now.level ≤ MAX_JOB_LEVEL }
    requires listed { IsIn first.now served.now.version.files }
    ensures ok { IfOk result (HasOutcome served.now.version.files live.now (candidate_of first.now older_only ∷ [])) }
    ensures err { OnErr result (CanPick served.now.version.files live.now (candidate_of first.now older_only ∷ [])) }
{
    let files = served.listing().files;
    let reach = closure(served, first, older_only);
    if is_blocked(live, first.level, reach) {
        return Ok(Outcome::Blocked);
    }
    if !fits_limits(files, first, older_only, reach) {
        return Ok(Outcome::TooLarge);
    }
    let want = want_of(alloc, files, first, older_only, reach)?;
    Ok(Outcome::Picked(want))
}

// Whether a live job shares a level and has a key in common.
fn is_blocked(live: &[LiveJob], level: u8, reach: KeyRangeRef<'_>) -> bool
    ensures { result ≡ list_any (λ j. shares_level j.want.level level && ranges_meet j.want.hull.lo j.want.hull.hi reach.entry.lo.now reach.entry.hi.now) live.now }
{
    live.iter().any(|job| {
        shares_level(job.want.level, level) && job.want.hull.range().overlaps(reach)
    })
}
