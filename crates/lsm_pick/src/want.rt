//! The compaction of a closure, made once it is known that nothing stands against it: only here a pick takes memory.

ghost use Rattle.std.specs.Prelude.{◌≡◌, ◌≤◌, IfOk, filter, map, true};
ghost use Rattle.lsm_key.specs.declared.limits.TheConstants.{MAX_JOB_LEVEL};
ghost use Rattle.lsm_key.specs.Order.{key_le};
ghost use Rattle.lsm_pick.specs.Reach.{is_taken, candidate_of};

use crate::reach::may_join;
use bytes::Bytes;
use lsm_claim::{Hull, Want};
use lsm_edit::FileMeta;
use lsm_key::{Items, KeyRangeRef};
use std::alloc::{AllocError, Global};

/// Whether the file is in the closure.
pub(crate) fn takes(
    first: &FileMeta,
    older_only: bool,
    reach: KeyRangeRef<'_>,
    file: &FileMeta,
) -> bool
    requires { first.now.level ≤ MAX_JOB_LEVEL }
    ensures { result ≡ is_taken (candidate_of first.now older_only) reach.entry.lo.now reach.entry.hi.now file.now }
{
    file.number == first.number
        || (may_join(first, older_only, file) && reach.overlaps(file.range()))
}

/// The compaction of a closure.
pub(crate) fn want_of(
    alloc: Global,
    files: &[FileMeta],
    first: &FileMeta,
    older_only: bool,
    reach: KeyRangeRef<'_>,
) -> Result<Want, AllocError>
    requires level { first.now.level ≤ MAX_JOB_LEVEL }
    requires proper { key_le reach.lo.now reach.hi.now ≡ true }
    ensures level { IfOk result (λ want. want.level ≡ first.now.level) }
    ensures files { IfOk result (λ want. want.files ≡ map (λ f. f.number) (filter (is_taken (candidate_of first.now older_only) reach.entry.lo.now reach.entry.hi.now) files.now)) }
    ensures hull { IfOk result (λ want. (want.hull.lo ≡ reach.entry.lo.now) × (want.hull.hi ≡ reach.entry.hi.now)) }
{
    let numbers = numbers_of(alloc, files, first, older_only, reach)?;
    let lo = Bytes::copy_from_slice(alloc, reach.lo)?;
    let hi = Bytes::copy_from_slice(alloc, reach.hi)?;
    Ok(Want {
        level: first.level,
        files: Items::from_vec(numbers),
        hull: Hull { lo, hi },
    })
}

// The numbers of the closure's files.
fn numbers_of(
    alloc: Global,
    files: &[FileMeta],
    first: &FileMeta,
    older_only: bool,
    reach: KeyRangeRef<'_>,
) -> Result<Vec<u64>, AllocError>
    requires { first.now.level ≤ MAX_JOB_LEVEL }
    ensures { IfOk result (λ numbers. numbers.items ≡ map (λ f. f.number) (filter (is_taken (candidate_of first.now older_only) reach.entry.lo.now reach.entry.hi.now) files.now)) }
{
    let mut numbers = Vec::new(alloc);
    for file in files {
        if takes(first, older_only, reach, file) {
            numbers.push(file.number)?;
        }
    }
    Ok(numbers)
}
