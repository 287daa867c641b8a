//! The limits of a job, tested over a closure before a compaction is made of it, so that one that is too large takes no
//! memory.

ghost use Rattle.std.specs.Prelude.{◌≡◌, ◌≤◌, filter, length};
ghost use Rattle.lsm_key.specs.declared.limits.TheConstants.{MAX_JOB_LEVEL};
ghost use Rattle.lsm_pick.specs.Counted.{input_bytes, deeper_than, fits_job};
ghost use Rattle.lsm_pick.specs.Reach.{is_taken, candidate_of};

use crate::want::takes;
use lsm_edit::FileMeta;
use lsm_key::{KeyRangeRef, MAX_DEEPER, MAX_INPUT_BYTES, MAX_INPUTS};

/// Whether the closure is within the job limits.
pub(crate) fn fits_limits(
    files: &[FileMeta],
    first: &FileMeta,
    older_only: bool,
    reach: KeyRangeRef<'_>,
) -> bool
    requires { first.now.level ≤ MAX_JOB_LEVEL }
    ensures { result ≡ fits_job (candidate_of first.now older_only) reach.entry.lo.now reach.entry.hi.now files.now }
{
    let bytes = match input_bytes(files, first, older_only, reach) {
        None => return false,
        Some(bytes) => bytes,
    };
    bytes <= MAX_INPUT_BYTES && deeper_count(files, first.level, reach) <= MAX_DEEPER
}

// The bytes of the closure's files, or `None` if there are more of these than a job may have.
fn input_bytes(
    files: &[FileMeta],
    first: &FileMeta,
    older_only: bool,
    reach: KeyRangeRef<'_>,
) -> Option<u64>
    requires { first.now.level ≤ MAX_JOB_LEVEL }
    ensures { result ≡ input_bytes (filter (is_taken (candidate_of first.now older_only) reach.entry.lo.now reach.entry.hi.now) files.now) }
{
    let (mut inputs, mut bytes) = (0, 0);
    for file in files {
        if takes(first, older_only, reach, file) {
            if inputs == MAX_INPUTS {
                return None;
            }
            inputs += 1;
            bytes += file.bytes as u64;
        }
    }
    Some(bytes)
}

// How many files below both levels may have keys of the closure.
fn deeper_count(files: &[FileMeta], level: u8, reach: KeyRangeRef<'_>) -> usize
    requires { level ≤ MAX_JOB_LEVEL }
    ensures { result ≡ length (deeper_than level reach.entry.lo.now reach.entry.hi.now files.now) }
{
    files
        .iter()
        .filter(|file| file.level > level + 1 && reach.overlaps(file.range()))
        .count()
}
