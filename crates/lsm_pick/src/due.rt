//! Which levels need compaction (are due): the one test of it, for the picker and for whoever asks a store.

ghost use Rattle.std.specs.Prelude.{◌≡◌, ◌≤◌, ◌*◌, ◌^◌, ◌-◌, ◌+◌, count_by, sum_by, length, nat_eq, nat_le, nat_lt};
ghost use Rattle.lsm_key.specs.declared.limits.TheConstants.{MAX_JOB_LEVEL};
ghost use Rattle.lsm_key.specs.declared.limits.TheConstants.{MAX_BASE};
ghost use Rattle.lsm_pick.specs.Due.{is_due, is_full, is_heavy, of_level, most_level_bytes};

use lsm_edit::FileMeta;
use lsm_key::Limits;

/// Whether the level needs compaction. The deepest one, which has none below it, never does.
pub fn is_due(limits: &Limits, files: &[FileMeta], level: u8) -> bool
    requires { level ≤ MAX_JOB_LEVEL }
    ensures { result ≡ is_due limits.now files.now level }
{
    if level == 0 {
        is_full(limits, files)
    } else {
        exceeds(files, level, allowed(limits, level))
    }
}

// Whether level 0 has enough files to need compaction.
fn is_full(limits: &Limits, files: &[FileMeta]) -> bool
    ensures { result ≡ is_full limits.now files.now }
{
    limits.l0 <= level_zero_count(files) as u64
}

// How many files level 0 has.
fn level_zero_count(files: &[FileMeta]) -> usize
    ensures { result ≡ length (of_level 0 files.now) }
{
    files.iter().filter(|file| file.level == 0).count()
}

// The most bytes that a deeper level may have before it needs compaction.
fn allowed(limits: &Limits, level: u8) -> u64
    requires some { 1 ≤ level }
    requires most { level ≤ MAX_JOB_LEVEL }
    ensures { result ≡ most_level_bytes limits.now level }
{
    const FACTORS: [u64; 5] = [1, 10, 100, 1000, 10_000];
    limits.base * FACTORS[level as usize - 1]
}

// Whether the files of the level have more bytes than that.
fn exceeds(files: &[FileMeta], level: u8, most: u64) -> bool
    requires { most ≤ MAX_BASE * 10000 }
    ensures { result ≡ is_heavy files.now level most }
{
    let mut total = 0;
    for file in files {
        if file.level == level {
            total += file.bytes as u64;
            if total > most {
                return true;
            }
        }
    }
    false
}
