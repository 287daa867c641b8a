//! The rules of a job, each as a test.

ghost use Rattle.std.specs.Prelude.{◌≡◌, ◌<◌, ◌↔◌, All, AllPairs, Any, IsTrue};
ghost use Rattle.lsm_claim.specs.Levels.{uses_level};
ghost use Rattle.lsm_msg.specs.Rules.{IsJobId, IsInput, ArePoints, AreInputs, AreDeeper};

use lsm_claim::JobId;
use lsm_edit::{FileMeta, are_keys, files_rise};
use lsm_key::{KeyRange, MAX_DEEPER, MAX_INPUTS, MAX_NUMBER, MAX_POINTS, Seq};

// Whether an epoch may issue this name.
pub(crate) fn is_job_id(id: JobId) -> bool
    ensures { IsTrue result ↔ IsJobId id }
{
    id.epoch >= 1 && id.epoch <= MAX_NUMBER && id.number >= 1 && id.number <= MAX_NUMBER
}

// Whether there are at most `MAX_POINTS`, ascending.
pub(crate) fn are_points(points: &[Seq]) -> bool
    ensures { IsTrue result ↔ ArePoints points.now }
{
    points.len() <= MAX_POINTS && points_rise(points)
}

fn points_rise(points: &[Seq]) -> bool
    ensures { IsTrue result ↔ AllPairs (λ p q. p < q) points.now }
{
    for i in 1..points.len() {
        if points[i].number() <= points[i - 1].number() {
            return false;
        }
    }
    true
}

// Whether there are at most `MAX_INPUTS` file records, by number, each of the level or the next one, and one of the
// level.
pub(crate) fn are_inputs(level: u8, files: &[FileMeta]) -> bool
    ensures { IsTrue result ↔ AreInputs level files.now }
{
    files.len() <= MAX_INPUTS
        && are_each_input(level, files)
        && files_rise(files)
        && has_level(level, files)
}

fn are_each_input(level: u8, files: &[FileMeta]) -> bool
    ensures { IsTrue result ↔ All (IsInput level) files.now }
{
    files.iter().all(|file| is_input(level, file))
}

fn has_level(level: u8, files: &[FileMeta]) -> bool
    ensures { IsTrue result ↔ Any (λ f. f.level ≡ level) files.now }
{
    files.iter().any(|file| file.level == level)
}

fn is_input(level: u8, file: &FileMeta) -> bool
    ensures { IsTrue result ↔ IsInput level file.now }
{
    uses_level(level, file.level) && file.is_valid()
}

fn uses_level(job: u8, level: u8) -> bool
    ensures { result ≡ uses_level job level }
{
    level == job || level as u16 == job as u16 + 1
}

// Whether there are at most `MAX_DEEPER` ranges, each in order.
pub(crate) fn are_deeper(ranges: &[KeyRange]) -> bool
    ensures { IsTrue result ↔ AreDeeper ranges.now }
{
    ranges.len() <= MAX_DEEPER && ranges.iter().all(|range| are_keys(&range.lo, &range.hi))
}
