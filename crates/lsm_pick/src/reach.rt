//! Closures, by their key ranges.
//!
//! A closure is determined by its key range: it has the first file, and of the files that may join it those that
//! overlap the range. So the search only widens the range, level by level, until no file widens it any more.

ghost use Rattle.std.specs.Prelude.{◌≡◌, ◌≤◌, ◌&&◌, ◌+◌, IsTrue, ◌↔◌, if◌then◌else◌, nat_eq};
ghost use Rattle.lsm_key.specs.declared.limits.TheConstants.{MAX_JOB_LEVEL};
ghost use Rattle.lsm_key.specs.Sets.{IsIn};
ghost use Rattle.lsm_key.specs.Order.{key_le};
ghost use Rattle.lsm_edit.specs.declared.served.Placed.{Placed};
ghost use Rattle.lsm_edit.specs.Served.{AreInSearchOrder, IsServed};
ghost use Rattle.lsm_key.specs.KeyRanges.{higher, lower};
ghost use Rattle.lsm_pick.specs.Reach.{Grows, IsFull, is_met, joins_at, may_join, candidate_of};

use lsm_edit::{FileMeta, Placed, Served};
use lsm_key::KeyRangeRef;

// Extended by the keys of a file, if it may join and overlaps.
fn taking<'a>(
    reach: KeyRangeRef<'a>,
    first: &FileMeta,
    older_only: bool,
    file: &'a FileMeta,
) -> KeyRangeRef<'a>
    requires { first.now.level ≤ MAX_JOB_LEVEL }
    ensures lo { result.lo.now ≡ if may_join (candidate_of first.now older_only) file.now && is_met reach.entry.lo.now reach.entry.hi.now file.now then lower reach.entry.lo.now file.now.smallest else reach.entry.lo.now }
    ensures hi { result.hi.now ≡ if may_join (candidate_of first.now older_only) file.now && is_met reach.entry.lo.now reach.entry.hi.now file.now then higher reach.entry.hi.now file.now.largest else reach.entry.hi.now }
{
    if may_join(first, older_only, file) && reach.overlaps(file.range()) {
        reach.hull_with(file.range())
    } else {
        reach
    }
}

// Whether both ranges have the same ends.
fn same(reach: KeyRangeRef<'_>, other: KeyRangeRef<'_>) -> bool
    ensures { IsTrue result ↔ (reach.entry.lo.now ≡ other.entry.lo.now) × (reach.entry.hi.now ≡ other.entry.hi.now) }
{
    reach.lo == other.lo && reach.hi == other.hi
}

/// The key range of the closure of a file. In each round the files of the next level are found by a binary search;
/// those of level 0, which are not sorted by key, are scanned once.
pub(crate) fn closure<'a>(
    served: &'a Served,
    first: &'a FileMeta,
    older_only: bool,
) -> KeyRangeRef<'a>
    requires level { first.now.level ≤ MAX_JOB_LEVEL }
    requires listed { IsIn first.now served.now.version.files }
    ensures { IsFull served.now.version.files (candidate_of first.now older_only) result.lo.now result.hi.now }
{
    let mut reach = first.range();
    let mut wider = widened(served, first, older_only, reach);
    while !same(wider, reach) {
        reach = wider;
        wider = widened(served, first, older_only, reach);
    }
    reach
}

// Widened by all files that may join and overlap it.
fn widened<'a>(
    served: &'a Served,
    first: &FileMeta,
    older_only: bool,
    reach: KeyRangeRef<'a>,
) -> KeyRangeRef<'a>
    requires { first.now.level ≤ MAX_JOB_LEVEL }
    ensures grows { Grows (candidate_of first.now older_only) served.now.places (may_join (candidate_of first.now older_only)) reach.entry.lo.now reach.entry.hi.now result.lo.now result.hi.now }
    ensures sound { IsServed served.now }
{
    let places = served.places();
    let below = with_next(served, first, older_only, reach);
    if first.level > 0 {
        return below;
    }
    with_level_zero(places, first, older_only, below)
}

// Widened by the files of the next level that overlap it.
fn with_next<'a>(
    served: &'a Served,
    first: &FileMeta,
    older_only: bool,
    reach: KeyRangeRef<'a>,
) -> KeyRangeRef<'a>
    requires { first.now.level ≤ MAX_JOB_LEVEL }
    ensures { Grows (candidate_of first.now older_only) served.now.places (joins_at (candidate_of first.now older_only) (first.now.level + 1)) reach.entry.lo.now reach.entry.hi.now result.lo.now result.hi.now }
{
    let level = first.level + 1;
    let mut wider = reach;
    for placed in served.level_from(level, reach.lo) {
        if !begins_by(placed, level, reach.hi) {
            return wider;
        }
        wider = wider.hull_with(placed.meta.range());
    }
    wider
}

// Widened by the files of level 0 that may join and overlap it.
fn with_level_zero<'a>(
    places: &'a [Placed],
    first: &FileMeta,
    older_only: bool,
    reach: KeyRangeRef<'a>,
) -> KeyRangeRef<'a>
    requires level { first.now.level ≡ 0 }
    requires ordered { AreInSearchOrder places.now }
    ensures { Grows (candidate_of first.now older_only) places.now (joins_at (candidate_of first.now older_only) 0) reach.entry.lo.now reach.entry.hi.now result.lo.now result.hi.now }
{
    let mut wider = reach;
    for placed in places {
        if placed.meta.level > 0 {
            return wider;
        }
        wider = taking(wider, first, older_only, &placed.meta);
    }
    wider
}

/// Whether the file joins the closure if it overlaps its range.
pub(crate) fn may_join(first: &FileMeta, older_only: bool, file: &FileMeta) -> bool
    requires { first.now.level ≤ MAX_JOB_LEVEL }
    ensures { result ≡ may_join (candidate_of first.now older_only) file.now }
{
    file.level == first.level + 1
        || (first.level == 0 && file.level == 0 && (!older_only || file.number < first.number))
}

// Whether the file is of the level and its smallest key is no greater than the key.
fn begins_by(placed: &Placed, level: u8, key: &[u8]) -> bool
    ensures { result ≡ (nat_eq placed.now.meta.level level && key_le placed.now.meta.smallest key.now) }
{
    placed.meta.level == level && placed.meta.smallest.as_slice().cmp(key).is_le()
}
