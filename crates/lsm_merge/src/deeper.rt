//! Whether deeper files may have a key.

ghost use Rattle.std.specs.Prelude.{◌≡◌, ◌≤◌, ℕ, List, [], length, IfOk, IsPermutation, true, false};
ghost use Rattle.std.specs.List.Sorted.{IsPartitionPoint};
ghost use Rattle.lsm_key.specs.Order.{key_le};
ghost use Rattle.lsm_key.specs.declared.range.KeyRange.{KeyRange};
ghost use Rattle.lsm_msg.specs.Merge.{is_in_ranges};
ghost use Rattle.lsm_merge.specs.Reaching.{IsByLeast, AreReaching, with_raised_ends};

use bytes::Bytes;
use lsm_key::KeyRange;
use std::alloc::{AllocError, Global};
use std::marker::Model;

/// Union of key ranges, sorted by start, each end raised to the running maximum, so that membership is one binary
/// search: O(log n) comparisons, not one a range.
///
/// Invariant: the least keys of the ranges ascend, and so do the greatest ones.
#[derive(Drop)]
pub(crate) struct DeeperKeys {
    ranges: Vec<KeyRange>,
}

impl Model for DeeperKeys {
    ghost Value = { List KeyRange };

    ghost view = { λ k. k.ranges.items };

    ghost invariant = { λ k. AreReaching k.ranges.items };
}

impl DeeperKeys {
    /// The union of the ranges. Shares the bytes.
    pub(crate) fn of(alloc: Global, ranges: &[KeyRange]) -> Result<DeeperKeys, AllocError>
        ensures { IfOk result (λ keys. (key : List ℕ) → is_in_ranges keys key ≡ is_in_ranges ranges.now key) }
    {
        let sorted = by_least(alloc, ranges)?;
        let ranges = widened(alloc, &sorted)?;
        Ok(DeeperKeys { ranges })
    }

    /// Whether the key is in one of them.
    pub(crate) fn have(&self, key: &[u8]) -> bool
        ensures { result ≡ is_in_ranges self.now key.now }
    {
        let place = begun_at(&self.ranges, key);
        place > 0 && key.cmp(self.ranges[place - 1].hi.as_slice()).is_le()
    }
}

// The ranges in the order of their least keys.
fn by_least(alloc: Global, ranges: &[KeyRange]) -> Result<Vec<KeyRange>, AllocError>
    ensures all { IfOk result (λ sorted. IsPermutation ranges.now sorted.items) }
    ensures order { IfOk result (λ sorted. IsByLeast sorted.items) }
{
    let mut sorted = ranges.to_vec(alloc)?;
    sorted.sort_by(|range, other| range.lo.as_slice().cmp(other.lo.as_slice()))?;
    Ok(sorted)
}

// The ranges, each end raised to the maximum so far.
fn widened(alloc: Global, ranges: &[KeyRange]) -> Result<Vec<KeyRange>, AllocError>
    ensures { IfOk result (λ wide. wide.items ≡ with_raised_ends [] ranges.now) }
{
    let mut wide = Vec::with_capacity(alloc, ranges.len())?;
    let mut reach = Bytes::new();
    for range in ranges {
        if range.hi.as_slice().cmp(reach.as_slice()).is_gt() {
            reach = range.hi.clone()?;
        }
        let lo = range.lo.clone()?;
        let hi = reach.clone()?;
        wide.push(KeyRange { lo, hi })?;
    }
    Ok(wide)
}

// How many ranges begin at or before the key.
fn begun_at(ranges: &[KeyRange], key: &[u8]) -> usize
    requires { IsByLeast ranges.now }
    ensures within { result ≤ length ranges.now }
    ensures point { IsPartitionPoint (λ r. key_le r.lo key.now ≡ true) (λ r. key_le r.lo key.now ≡ false) ranges.now result }
{
    ranges.partition_point(|range| range.lo.as_slice().cmp(key).is_le())
}
