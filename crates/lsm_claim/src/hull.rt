//! Hulls: the keys of a job.

ghost use Rattle.std.specs.Prelude.{◌≡◌, true};
ghost use Rattle.lsm_key.specs.Order.{key_le};

use bytes::Bytes;
use lsm_key::KeyRangeRef;
use std::alloc::AllocError;

/// The keys of a job, from the least to the greatest, both included. Its type keeps the two in order, so that no hull
/// is empty: an empty one could still meet others by its ends, and would block them needlessly.
///
/// Invariant: `lo` is not after `hi`.
#[derive(Debug, Drop)]
pub struct Hull {
    /// Its least key.
    pub lo: Bytes,
    /// Its greatest key.
    pub hi: Bytes,
    pub ghost proper: { key_le lo hi ≡ true },
}

impl Hull {
    ghost use Rattle.std.specs.Prelude.{◌≡◌, ◌↔◌, true, IsSome, IfSome};
    ghost use Rattle.lsm_key.specs.Order.{key_le};

    /// The keys from `lo` to `hi`, or `None` if `lo` is after `hi`.
    pub fn new(lo: Bytes, hi: Bytes) -> Option<Hull>
        ensures proper { IsSome result ↔ (key_le lo hi ≡ true) }
        ensures kept { IfSome result (λ hull. (hull.lo ≡ lo) × (hull.hi ≡ hi)) }
    {
        if lo.as_slice().cmp(hi.as_slice()).is_gt() {
            return None;
        }
        Some(Hull { lo, hi })
    }

    /// Its keys, as a range that is lent.
    pub fn range(&self) -> KeyRangeRef<'_>
        ensures lo { result.lo.now ≡ self.now.lo }
        ensures hi { result.hi.now ≡ self.now.hi }
    {
        KeyRangeRef {
            lo: self.lo.as_slice(),
            hi: self.hi.as_slice(),
        }
    }
}

impl Clone for Hull {
    ghost use Rattle.std.specs.Prelude.{◌≡◌};

    ghost is_clone = { λ hull copy. copy ≡ hull };

    /// The same hull. Shares the bytes.
    fn clone(&self) -> Result<Hull, AllocError> {
        let lo = self.lo.clone()?;
        let hi = self.hi.clone()?;
        Ok(Hull { lo, hi })
    }
}
