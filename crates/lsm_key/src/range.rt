//! Closed ranges of keys: what a range holds, and whether two of them meet, said once for files and jobs.

ghost use Rattle.std.specs.Prelude.{◌≡◌, if◌then◌else◌};
ghost use Rattle.lsm_key.specs.Order.{key_le};
ghost use Rattle.lsm_key.specs.KeyRanges.{in_closed_range, ranges_meet, range_encloses, lower, higher};

use bytes::Bytes;

/// The keys from `lo` to `hi`, both included; none if `lo` is after `hi`.
#[derive(Debug, Drop, Clone, PartialEq, Eq)]
pub struct KeyRange {
    pub lo: Bytes,
    pub hi: Bytes,
}

/// A borrowed range of keys, both ends included.
#[derive(Clone, Copy, Debug)]
pub struct KeyRangeRef<'a> {
    pub lo: &'a [u8],
    pub hi: &'a [u8],
}

impl<'a> KeyRangeRef<'a> {
    /// Whether the key is in the range.
    pub fn contains(self, key: &[u8]) -> bool
        ensures { result ≡ in_closed_range self.entry.lo.now self.entry.hi.now key.now }
    {
        self.lo.cmp(key).is_le() && key.cmp(self.hi).is_le()
    }

    /// Whether the two ranges have a key in common, if neither is empty.
    pub fn overlaps(self, other: KeyRangeRef<'_>) -> bool
        ensures { result ≡ ranges_meet self.entry.lo.now self.entry.hi.now other.entry.lo.now other.entry.hi.now }
    {
        self.lo.cmp(other.hi).is_le() && other.lo.cmp(self.hi).is_le()
    }

    /// Whether all keys of the other range are in this one.
    pub fn encloses(self, other: KeyRangeRef<'_>) -> bool
        ensures { result ≡ range_encloses self.entry.lo.now self.entry.hi.now other.entry.lo.now other.entry.hi.now }
    {
        self.lo.cmp(other.lo).is_le() && other.hi.cmp(self.hi).is_le()
    }

    /// The least range that has the keys of both: from the lesser of their least keys to the greater of their greatest.
    pub fn hull_with(self, other: KeyRangeRef<'a>) -> KeyRangeRef<'a>
        ensures lo { result.lo.now ≡ lower self.entry.lo.now other.entry.lo.now }
        ensures hi { result.hi.now ≡ higher self.entry.hi.now other.entry.hi.now }
    {
        KeyRangeRef {
            lo: if self.lo.cmp(other.lo).is_le() {
                self.lo
            } else {
                other.lo
            },
            hi: if other.hi.cmp(self.hi).is_le() {
                self.hi
            } else {
                other.hi
            },
        }
    }
}
