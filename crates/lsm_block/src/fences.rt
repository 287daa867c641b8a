//! The entries of a span, by the prefixes of their keys and where they begin: a look-up goes to the first one of its key's prefix.

ghost use Rattle.std.specs.Prelude.{◌≡◌, ◌≢◌, ◌<◌, ◌≤◌, List, IfSome, IfNone, length};
ghost use Rattle.std.specs.List.{All};
ghost use Rattle.std.specs.List.Sorted.{IsNonDecreasing, IsPartitionPoint};
ghost use Rattle.std.specs.Option.{option_map};
ghost use Rattle.lsm_key.specs.declared.entry.Entry.{Entry};
ghost use Rattle.lsm_key.specs.Visible.{visible, lent_entry};
ghost use Rattle.lsm_block.specs.Spans.{IsSpan, IsSomeSpan};
ghost use Rattle.lsm_key.specs.Prefix.{prefix_of};
ghost use Rattle.lsm_block.specs.Fences.{AreFences, IsFirstFence, IsLowerFence, MayBegin, MayEnd};

use crate::walk::seek_in;
use bytes::Bytes;
use lsm_key::{EntryRef, Seq, prefix_of};
use std::alloc::{AllocError, Global};

/// Fences of a span, in its order: the prefix of an entry's key after the front, and where the entry begins, in bytes from the
/// beginning of the span. Any bytes may be the front: it decides only how well the prefixes tell keys apart.
#[derive(Debug, Drop)]
pub struct Fences {
    front: Bytes,
    prefixes: Vec<u64>,
    places: Vec<u32>,
}

impl Fences {
    ghost use Rattle.std.specs.Prelude.{◌≡◌, ◌<◌, ◌≤◌, ◌++◌, ◌∷◌, [], IfOk, IfSome, IfNone, OnOk, OnErr, length, slice_index};
    ghost use Rattle.lsm_key.specs.Prefix.{prefix_of};

    /// No fence, with room for `count`.
    pub fn with_capacity(alloc: Global, front: Bytes, count: usize) -> Result<Fences, AllocError>
        ensures { IfOk result (λ f. (f.front ≡ front) × (f.prefixes.items ≡ []) × (f.places.items ≡ [])) }
    {
        let prefixes = Vec::with_capacity(alloc, count)?;
        let places = Vec::with_capacity(alloc, count)?;
        Ok(Fences {
            front,
            prefixes,
            places,
        })
    }

    /// Takes all fences away. The front stays.
    pub fn clear(&mut self)
        ensures none { (self.new.prefixes.items ≡ []) × (self.new.places.items ≡ []) }
        ensures front { self.new.front ≡ self.old.front }
    {
        self.prefixes.clear();
        self.places.clear();
    }

    /// Adds a fence at the end, for an entry of this key that begins at the place. A refusal changes nothing.
    pub fn push(&mut self, key: &[u8], place: u32) -> Result<(), AllocError>
        ensures front { self.new.front ≡ self.old.front }
        ensures ok { OnOk result ((self.new.prefixes.items ≡ self.old.prefixes.items ++ prefix_of self.old.front key.now ∷ []) × (self.new.places.items ≡ self.old.places.items ++ place ∷ [])) }
        ensures err { OnErr result ((self.new.prefixes.items ≡ self.old.prefixes.items) × (self.new.places.items ≡ self.old.places.items)) }
    {
        self.places.reserve(1)?;
        self.prefixes.push(prefix_of(self.front.as_slice(), key))?;
        self.places.push_reserved(place);
        Ok(())
    }

    // The prefix and the place of a fence.
    fn fence(&self, number: usize) -> Option<(u64, u32)>
        ensures some { IfSome result (λ f. (number < length self.now.prefixes.items) × (slice_index self.now.prefixes.items number ≡ f.0) × (slice_index self.now.places.items number ≡ f.1)) }
        ensures none { IfNone result (number < length self.now.prefixes.items → length self.now.places.items ≤ number) }
    {
        Some((*self.prefixes.get(number)?, *self.places.get(number)?))
    }
}

// Where a walk for the key may begin: at the last fence, as far as a search finds it, whose prefix is less than the key's.
pub(crate) fn begin_of(fences: &Fences, key: &[u8]) -> u32
    ensures { MayBegin fences.now.front fences.now.prefixes.items fences.now.places.items key.now result }
{
    let prefix = prefix_of(fences.front.as_slice(), key);
    let count = fences.prefixes.partition_point(|other| *other < prefix);
    // The search is trusted for speed alone: what it found is tested again.
    match fences.fence(count.wrapping_sub(1)) {
        Some((other, place)) if other < prefix => place,
        _ => 0,
    }
}

// Where a walk for the key may end: at the first fence, as far as a search finds it, whose prefix is greater than the key's, or
// at the end of the bytes, which are so many.
pub(crate) fn end_of(fences: &Fences, key: &[u8], len: usize) -> usize
    ensures { MayEnd fences.now.front fences.now.prefixes.items fences.now.places.items key.now len result }
{
    let prefix = prefix_of(fences.front.as_slice(), key);
    let count = fences.prefixes.partition_point(|other| *other <= prefix);
    // The search is trusted for speed alone: what it found is tested again.
    match fences.fence(count) {
        Some((other, place)) if prefix < other => place as usize,
        _ => len,
    }
}

// How many prefixes are less.
fn count_below(prefixes: &[u64], prefix: u64) -> usize
    requires { IsNonDecreasing prefixes.now }
    ensures { IsPartitionPoint (λ n. n < prefix) (λ n. prefix ≤ n) prefixes.now result }
{
    prefixes.partition_point(|other| *other < prefix)
}

// Where the first entry begins whose prefix is the key's, if there is one.
fn first_of(fences: &Fences, key: &[u8]) -> Option<u32>
    requires sorted { IsNonDecreasing fences.now.prefixes.items }
    requires paired { length fences.now.prefixes.items ≡ length fences.now.places.items }
    ensures found { IfSome result (IsFirstFence fences.now.front fences.now.prefixes.items fences.now.places.items key.now) }
    ensures none { IfNone result (All (λ n. n ≢ prefix_of fences.now.front key.now) fences.now.prefixes.items) }
{
    let prefix = prefix_of(fences.front.as_slice(), key);
    let number = count_below(fences.prefixes.as_slice(), prefix);
    match fences.fence(number) {
        Some((other, place)) if other == prefix => Some(place),
        _ => None,
    }
}

/// Where the first entry begins whose prefix is not less than the key's: at the end of the bytes, which are so many, if there is
/// none.
pub(crate) fn lower_of(fences: &Fences, key: &[u8], len: usize) -> usize
    requires sorted { IsNonDecreasing fences.now.prefixes.items }
    requires paired { length fences.now.prefixes.items ≡ length fences.now.places.items }
    ensures { IsLowerFence fences.now.front fences.now.prefixes.items fences.now.places.items key.now len result }
{
    let prefix = prefix_of(fences.front.as_slice(), key);
    let number = count_below(fences.prefixes.as_slice(), prefix);
    match fences.fence(number) {
        Some((_, place)) => place as usize,
        None => len,
    }
}

/// The entry of the key with the greatest sequence at most `at`, in a span with fences. O(log n) for n fences, and a walk over
/// the entries of its key's prefix. Allocates nothing.
pub fn get_in<'a>(bytes: &'a [u8], fences: &Fences, key: &[u8], at: Seq) -> Option<EntryRef<'a>>
    requires known { IsSomeSpan bytes.now }
    requires fenced { (es : List Entry) → IsSpan bytes.now es → AreFences fences.now.front es fences.now.prefixes.items fences.now.places.items }
    ensures { (es : List Entry) → IsSpan bytes.now es → option_map lent_entry result ≡ visible es key.now at }
{
    let Some(begin) = first_of(fences, key) else {
        return None;
    };
    seek_in(&bytes[begin as usize..], key, at)
}
