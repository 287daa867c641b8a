//! The entries of a range of keys, and all entries, by a walk over the bytes of a span.

ghost use Rattle.std.specs.Prelude.{◌≡◌, ◌≤◌, List, length, filter, IfOk};
ghost use Rattle.lsm_key.specs.declared.entry.Entry.{Entry};
ghost use Rattle.lsm_key.specs.Order.{is_between};
ghost use Rattle.lsm_block.specs.Spans.{IsSpan, IsSomeSpan};
ghost use Rattle.lsm_block.specs.Fences.{AreFences};
ghost use Rattle.lsm_block.specs.Ranges.{Skips, IsLowerPlace};

use crate::fences::{Fences, lower_of};
use crate::lent::entry_in;
use crate::reading::read_entry;
use bytes::Bytes;
use lsm_key::{ENTRY_OVERHEAD, Entry};
use std::alloc::{AllocError, Global};

// Where a walk to the first entry whose key is not below `lo` begins: at the first one whose prefix is not, or at the end.
fn fence_below(bytes: &[u8], fences: &Fences, lo: &[u8]) -> usize
    requires known { IsSomeSpan bytes.now }
    requires fenced { (es : List Entry) → IsSpan bytes.now es → AreFences fences.now.front es fences.now.prefixes.items fences.now.places.items }
    ensures within { result ≤ length bytes.now }
    ensures place { (es : List Entry) → IsSpan bytes.now es → Skips es lo.now result }
{
    lower_of(fences, lo, bytes.len())
}

/// Where the first entry whose key is not below `lo` begins, in bytes from the beginning of the span: at their end if there is
/// none. Allocates nothing.
pub(crate) fn lower_in(bytes: &[u8], fences: &Fences, lo: &[u8]) -> usize
    requires known { IsSomeSpan bytes.now }
    requires fenced { (es : List Entry) → IsSpan bytes.now es → AreFences fences.now.front es fences.now.prefixes.items fences.now.places.items }
    ensures within { result ≤ length bytes.now }
    ensures place { (es : List Entry) → IsSpan bytes.now es → IsLowerPlace es lo.now result }
{
    let begin = fence_below(bytes, fences, lo);
    let mut rest = &bytes[begin..];
    while !rest.is_empty() {
        let (entry, after) = match entry_in(rest) {
            Ok(found) => found,
            Err(_) => return bytes.len(),
        };
        if !entry.key.cmp(lo).is_lt() {
            break;
        }
        rest = after;
    }
    bytes.len() - rest.len()
}

/// The entries whose key is at or after `lo` and before `hi`, in order, in a span with fences. They share its bytes.
/// O(log n) for n fences, and a walk from one of them to the end of the range.
pub fn entries_between(
    alloc: Global,
    bytes: &Bytes,
    fences: &Fences,
    lo: &[u8],
    hi: &[u8],
) -> Result<Vec<Entry>, AllocError>
    requires known { IsSomeSpan bytes.now }
    requires fenced { (es : List Entry) → IsSpan bytes.now es → AreFences fences.now.front es fences.now.prefixes.items fences.now.places.items }
    ensures { (es : List Entry) → IsSpan bytes.now es → IfOk result (λ list. list.items ≡ filter (is_between lo.now hi.now) es) }
{
    let mut rest = bytes.slice(lower_in(bytes.as_slice(), fences, lo)..)?;
    let mut entries = Vec::new(alloc);
    while !rest.is_empty() {
        let entry = match read_entry(&mut rest) {
            Ok(entry) => entry,
            // Memory ran out: a span has no fault.
            Err(_) => return Err(AllocError),
        };
        if !entry.ikey.key.as_slice().cmp(hi).is_lt() {
            return Ok(entries);
        }
        entries.push(entry)?;
    }
    Ok(entries)
}

/// All entries of a span, in order. They share its bytes. Room is reserved for `count` of them, if the bytes can hold so many,
/// since growing the list would move them.
pub fn entries_in(alloc: Global, bytes: &Bytes, count: usize) -> Result<Vec<Entry>, AllocError>
    requires { IsSomeSpan bytes.now }
    ensures { (es : List Entry) → IsSpan bytes.now es → IfOk result (λ list. list.items ≡ es) }
{
    let room = count.min(bytes.len() / ENTRY_OVERHEAD);
    let mut entries = Vec::with_capacity(alloc, room)?;
    let mut rest = bytes.clone()?;
    while !rest.is_empty() {
        let entry = match read_entry(&mut rest) {
            Ok(entry) => entry,
            // Memory ran out: a span has no fault.
            Err(_) => return Err(AllocError),
        };
        entries.push(entry)?;
    }
    Ok(entries)
}
