//! Looking an entry up by a walk over the bytes that spell it.

ghost use Rattle.std.specs.Prelude.{◌≡◌, List};
ghost use Rattle.std.specs.Option.{option_map};
ghost use Rattle.lsm_key.specs.declared.entry.Entry.{Entry};
ghost use Rattle.lsm_key.specs.Visible.{visible, lent_entry};
ghost use Rattle.lsm_key.specs.Order.{comes_before};
ghost use Rattle.lsm_block.specs.Spans.{IsSpan, IsSomeSpan};

use crate::lent::entry_in;
use lsm_key::{EntryRef, Seq};
use std::cmp::Ordering;

// Whether the entry is before the key at this sequence.
fn stands_before(entry: &EntryRef<'_>, key: &[u8], at: Seq) -> bool
    ensures { result ≡ comes_before key.now at (lent_entry entry.now) }
{
    match entry.key.cmp(key) {
        Ordering::Less => true,
        Ordering::Greater => false,
        Ordering::Equal => at < entry.seq,
    }
}

/// The entry of the key with the greatest sequence at most `at`, in bytes that are known to be a run. O(n) for n entries:
/// it reads no further than the entry. Allocates nothing.
pub fn seek_in<'a>(bytes: &'a [u8], key: &[u8], at: Seq) -> Option<EntryRef<'a>>
    requires { IsSomeSpan bytes.now }
    ensures { (es : List Entry) → IsSpan bytes.now es → option_map lent_entry result ≡ visible es key.now at }
{
    let mut rest = bytes;
    while !rest.is_empty() {
        let (entry, after) = match entry_in(rest) {
            Ok(found) => found,
            Err(_) => return None,
        };
        if !stands_before(&entry, key, at) {
            return if entry.key.cmp(key).is_ne() {
                None
            } else {
                Some(entry)
            };
        }
        rest = after;
    }
    None
}
