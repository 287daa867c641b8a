//! Where some entries of a block stand in its bytes.

ghost use Rattle.std.specs.Prelude.{◌<◌, List, length};
ghost use Rattle.lsm_key.specs.declared.entry.Entry.{Entry};
ghost use Rattle.lsm_block.specs.Spans.{IsSpan, IsSomeSpan};
ghost use Rattle.lsm_block.specs.Fences.{AreFences};
ghost use Rattle.lsm_block.specs.Handles.{IsHandleFor};

use crate::fences::{Fences, begin_of, end_of};

/// Some entries of a block, by where they stand in its bytes: from an offset on, so many bytes.
#[derive(Clone, Copy, Debug, PartialEq, Eq, Hash)]
pub struct BlockHandle {
    pub offset: usize,
    pub size: usize,
}

/// The handle of the entries among which a look-up of the key ends, in a span with fences: those between two of them. O(log n)
/// for n fences. Allocates nothing.
pub(crate) fn handle_in(bytes: &[u8], fences: &Fences, key: &[u8]) -> BlockHandle
    requires known { IsSomeSpan bytes.now }
    requires some { 0 < length bytes.now }
    requires fenced { (es : List Entry) → IsSpan bytes.now es → AreFences fences.now.front es fences.now.prefixes.items fences.now.places.items }
    ensures { (es : List Entry) → IsSpan bytes.now es → IsHandleFor es key.now result }
{
    let begin = begin_of(fences, key) as usize;
    let end = end_of(fences, key, bytes.len());
    if begin >= end {
        // A key before the first fence: all entries are right too.
        return BlockHandle {
            offset: 0,
            size: bytes.len(),
        };
    }
    BlockHandle {
        offset: begin,
        size: end - begin,
    }
}
