//! Reading an entry from the front of borrowed bytes: nothing is copied and nothing is allocated.

ghost use Rattle.lsm_key.specs.Visible.{lent_entry};
ghost use Rattle.lsm_key.specs.Reading.{Reads};
ghost use Rattle.lsm_block.specs.BlockReading.{value_field_at, entry_at, entry_within};

use crate::fault::BlockFault;
use lsm_key::{
    EntryRef, Kind, MAX_KEY_BYTES, MAX_VALUE_BYTES, key_in, piece_in, trailer_in, u32_in,
};

// The value of an entry of this kind.
#[tactic(auto, unfolding(crate::specs::BlockReading::value_field_at))]
fn value_in(kind: Kind, bytes: &[u8]) -> Result<(&[u8], &[u8]), BlockFault>
    ensures { Reads (λ x. (x.0.now, x.1.now)) result (value_field_at kind bytes.now) }
{
    let (len, rest) = u32_in(bytes, BlockFault::Truncated)?;
    let len = len as usize;
    let longest = match kind {
        Kind::Delete => 0,
        Kind::Put => MAX_VALUE_BYTES,
    };
    if len > longest {
        return Err(BlockFault::BadLength);
    }
    piece_in(rest, len, BlockFault::Truncated)
}

/// The entry at the front, which borrows the bytes, and the bytes after it.
pub fn entry_in<'a>(bytes: &'a [u8]) -> Result<(EntryRef<'a>, &'a [u8]), BlockFault>
    ensures { Reads (λ x. (lent_entry x.0, x.1.now)) result (entry_at bytes.now) }
{
    entry_within(bytes, MAX_KEY_BYTES)
}

/// The same of an entry whose key has at most `max_key` bytes.
#[tactic(auto, unfolding(crate::specs::BlockReading::entry_within))]
pub(crate) fn entry_within<'a>(
    bytes: &'a [u8],
    max_key: usize,
) -> Result<(EntryRef<'a>, &'a [u8]), BlockFault>
    ensures { Reads (λ x. (lent_entry x.0, x.1.now)) result (entry_within max_key bytes.now) }
{
    let (key, rest) = match key_in(bytes, max_key, BlockFault::Truncated, BlockFault::BadLength) {
        Ok(found) => found,
        Err(fault) => return Err(fault),
    };
    let (tag, rest) = match trailer_in(rest, BlockFault::Truncated, BlockFault::BadKind) {
        Ok(found) => found,
        Err(fault) => return Err(fault),
    };
    let (value, rest) = match value_in(tag.1, rest) {
        Ok(found) => found,
        Err(fault) => return Err(fault),
    };
    let entry = EntryRef {
        key,
        seq: tag.0,
        kind: tag.1,
        value,
    };
    Ok((entry, rest))
}
