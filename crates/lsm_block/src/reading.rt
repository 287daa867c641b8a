//! Reading an entry from the front of a block's bytes.

ghost use Rattle.lsm_key.specs.Reading.{Gives};
ghost use Rattle.lsm_key.specs.Entries.{longest};
ghost use Rattle.lsm_block.specs.BlockReading.{value_field_at, entry_at};

use crate::fault::{BlockError, BlockFault};
use bytes::Bytes;
use lsm_key::{
    Entry, InternalKey, Kind, MAX_KEY_BYTES, MAX_VALUE_BYTES, Refused, read_key, read_piece,
    read_trailer, read_u32,
};

// The value of an entry of this kind.
#[tactic(auto, unfolding(crate::specs::BlockReading::value_field_at))]
fn read_value(kind: Kind, rest: &mut Bytes) -> Result<Bytes, BlockError>
    ensures { Gives (λ b. (b, rest.new)) result (value_field_at kind rest.old) }
{
    let len = read_u32(rest, BlockFault::Truncated)? as usize;
    let longest = match kind {
        Kind::Delete => 0,
        Kind::Put => MAX_VALUE_BYTES,
    };
    if len > longest {
        return Err(Refused::Fault(BlockFault::BadLength));
    }
    read_piece(rest, len, BlockFault::Truncated)
}

// An entry, which shares the bytes.
#[tactic(auto, unfolding(crate::specs::BlockReading::entry_within))]
pub(crate) fn read_entry(rest: &mut Bytes) -> Result<Entry, BlockError>
    ensures { Gives (λ e. (e, rest.new)) result (entry_at rest.old) }
{
    let key = read_key(
        rest,
        MAX_KEY_BYTES,
        BlockFault::Truncated,
        BlockFault::BadLength,
    )?;
    let (seq, kind) = read_trailer(rest, BlockFault::Truncated, BlockFault::BadKind)?;
    let value = read_value(kind, rest)?;
    let ikey = InternalKey { key, seq, kind };
    Ok(Entry { ikey, value })
}
