//! Reading a table's index: the length of each block, and its last internal key.

ghost use Rattle.lsm_key.specs.Reading.{Reads};
ghost use Rattle.lsm_table.specs.Index.{index_entry};
ghost use Rattle.lsm_table.specs.TableReading.{index_at, sum_at};

use crate::fault::TableFault;
use lsm_key::{Kind, Seq, key_in, trailer_in, u32_in};

/// What the index tells of a block: its length in bytes, and the internal key of its last entry. It borrows the index.
#[derive(Clone, Copy, Debug)]
pub(crate) struct IndexEntry<'a> {
    pub(crate) len: u32,
    pub(crate) key: &'a [u8],
    pub(crate) seq: Seq,
    pub(crate) kind: Kind,
}

/// What the index of some blocks tells of them together: the sum of their lengths, and the last key. It borrows the index.
#[derive(Clone, Copy, Debug)]
pub(crate) struct IndexSum<'a> {
    pub(crate) total: u64,
    pub(crate) last: &'a [u8],
    /// The bytes after the index.
    pub(crate) rest: &'a [u8],
}

/// What the index tells of the next block, whose last key has at most `max_key` bytes, and the bytes after that.
#[tactic(auto, unfolding(crate::specs::TableReading::index_at))]
pub(crate) fn index_in<'a>(
    bytes: &'a [u8],
    max_key: usize,
) -> Result<(IndexEntry<'a>, &'a [u8]), TableFault>
    ensures { Reads (λ x. (index_entry x.0, x.1.now)) result (index_at max_key bytes.now) }
{
    let (len, rest) = u32_in(bytes, TableFault::Truncated)?;
    if len == 0 {
        return Err(TableFault::BadIndex);
    }
    let (key, rest) = match key_in(rest, max_key, TableFault::Truncated, TableFault::BadIndex) {
        Ok(found) => found,
        Err(fault) => return Err(fault),
    };
    let (tag, rest) = match trailer_in(rest, TableFault::Truncated, TableFault::BadIndex) {
        Ok(found) => found,
        Err(fault) => return Err(fault),
    };
    let entry = IndexEntry {
        len,
        key,
        seq: tag.0,
        kind: tag.1,
    };
    Ok((entry, rest))
}

/// What the index tells of so many blocks, whose last keys have at most `max_key` bytes. It reserves nothing by their count.
pub(crate) fn sum_index<'a>(
    index: &'a [u8],
    blocks: u32,
    max_key: usize,
) -> Result<IndexSum<'a>, TableFault>
    ensures { Reads (λ s. (s.total, s.rest.now)) result (sum_at max_key blocks 0 index.now) }
{
    let mut rest = index;
    let mut last: &[u8] = &[];
    let mut total = 0u64;
    let mut left = blocks;
    while left > 0 {
        let (entry, after) = match index_in(rest, max_key) {
            Ok(found) => found,
            Err(fault) => return Err(fault),
        };
        total += u64::from(entry.len);
        last = entry.key;
        rest = after;
        left -= 1;
    }
    Ok(IndexSum { total, last, rest })
}
