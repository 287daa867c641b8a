//! The bytes of tables field by field, as a worker may send them: a field may break its rule.

use bytes::{BufMut, Bytes, BytesMut};
use std::alloc::{AllocError, Global};

/// The fields of a table of one block. Its counts, lengths and index are those of its entries.
#[derive(Clone, Copy)]
pub(crate) struct TableFields {
    pub version: u8,
    /// The block target.
    pub target: u32,
    pub entries: &'static [EntryFields],
    /// How many of its last bytes are missing.
    pub missing: usize,
}

/// The fields of an entry. Their lengths are as the fields are.
#[derive(Clone, Copy)]
pub(crate) struct EntryFields {
    pub key: &'static [u8],
    pub sequence: u64,
    /// 0 of a deletion, 1 of a put.
    pub kind: u8,
    pub value: &'static [u8],
}

/// The bytes of a table.
pub(crate) fn bytes_of(alloc: Global, table: &TableFields) -> Result<Bytes, AllocError> {
    let block = block_of(alloc, table.entries)?;
    let mut out = BytesMut::new(alloc);
    out.put_slice(b"LSMT")?;
    out.put_u8(table.version)?;
    out.put_u32(table.target)?;
    out.put_u32(as_u32(table.entries.len()))?;
    put_index(&mut out, table.entries, block.len())?;
    out.put_slice(block.as_slice())?;
    let length = out.len().saturating_sub(table.missing);
    out.truncate(length);
    Bytes::copy_from_slice(alloc, out.as_slice())
}

fn block_of(alloc: Global, entries: &[EntryFields]) -> Result<BytesMut, AllocError> {
    let mut block = BytesMut::new(alloc);
    for entry in entries {
        put_head(&mut block, entry)?;
        block.put_u32(as_u32(entry.value.len()))?;
        block.put_slice(entry.value)?;
    }
    Ok(block)
}

// The count of blocks, and of the one block its length and the key and trailer of its last entry.
fn put_index(out: &mut BytesMut, entries: &[EntryFields], length: usize) -> Result<(), AllocError> {
    out.put_u32(1)?;
    out.put_u32(as_u32(length))?;
    match entries.last() {
        None => Ok(()),
        Some(last) => put_head(out, last),
    }
}

// The key and the trailer of an entry.
fn put_head(out: &mut BytesMut, entry: &EntryFields) -> Result<(), AllocError> {
    out.put_u16(u16::try_from(entry.key.len()).unwrap_or(u16::MAX))?;
    out.put_slice(entry.key)?;
    let sequence = entry.sequence.saturating_mul(256);
    out.put_u64(sequence.saturating_add(u64::from(entry.kind)))
}

fn as_u32(number: usize) -> u32 {
    u32::try_from(number).unwrap_or(u32::MAX)
}
