//! Writing what stands before the blocks of a table: the header and the index, whose fields `building.rt` lists.

ghost use Rattle.std.specs.Prelude.{◌≡◌, ◌++◌, OnErr, OnOk};
ghost use Rattle.std.specs.Int.{w32, to_be_bytes};
ghost use Rattle.lsm_table.specs.Tables.{header};

use crate::reading::MAGIC;
use bytes::{BufMut, BytesMut};
use std::alloc::AllocError;

/// Appends the header.
pub(crate) fn write_header(
    out: &mut BytesMut,
    version: u8,
    target: u32,
    count: u32,
    blocks: u32,
) -> Result<(), AllocError>
    ensures { OnOk result (out.new.items ≡ out.old.items ++ header version target count blocks) }
{
    out.put_u32(MAGIC)?;
    out.put_u8(version)?;
    out.put_u32(target)?;
    out.put_u32(count)?;
    out.put_u32(blocks)?;
    Ok(())
}

/// Appends a block to the index: its length, and the bytes of its last entry's key and trailer. A refusal appends nothing.
pub(crate) fn write_line(out: &mut BytesMut, len: u32, end: &[u8]) -> Result<(), AllocError>
    ensures ok { OnOk result (out.new.items ≡ out.old.items ++ (to_be_bytes w32 len ++ end.now)) }
    ensures err { OnErr result (out.new.items ≡ out.old.items) }
{
    out.reserve(4 + end.len())?;
    out.extend_reserved(&len.to_be_bytes());
    out.extend_reserved(end);
    Ok(())
}
