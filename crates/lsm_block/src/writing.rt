//! Writing entries as a block.
//!
//! An entry, its numbers big-endian:
//!
//!     2 bytes   length of the key, 1 to 4,096
//!               the key
//!     8 bytes   the trailer: sequence * 256 + kind, kind 0 for a deletion and 1 for a put
//!     4 bytes   length of the value, 0 to 65,536, 0 for a deletion
//!               the value
//!
//! The entries of a block follow one another without a gap.

ghost use Rattle.std.specs.Prelude.{◌≡◌, ◌++◌, OnOk, IfOk, length, ◌<◌};
ghost use Rattle.lsm_key.specs.Entries.{IsEntry};
ghost use Rattle.lsm_block.specs.Blocks.{AreEntries, HasSequence, entries, entry};

use bytes::{BufMut, Bytes, BytesMut};
use lsm_key::{Entry, write_key, write_trailer};
use std::alloc::{AllocError, Global};

/// Appends the encoding of an entry.
pub fn write_entry(out: &mut BytesMut, e: &Entry) -> Result<(), AllocError>
    requires { IsEntry e.now }
    ensures written { OnOk result (out.new.items ≡ out.old.items ++ entry e.now) }
    ensures sequence { OnOk result (HasSequence e.now) }
{
    write_key(out, e.ikey.key.as_slice())?;
    write_trailer(out, e.ikey.seq, e.ikey.kind)?;
    out.put_u32(e.value.len() as u32)?;
    out.put_slice(e.value.as_slice())
}

/// The one encoding of the entries as a block.
pub fn encode_block(alloc: Global, es: &[Entry]) -> Result<Bytes, AllocError>
    requires { (0 < length es.now) × AreEntries es.now }
    ensures { IfOk result (λ b. b ≡ entries es.now) }
{
    let mut out = BytesMut::new(alloc);
    for e in es {
        write_entry(&mut out, e)?;
    }
    Ok(out.freeze()?)
}
