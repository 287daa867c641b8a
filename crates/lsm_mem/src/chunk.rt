//! The memory that the bytes of a memtable lie in.

ghost use Rattle.std.specs.Prelude.{◌≡◌, IfOk};
ghost use Rattle.lsm_edit.specs.declared.log_record.LogRecord.TheVariants.{Write};
ghost use Rattle.lsm_edit.specs.LogRecord.{record_bytes};

use bytes::{Bytes, BytesMut};
use lsm_edit::{WRITE_HEAD_BYTES, append_write};
use lsm_key::{Batch, Seq};
use std::alloc::{AllocError, Global};

// The size of a chunk, in bytes: hundreds of small records share one, and it is small beside a memtable.
const CHUNK_BYTES: usize = 64 * 1024;

// A record of more bytes gets memory of its own, so that at most a quarter of a chunk stays unused.
const MAX_SHARED_BYTES: usize = CHUNK_BYTES / 4;

/// What is left of a chunk that some records share (LevelDB, `Arena`).
#[derive(Debug, Drop)]
pub(crate) struct Chunk {
    alloc: Global,
    room: BytesMut,
}

impl Chunk {
    /// No chunk yet.
    pub(crate) fn new(alloc: Global) -> Chunk {
        Chunk {
            alloc,
            room: BytesMut::new(alloc),
        }
    }

    /// The log record of a batch whose first operation has the sequence `first`.
    pub(crate) fn record_of(&mut self, first: Seq, batch: &Batch) -> Result<Bytes, AllocError>
        ensures { IfOk result (λ logged. logged ≡ record_bytes (Write first batch.now)) }
    {
        // No operation takes more bytes than it weighs.
        let need = WRITE_HEAD_BYTES + batch.weight();
        if need > MAX_SHARED_BYTES {
            let mut own = BytesMut::with_capacity(self.alloc, need)?;
            append_write(&mut own, first, batch)?;
            return Ok(own.freeze()?);
        }
        self.room.clear();
        if need > self.room.capacity() {
            self.room = BytesMut::with_capacity(self.alloc, CHUNK_BYTES)?;
        }
        append_write(&mut self.room, first, batch)?;
        self.room.freeze_to(self.room.len())
    }
}
