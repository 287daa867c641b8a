//! Reading: what a reader gives, chunk by chunk or up to its end, with interrupted calls made again.

ghost use Rattle.std.specs.Prelude.{◌≡◌, ◌⊎◌, ◌<◌, IfErr, IfOk, IfSome, OnErr, length};
ghost use Rattle.lsm_io.specs.Streams.{Gains};

use crate::error::StreamError;
use std::alloc::{AllocError, Global};
use std::io::{ErrorKind, Read};

/// How much is read at once: enough that a call costs little for each byte, and little beside the memory of a process. In bytes.
const READ_BYTES: usize = 65_536;

/// A buffer of `len` bytes.
pub fn buffer_of(alloc: Global, len: usize) -> Result<Vec<u8>, AllocError>
    ensures { IfOk result (λ buffer. length buffer.items ≡ len) }
{
    vec![in alloc; 0; len]
}

/// Appends what the next read gives, at most a chunk. Returns whether it gave something: if not, the reader is at its end. A read that is
/// interrupted is tried again. After an error nothing is appended, and if memory ran out, what was read is lost.
pub fn read_more<R: Read>(
    reader: &mut R,
    chunk: &mut [u8],
    input: &mut Vec<u8>,
) -> Result<bool, StreamError>
    requires { 0 < length chunk.old }
    ensures ok { IfOk result (Gains (length chunk.old) (R.remaining reader.old) (R.remaining reader.new) input.old.items input.new.items) }
    ensures err { OnErr result (input.new.items ≡ input.old.items) }
    ensures errors { IfErr result (λ e. (e ≡ StreamError.ReadFault) ⊎ (e ≡ StreamError.OutOfMemory)) }
{
    for _ in 0..u64::MAX {
        match reader.read(chunk) {
            Ok(0) => return Ok(false),
            Ok(len) => {
                let (bytes, _) = chunk.split_at(len);
                let Ok(()) = input.extend_from_slice(bytes) else {
                    return Err(StreamError::OutOfMemory);
                };
                return Ok(true);
            }
            Err(error) => {
                if error.kind() != ErrorKind::Interrupted {
                    return Err(StreamError::ReadFault);
                }
            }
        }
    }
    Err(StreamError::ReadFault)
}

/// All bytes of a reader, from here to its end.
pub fn read_all<R: Read>(alloc: Global, reader: &mut R) -> Result<Vec<u8>, StreamError>
    ensures bytes { IfOk result (λ bytes. IfSome (R.remaining reader.old) (λ xs. bytes.items ≡ xs)) }
    ensures errors { IfErr result (λ e. (e ≡ StreamError.ReadFault) ⊎ (e ≡ StreamError.OutOfMemory)) }
{
    let mut chunk = buffer_of(alloc, READ_BYTES)?;
    let mut bytes = Vec::new(alloc);
    for _ in 0..u64::MAX {
        if !read_more(reader, &mut chunk, &mut bytes)? {
            return Ok(bytes);
        }
    }
    Err(StreamError::ReadFault)
}
