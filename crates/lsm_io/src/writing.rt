//! Writing: what a writer takes, all of it or up to a fault, with interrupted calls made again.

ghost use Rattle.std.specs.Prelude.{◌≡◌, [], IfErr, OnErr, OnOk};
ghost use Rattle.std.specs.Io.KnownBytes.{Appends};
ghost use Rattle.lsm_io.specs.Streams.{AppendsPart};

use crate::error::StreamError;
use std::io::{ErrorKind, Write};

/// Writes all bytes. After a write fault a prefix of them is written.
pub fn write_all<W: Write>(writer: &mut W, bytes: &[u8]) -> Result<(), StreamError>
    ensures ok { OnOk result (Appends (W.contents writer.old) (W.contents writer.new) bytes.now) }
    ensures err { OnErr result (AppendsPart (W.contents writer.old) (W.contents writer.new) bytes.now) }
    ensures errors { IfErr result (λ e. e ≡ StreamError.WriteFault) }
{
    let mut rest = bytes;
    for _ in 0..u64::MAX {
        if rest.is_empty() {
            return Ok(());
        }
        match writer.write(rest) {
            Ok(0) => return Err(StreamError::WriteFault),
            Ok(len) => rest = &rest[len..],
            Err(error) => {
                if error.kind() != ErrorKind::Interrupted {
                    return Err(StreamError::WriteFault);
                }
            }
        }
    }
    Err(StreamError::WriteFault)
}

/// Writes the bytes that were kept back, and keeps none. After a write fault a prefix of them is written.
pub fn write_out<W: Write>(writer: &mut W, out: &mut Vec<u8>) -> Result<(), StreamError>
    ensures ok { OnOk result (Appends (W.contents writer.old) (W.contents writer.new) out.old.items) }
    ensures empty { OnOk result (out.new.items ≡ []) }
    ensures err { OnErr result (AppendsPart (W.contents writer.old) (W.contents writer.new) out.old.items) }
    ensures errors { IfErr result (λ e. e ≡ StreamError.WriteFault) }
{
    write_all(writer, out)?;
    out.clear();
    match writer.flush() {
        Ok(()) => Ok(()),
        Err(_) => Err(StreamError::WriteFault),
    }
}
