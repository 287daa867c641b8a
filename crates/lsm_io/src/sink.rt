//! What takes bytes, and counts how often it was written to or flushed and how often that failed.

ghost use Rattle.std.specs.Prelude.{◌≡◌, ◌<◌, ◌≤◌, ℕ, Bool, true, List, [], Option, IfOk, OnErr, OnOk, length};
ghost use Rattle.std.specs.Io.{WritesAtMost};
ghost use Rattle.std.specs.Io.KnownBytes.{Appends, Keeps, WriteAppends};
ghost use Rattle.lsm_io.specs.Counts.{CountsWriteFaults, CountsWrites};
ghost use Rattle.lsm_io.specs.Streams.{AppendsPart};

use std::io::{ErrorKind, Write};
use thiserror::Error;

/// Why no more is written.
#[derive(Clone, Copy, Debug, PartialEq, Eq, Error)]
pub enum SinkError {
    /// The writer failed, or takes nothing.
    #[error("the output could not be written")]
    WriteFault,
    /// The writer was written to as often as is counted, 2^64 - 1 times.
    #[error("the output does not end")]
    NoEnd,
}

/// What takes bytes. A call reports `WriteFault` exactly if the count of faults rose in it, and `NoEnd` only after 2^64 - 1 writes.
pub trait Sink {
    ghost contents: { Self → Option (List ℕ) };

    /// Whether nothing is kept back.
    ghost is_flushed: { Self → Bool };

    ghost writes: { Self → ℕ };

    ghost faults: { Self → ℕ };

    /// Writes a beginning of the bytes, and returns how many. A write that is interrupted is tried again.
    fn write(&mut self, bytes: &[u8]) -> Result<usize, SinkError>
        ensures bound { WritesAtMost result bytes.now }
        ensures some { 0 < length bytes.now → IfOk result (λ len. 0 < len) }
        ensures bytes { WriteAppends (contents self.old) (contents self.new) result bytes.now }
        ensures counted { CountsWrites result (writes self.old) (writes self.new) }
        ensures faults { CountsWriteFaults result (faults self.old) (faults self.new) };

    /// Hands on what was kept back.
    fn flush(&mut self) -> Result<(), SinkError>
        ensures bytes { Keeps (contents self.old) (contents self.new) }
        ensures flushed { OnOk result (is_flushed self.new ≡ true) }
        ensures counted { CountsWrites result (writes self.old) (writes self.new) }
        ensures faults { CountsWriteFaults result (faults self.old) (faults self.new) };
}

/// A writer that is counted.
///
/// Invariant: it failed at most as often as it was written to or flushed.
#[derive(Drop)]
pub struct CountedWriter<W: Write> {
    writer: W,
    is_flushed: bool,
    writes: u64,
    faults: u64,
    ghost few: { faults ≤ writes },
}

impl<W: Write> CountedWriter<W> {
    /// Nothing is counted yet.
    pub fn new(writer: W) -> CountedWriter<W>
        ensures contents { ⟦<CountedWriter<W> as Sink>⟧.contents result ≡ W.contents writer }
        ensures writes { ⟦<CountedWriter<W> as Sink>⟧.writes result ≡ 0 }
        ensures faults { ⟦<CountedWriter<W> as Sink>⟧.faults result ≡ 0 }
    {
        CountedWriter {
            writer,
            is_flushed: false,
            writes: 0,
            faults: 0,
        }
    }
}

impl<W: Write> Sink for CountedWriter<W> {
    ghost contents = { λ s. W.contents s.writer };

    ghost is_flushed = { λ s. s.is_flushed };

    ghost writes = { λ s. s.writes };

    ghost faults = { λ s. s.faults };

    #[tactic(auto, using(crate::proofs::KnownStreams::kept_twice, crate::proofs::KnownStreams::kept_appends, crate::proofs::KnownStreams::kept_none))]
    fn write(&mut self, bytes: &[u8]) -> Result<usize, SinkError> {
        self.is_flushed = false;
        while self.writes < u64::MAX {
            self.writes += 1;
            match self.writer.write(bytes) {
                Ok(len) => {
                    if len > 0 || bytes.is_empty() {
                        return Ok(len);
                    }
                    self.faults += 1;
                    return Err(SinkError::WriteFault);
                }
                Err(error) => {
                    if error.kind() != ErrorKind::Interrupted {
                        self.faults += 1;
                        return Err(SinkError::WriteFault);
                    }
                }
            }
        }
        Err(SinkError::NoEnd)
    }

    fn flush(&mut self) -> Result<(), SinkError> {
        if self.writes == u64::MAX {
            return Err(SinkError::NoEnd);
        }
        self.writes += 1;
        match self.writer.flush() {
            Ok(()) => {
                self.is_flushed = true;
                Ok(())
            }
            Err(_) => {
                self.faults += 1;
                Err(SinkError::WriteFault)
            }
        }
    }
}

/// Writes all bytes. After an error a beginning of them is written.
pub fn write_whole<S: Sink>(sink: &mut S, bytes: &[u8]) -> Result<(), SinkError>
    ensures ok { OnOk result (Appends (S.contents sink.old) (S.contents sink.new) bytes.now) }
    ensures err { OnErr result (AppendsPart (S.contents sink.old) (S.contents sink.new) bytes.now) }
    ensures counted { CountsWrites result (S.writes sink.old) (S.writes sink.new) }
    ensures faults { CountsWriteFaults result (S.faults sink.old) (S.faults sink.new) }
{
    let mut rest = bytes;
    while !rest.is_empty() {
        let len = sink.write(rest)?;
        rest = &rest[len..];
    }
    Ok(())
}

/// Writes the bytes that were kept back, keeps none, and flushes. After an error a beginning of them is written.
pub fn write_kept<S: Sink>(sink: &mut S, out: &mut Vec<u8>) -> Result<(), SinkError>
    ensures ok { OnOk result (Appends (S.contents sink.old) (S.contents sink.new) out.old.items) }
    ensures empty { OnOk result (out.new.items ≡ []) }
    ensures flushed { OnOk result (S.is_flushed sink.new ≡ true) }
    ensures err { OnErr result (AppendsPart (S.contents sink.old) (S.contents sink.new) out.old.items) }
    ensures counted { CountsWrites result (S.writes sink.old) (S.writes sink.new) }
    ensures faults { CountsWriteFaults result (S.faults sink.old) (S.faults sink.new) }
{
    write_whole(sink, out)?;
    out.clear();
    sink.flush()
}
