//! What gives bytes, and counts how often it was read and how often that failed.

ghost use Rattle.std.specs.Prelude.{◌≡◌, ◌<◌, ◌≤◌, ℕ, List, Option, IfOk, IfSome, OnErr, length};
ghost use Rattle.std.specs.Io.{ReadsAtMost};
ghost use Rattle.std.specs.Io.KnownBytes.{ReadConsumes};
ghost use Rattle.lsm_io.specs.Counts.{CountsReadFaults, CountsReads};
ghost use Rattle.lsm_io.specs.Streams.{Gains};

use crate::reading::buffer_of;
use std::alloc::{AllocError, Global};
use std::io::{ErrorKind, Read};
use thiserror::Error;

/// How much is read at once: enough that a call costs little for each byte, and little beside the memory of a process. In bytes.
const READ_BYTES: usize = 65_536;

/// Why no more is read.
#[derive(Clone, Copy, Debug, PartialEq, Eq, Error)]
pub enum SourceError {
    /// The reader failed.
    #[error("the input could not be read")]
    ReadFault,
    /// The reader was read as often as is counted, 2^64 - 1 times.
    #[error("the input does not end")]
    NoEnd,
    #[error("out of memory")]
    OutOfMemory,
}

impl From<AllocError> for SourceError {
    ghost use Rattle.std.specs.Prelude.{◌≡◌};
    ghost use Rattle.lsm_io.specs.declared.source.SourceError.TheVariants.{OutOfMemory};

    ghost from_gives = { λ _ e. e ≡ OutOfMemory };

    fn from(_e: AllocError) -> SourceError {
        SourceError::OutOfMemory
    }
}

/// What gives bytes. A call reports `ReadFault` exactly if the count of faults rose in it, and `NoEnd` only after 2^64 - 1 reads.
pub trait Source {
    ghost remaining: { Self → Option (List ℕ) };

    ghost reads: { Self → ℕ };

    ghost faults: { Self → ℕ };

    /// Reads into the front of a chunk, and returns how many bytes: none only at the end, or without room. A read that is interrupted is
    /// tried again. Takes no memory.
    fn read(&mut self, chunk: &mut [u8]) -> Result<usize, SourceError>
        ensures bound { ReadsAtMost result chunk.new }
        ensures bytes { ReadConsumes (remaining self.old) (remaining self.new) result chunk.new }
        ensures counted { CountsReads result (reads self.old) (reads self.new) }
        ensures faults { CountsReadFaults result (faults self.old) (faults self.new) };
}

/// A reader that is counted.
///
/// Invariant: it failed at most as often as it was read.
#[derive(Drop)]
pub struct CountedReader<R: Read> {
    reader: R,
    reads: u64,
    faults: u64,
    ghost few: { faults ≤ reads },
}

impl<R: Read> CountedReader<R> {
    /// Nothing is counted yet.
    pub fn new(reader: R) -> CountedReader<R>
        ensures remaining { ⟦<CountedReader<R> as Source>⟧.remaining result ≡ R.remaining reader }
        ensures reads { ⟦<CountedReader<R> as Source>⟧.reads result ≡ 0 }
        ensures faults { ⟦<CountedReader<R> as Source>⟧.faults result ≡ 0 }
    {
        CountedReader {
            reader,
            reads: 0,
            faults: 0,
        }
    }
}

impl<R: Read> Source for CountedReader<R> {
    ghost remaining = { λ s. R.remaining s.reader };

    ghost reads = { λ s. s.reads };

    ghost faults = { λ s. s.faults };

    #[tactic(auto, using(crate::proofs::KnownStreams::kept_twice, crate::proofs::KnownStreams::kept_consumes))]
    fn read(&mut self, chunk: &mut [u8]) -> Result<usize, SourceError> {
        while self.reads < u64::MAX {
            self.reads += 1;
            match self.reader.read(chunk) {
                Ok(len) => return Ok(len),
                Err(error) => {
                    if error.kind() != ErrorKind::Interrupted {
                        self.faults += 1;
                        return Err(SourceError::ReadFault);
                    }
                }
            }
        }
        Err(SourceError::NoEnd)
    }
}

/// Appends what the next read gives, at most a chunk. Returns whether it gave something: if not, the source is at its end. After an
/// error nothing is appended, and if memory ran out, what was read is lost.
pub fn read_next<S: Source>(
    source: &mut S,
    chunk: &mut [u8],
    input: &mut Vec<u8>,
) -> Result<bool, SourceError>
    requires { 0 < length chunk.old }
    ensures ok { IfOk result (Gains (length chunk.old) (S.remaining source.old) (S.remaining source.new) input.old.items input.new.items) }
    ensures err { OnErr result (input.new.items ≡ input.old.items) }
    ensures counted { CountsReads result (S.reads source.old) (S.reads source.new) }
    ensures faults { CountsReadFaults result (S.faults source.old) (S.faults source.new) }
{
    let len = source.read(chunk)?;
    if len == 0 {
        return Ok(false);
    }
    let (bytes, _) = chunk.split_at(len);
    let Ok(()) = input.extend_from_slice(bytes) else {
        return Err(SourceError::OutOfMemory);
    };
    Ok(true)
}

/// All bytes of a source, from here to its end.
pub fn read_to_end<S: Source>(alloc: Global, source: &mut S) -> Result<Vec<u8>, SourceError>
    ensures bytes { IfOk result (λ bytes. IfSome (S.remaining source.old) (λ xs. bytes.items ≡ xs)) }
    ensures counted { CountsReads result (S.reads source.old) (S.reads source.new) }
    ensures faults { CountsReadFaults result (S.faults source.old) (S.faults source.new) }
{
    let mut chunk = buffer_of(alloc, READ_BYTES)?;
    let mut bytes = Vec::new(alloc);
    for _turn in 0..u64::MAX {
        if !read_next(source, &mut chunk, &mut bytes)? {
            return Ok(bytes);
        }
    }
    Err(SourceError::NoEnd)
}
