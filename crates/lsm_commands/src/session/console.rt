//! Where a session's commands come from, and where its answers go.

use crate::CommandError;
use lsm_io::write_out;
use lsm_key::MAX_BATCH_WEIGHT;
use lsm_line::write_text;
use std::alloc::Global;
use std::io::{BufRead, BufReader, ErrorKind, Read, Write};

/// The longest line that is taken. In bytes: a batch weighs more than its words have before they are escaped, and an escaped byte takes
/// three.
const MAX_LINE_BYTES: usize = 3 * MAX_BATCH_WEIGHT;

/// A terminal drops what a typed line has beyond this many bytes, so a line of them may be a part of the one that was typed.
const MAX_TYPED_BYTES: usize = 4_095;

/// How much is read at once, and how many bytes of answers are kept back while more lines wait. In bytes.
const BUFFER_BYTES: usize = 65_536;

/// The next line, or what was found in its place.
#[derive(Clone, Copy)]
pub(crate) enum NextLine {
    /// A line.
    Line,
    /// A line of more than `MAX_LINE_BYTES`, which was skipped.
    TooLong,
    /// A typed line of `MAX_TYPED_BYTES` or more, which was skipped.
    MaybeCut,
    /// The end of the input.
    End,
}

/// Commands in, and answers out. An answer is to be written before a command is waited for.
#[derive(Drop)]
pub(crate) struct Console<R: Read + Drop, W: Write + Drop> {
    reader: BufReader<R>,
    writer: W,
    // A person types the commands.
    has_prompt: bool,
    /// Answers that are not written yet.
    pub(crate) out: Vec<u8>,
}

impl<R: Read + Drop, W: Write + Drop> Console<R, W> {
    pub(crate) fn new(
        alloc: Global,
        reader: R,
        writer: W,
        has_prompt: bool,
    ) -> Result<Console<R, W>, CommandError> {
        // Nothing but memory is wanted to make one.
        let Ok(reader) = BufReader::with_capacity(alloc, BUFFER_BYTES, reader) else {
            return Err(CommandError::OutOfMemory);
        };
        Ok(Console {
            reader,
            writer,
            has_prompt,
            out: Vec::new(alloc),
        })
    }

    /// Writes a text behind the answers so far, where a person types the commands.
    pub(crate) fn prompt(&mut self, text: &str) -> Result<(), CommandError> {
        if self.has_prompt {
            write_text(&mut self.out, text)?;
        }
        Ok(())
    }

    /// Whether the answers so far are to be written before the next line is read: it has not come yet, or they are many.
    pub(crate) fn is_due(&self) -> bool {
        !self.reader.buffer().contains(&b'\n') || self.out.len() >= BUFFER_BYTES
    }

    /// Reads the next line, without its end.
    pub(crate) fn read_line(&mut self, line: &mut Vec<u8>) -> Result<NextLine, CommandError> {
        let found = read_line(&mut self.reader, line)?;
        if self.has_prompt && line.len() >= MAX_TYPED_BYTES {
            return Ok(NextLine::MaybeCut);
        }
        Ok(found)
    }

    /// Writes the answers so far.
    pub(crate) fn write_out(&mut self) -> Result<(), CommandError> {
        Ok(write_out(&mut self.writer, &mut self.out)?)
    }
}

/// Reads a line, without its end.
pub(crate) fn read_line<R: BufRead>(
    reader: &mut R,
    line: &mut Vec<u8>,
) -> Result<NextLine, CommandError> {
    line.clear();
    let mut found = NextLine::End;
    for _ in 0..u64::MAX {
        let piece = match reader.fill_buf() {
            Ok(piece) => piece,
            Err(error) if error.kind() == ErrorKind::Interrupted => continue,
            Err(_) => return Err(CommandError::ReadFault),
        };
        if piece.is_empty() {
            return Ok(found);
        }
        let end = piece.iter().position(|byte| *byte == b'\n');
        let len = end.unwrap_or(piece.len());
        found = extend(line, &piece[..len], found)?;
        match end {
            Some(at) => {
                reader.consume(at + 1);
                return Ok(found);
            }
            None => reader.consume(len),
        }
    }
    Err(CommandError::ReadFault)
}

// Adds a piece to a line, or drops the line if it is too long with it.
fn extend(line: &mut Vec<u8>, piece: &[u8], found: NextLine) -> Result<NextLine, CommandError> {
    if matches!(found, NextLine::TooLong)
        || piece.len() > MAX_LINE_BYTES.saturating_sub(line.len())
    {
        line.clear();
        return Ok(NextLine::TooLong);
    }
    line.extend_from_slice(piece)?;
    Ok(NextLine::Line)
}
