//! Frames: bytes behind their length.
//!
//! A frame is encoded as: u32 length, big-endian, and that many bytes. The length is at most `MAX_MESSAGE_BYTES`.

ghost use Rattle.std.specs.Prelude.{◌≡◌, ◌≢◌, ◌⊎◌, ℕ, ◌≤◌, ◌<◌, List, [], ◌++◌, IfErr, IfOk, OnOk, length, min, take, true};
ghost use Rattle.std.specs.Io.KnownBytes.{Appends, Consumes, IsAtEnd};
ghost use Rattle.lsm_msg.specs.Messages.{sized};
ghost use Rattle.lsm_msg.specs.declared.message.TheConstants.{MAX_MESSAGE_BYTES};
ghost use Rattle.lsm_pipe.specs.declared.frame.TheConstants.{HEAD_BYTES, PIECE_BYTES};
ghost use Rattle.lsm_io.specs.Reports.{ReportsAfter, ReportsFaults};
ghost use Rattle.lsm_pipe.specs.Counting.{MayFollow, read_faults_of, write_faults_of};
ghost use Rattle.lsm_pipe.specs.Frames.{FrameRefuses, IsHead, IsReadError, ReadsFrame, TakesUpTo};

use crate::error::PipeError;
use bytes::Bytes;
use lsm_io::{Sink, Source, buffer_of, read_next, write_whole};
use lsm_key::{know_slice, u32_in};
use lsm_msg::MAX_MESSAGE_BYTES;
use std::alloc::{AllocError, Global};

/// How many bytes of a frame stand before those that it holds.
const HEAD_BYTES: usize = 4;

/// How much is read at once. In bytes.
const PIECE_BYTES: usize = 65_536;

/// The bytes of the next frame, or `None` if the input ends before it. Memory grows as bytes come. After a refusal nothing more may
/// be read: where the next frame begins is not known.
#[tactic(auto, using(crate::proofs::FrameReading::cut_head, crate::proofs::FrameReading::cut_payload, crate::proofs::FrameReading::too_long, crate::proofs::FrameReading::whole_frame))]
pub fn read_frame<R: Source>(alloc: Global, reader: &mut R) -> Result<Option<Bytes>, PipeError>
    ensures ok { IfOk result (ReadsFrame (R.remaining reader.old) (R.remaining reader.new)) }
    ensures refused { IfErr result (FrameRefuses (R.remaining reader.old)) }
    ensures counted { ReportsAfter MayFollow result (R.reads reader.old) (R.reads reader.new) }
    ensures turns { OnOk result (R.reads reader.old < R.reads reader.new) }
    ensures faults { ReportsFaults read_faults_of result (R.faults reader.old) (R.faults reader.new) }
{
    let head = read_up_to(alloc, reader, HEAD_BYTES)?;
    if head.is_empty() {
        return Ok(None);
    }
    let len = length_in(&head)?;
    if len > MAX_MESSAGE_BYTES {
        return Err(PipeError::TooLong);
    }
    let payload = read_up_to(alloc, reader, len)?;
    if payload.len() < len {
        return Err(PipeError::EndsInside);
    }
    Ok(Some(Bytes::from_vec(payload)?))
}

/// The length in the head of a frame.
#[tactic(auto, using(lsm_key::proofs::FieldLaws::number_takes, lsm_key::proofs::FieldLaws::wide32))]
fn length_in(head: &[u8]) -> Result<usize, PipeError>
    requires { length head.now ≤ HEAD_BYTES }
    ensures ok { IfOk result (IsHead head.now) }
    ensures refused { IfErr result (λ e. (e ≡ PipeError.EndsInside) × (length head.now < HEAD_BYTES)) }
{
    know_slice(head);
    let (len, _) = u32_in(head, PipeError::EndsInside)?;
    Ok(len as usize)
}

/// `count` bytes, or as many as there are before the input ends.
fn read_up_to<R: Source>(alloc: Global, reader: &mut R, count: usize) -> Result<Vec<u8>, PipeError>
    ensures ok { IfOk result (λ bytes. TakesUpTo count (R.remaining reader.old) (R.remaining reader.new) bytes.items) }
    ensures refused { IfErr result IsReadError }
    ensures counted { ReportsAfter MayFollow result (R.reads reader.old) (R.reads reader.new) }
    ensures turns { 0 < count → OnOk result (R.reads reader.old < R.reads reader.new) }
    ensures faults { ReportsFaults read_faults_of result (R.faults reader.old) (R.faults reader.new) }
{
    let mut buffer = piece(alloc, count)?;
    let mut bytes = Vec::new(alloc);
    while bytes.len() < count {
        let room = (count - bytes.len()).min(buffer.len());
        if !read_next(reader, &mut buffer[..room], &mut bytes)? {
            return Ok(bytes);
        }
    }
    Ok(bytes)
}

/// A buffer for `count` bytes that are to come, as far as they are read at once.
fn piece(alloc: Global, count: usize) -> Result<Vec<u8>, AllocError>
    ensures len { IfOk result (λ buffer. length buffer.items ≡ min count PIECE_BYTES) }
    ensures few { IfOk result (λ buffer. length buffer.items ≤ 65536) }
{
    buffer_of(alloc, count.min(PIECE_BYTES))
}

/// Writes the frame of these bytes, and flushes. After a fault a part of it may be written.
pub fn write_frame<W: Sink>(writer: &mut W, payload: &[u8]) -> Result<(), PipeError>
    requires { length payload.now ≤ MAX_MESSAGE_BYTES }
    ensures ok { OnOk result (Appends (W.contents writer.old) (W.contents writer.new) (sized payload.now)) }
    ensures flushed { OnOk result (W.is_flushed writer.new ≡ true) }
    ensures refused { IfErr result (λ e. (e ≡ PipeError.WriteFault) ⊎ (e ≡ PipeError.NoEnd)) }
    ensures counted { ReportsAfter MayFollow result (W.writes writer.old) (W.writes writer.new) }
    ensures faults { ReportsFaults write_faults_of result (W.faults writer.old) (W.faults writer.new) }
{
    let head = (payload.len() as u32).to_be_bytes();
    write_whole(writer, &head)?;
    write_whole(writer, payload)?;
    writer.flush()?;
    Ok(())
}
