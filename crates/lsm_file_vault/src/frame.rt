//! Frames: how an edit or a log record stands in its file, and a table in its own.
//!
//! A frame, its numbers big-endian:
//!
//!     4 bytes   length of the bytes that it holds
//!     4 bytes   the complement of the length, 2^32 - 1 - length
//!     8 bytes   checksum of those bytes, SipHash-1-3 under keys of zero
//!               the bytes
//!
//! The complement tells a length that was damaged from one whose bytes were cut off.

ghost use Rattle.std.specs.List.{list_all};
ghost use Rattle.std.specs.Prelude.{◌≡◌, ◌==◌, ◌<◌, ◌≤◌, ◌^◌, ◌++◌, length, drop, take, IfOk, IsErr, OnOk};
ghost use Rattle.lsm_key.specs.Reading.{Gives};
ghost use Rattle.lsm_file_vault.specs.declared.frame.TheConstants.{HEAD_BYTES};
ghost use Rattle.lsm_file_vault.specs.Frames.{TakesFrame, checksum, ends_in_zeros, frame, frame_at, frames, header_of, is_torn, only_frame_at};

use bytes::{BufMut, Bytes, BytesMut};
use lsm_key::{Refused, know_bytes, read_piece, read_u32, read_u64};
use std::alloc::{AllocError, Global};
use std::hash::{DefaultHasher, Hasher};
use std::io::{self, ErrorKind};

/// How many bytes of a frame stand before those that it holds.
pub(crate) const HEAD_BYTES: usize = 16;

// How many of them are its length and the complement.
const LENGTHS_BYTES: usize = 8;

/// Why bytes do not begin with a frame. Of several reasons the first one in this order of the fields is reported.
#[derive(Clone, Copy, Debug, PartialEq, Eq)]
pub enum FrameFault {
    /// The bytes end inside the frame.
    Truncated,
    /// The length and its complement do not agree.
    BadLength,
    /// The checksum is not that of the bytes.
    BadChecksum,
}

/// SipHash-1-3 under keys of zero: it finds accidents, and is not made against those who choose the bytes.
pub(crate) fn checksum_of(bytes: &[u8]) -> u64
    ensures { result ≡ checksum bytes.now }
{
    let mut hasher = DefaultHasher::new();
    hasher.write(bytes);
    hasher.finish()
}

// Appends the header of the frame of these bytes, which go behind it. If that is refused, a part of it may be there.
fn write_header(out: &mut BytesMut, bytes: &[u8]) -> Result<(), AllocError>
    requires { length bytes.now < 2 ^ 32 }
    ensures ok { OnOk result (out.new.items ≡ out.old.items ++ header_of bytes.now) }
    ensures front { take (length out.old.items) out.new.items ≡ out.old.items }
{
    let len = bytes.len() as u32;
    out.put_u32(len)?;
    out.put_u32(u32::MAX - len)?;
    out.put_u64(checksum_of(bytes))
}

/// The frames of these edits or log records, one after another.
pub(crate) fn frames_of(alloc: Global, held: &[Bytes]) -> io::Result<BytesMut>
    ensures { IfOk result (λ framed. framed.items ≡ frames held.now) }
{
    let mut framed = BytesMut::new(alloc);
    for bytes in held {
        put_frame(&mut framed, bytes.as_slice())?;
    }
    Ok(framed)
}

/// Appends the frame of an edit or of a log record. If that is refused, a part of it may be there.
pub(crate) fn put_frame(out: &mut BytesMut, bytes: &[u8]) -> io::Result<()>
    ensures ok { OnOk result (out.new.items ≡ out.old.items ++ frame bytes.now) }
    ensures front { take (length out.old.items) out.new.items ≡ out.old.items }
{
    frame_header(out, bytes)?;
    out.extend_from_slice(bytes)?;
    Ok(())
}

/// Appends the header of a frame of these bytes. More than a frame can hold is refused.
pub(crate) fn frame_header(out: &mut BytesMut, bytes: &[u8]) -> io::Result<()>
    ensures ok { OnOk result (out.new.items ≡ out.old.items ++ header_of bytes.now) }
    ensures front { take (length out.old.items) out.new.items ≡ out.old.items }
{
    if bytes.len() > u32::MAX as usize {
        return Err(ErrorKind::InvalidInput.into());
    }
    write_header(out, bytes)?;
    Ok(())
}

/// The bytes of a frame from the front.
#[tactic(auto, unfolding(crate::specs::Frames::frame_at))]
pub(crate) fn read_frame(rest: &mut Bytes) -> Result<Bytes, Refused<FrameFault>>
    ensures { Gives (λ bytes. (bytes, rest.new)) result (frame_at rest.old) }
{
    let len = read_u32(rest, FrameFault::Truncated)?;
    let turned = read_u32(rest, FrameFault::Truncated)?;
    if turned != u32::MAX - len {
        return Err(Refused::Fault(FrameFault::BadLength));
    }
    let sum = read_u64(rest, FrameFault::Truncated)?;
    let bytes = read_piece(rest, len as usize, FrameFault::Truncated)?;
    if sum != checksum_of(bytes.as_slice()) {
        return Err(Refused::Fault(FrameFault::BadChecksum));
    }
    Ok(bytes)
}

// Takes a frame from the front, if one begins there, and returns its bytes.
fn take_frame(rest: &mut Bytes) -> Result<Option<Bytes>, AllocError>
    ensures { IfOk result (λ taken. TakesFrame taken rest.old rest.new) }
{
    know_bytes(rest);
    let mut after = rest.clone()?;
    match read_frame(&mut after) {
        Ok(bytes) => {
            *rest = after;
            Ok(Some(bytes))
        }
        Err(Refused::Fault(_)) => Ok(None),
        Err(Refused::OutOfMemory) => Err(AllocError),
    }
}

/// The bytes of the frames at the front of a file, and what stands behind them, which begins no frame.
pub(crate) fn read_frames(alloc: Global, mut rest: Bytes) -> Result<(Vec<Bytes>, Bytes), AllocError>
    ensures whole { IfOk result (λ found. rest ≡ frames found.0.items ++ found.1) }
    ensures last { IfOk result (λ found. IsErr (frame_at found.1)) }
{
    let mut held = Vec::new(alloc);
    while let Some(bytes) = take_frame(&mut rest)? {
        held.push(bytes)?;
    }
    Ok((held, rest))
}

/// Whether bytes behind the last frame are what a stop may leave of appends that were not synced. Bytes behind a frame that has gone bad
/// are not, unless they are zeros: a file may have its length before it has its bytes.
pub(crate) fn is_torn(rest: &[u8]) -> bool
    ensures { result ≡ is_torn rest.now }
{
    if rest.len() < HEAD_BYTES {
        return true;
    }
    are_zeros(&rest[LENGTHS_BYTES..]) || ends_in_zeros(rest)
}

// Whether all of these bytes are zero.
fn are_zeros(bytes: &[u8]) -> bool
    ensures { result ≡ list_all (λ b. b == 0) bytes.now }
{
    bytes.iter().all(|byte| *byte == 0)
}

// What is behind so many bytes; nothing, if there are fewer.
fn behind(bytes: &[u8], count: usize) -> &[u8]
    ensures { result.now ≡ drop count bytes.now }
{
    &bytes[count.min(bytes.len())..]
}

// Whether a header stands here behind whose frame there are zeros alone, or nothing.
fn ends_in_zeros(rest: &[u8]) -> bool
    requires { HEAD_BYTES ≤ length rest.now }
    ensures { result ≡ ends_in_zeros rest.now }
{
    match rest.split_first_chunk::<4>() {
        Some((claim, after)) => match after.split_first_chunk::<4>() {
            Some((turned, _)) => {
                let claim = u32::from_be_bytes(*claim);
                u32::from_be_bytes(*turned) == u32::MAX - claim
                    && are_zeros(behind(rest, HEAD_BYTES + claim as usize))
            }
            None => false,
        },
        None => false,
    }
}

/// The bytes of the only frame of a file, if it is one frame and nothing else.
pub(crate) fn only_frame(mut file: Bytes) -> Result<Option<Bytes>, AllocError>
    ensures { IfOk result (λ found. found ≡ only_frame_at file) }
{
    match read_frame(&mut file) {
        Ok(bytes) => {
            if file.is_empty() {
                Ok(Some(bytes))
            } else {
                Ok(None)
            }
        }
        Err(Refused::Fault(_)) => Ok(None),
        Err(Refused::OutOfMemory) => Err(AllocError),
    }
}
