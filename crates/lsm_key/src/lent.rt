//! The same readers over borrowed bytes. They copy nothing and allocate nothing, so each returns what reading gives: the
//! field and the bytes after it, or the first fault.

ghost use Rattle.std.specs.Int.{w16, w32, w64};
ghost use Rattle.lsm_key.specs.Reading.{Reads, number_at, piece_at, key_at, trailer_at};

use crate::fields::kind_of;
use crate::{Kind, Seq};

/// Two bytes from the front, as a number.
pub fn u16_in<F: Drop>(bytes: &[u8], short: F) -> Result<(u16, &[u8]), F>
    ensures { Reads (λ x. (x.0, x.1.now)) result (number_at short w16 bytes.now) }
{
    if bytes.len() < 2 {
        return Err(short);
    }
    let (head, rest) = bytes.split_at(2);
    Ok((u16::from_be_bytes([head[0], head[1]]), rest))
}

/// Four bytes from the front, as a number.
pub fn u32_in<F: Drop>(bytes: &[u8], short: F) -> Result<(u32, &[u8]), F>
    ensures { Reads (λ x. (x.0, x.1.now)) result (number_at short w32 bytes.now) }
{
    match bytes.split_first_chunk::<4>() {
        Some((head, rest)) => Ok((u32::from_be_bytes(*head), rest)),
        None => Err(short),
    }
}

/// Eight bytes from the front, as a number.
pub fn u64_in<F: Drop>(bytes: &[u8], short: F) -> Result<(u64, &[u8]), F>
    ensures { Reads (λ x. (x.0, x.1.now)) result (number_at short w64 bytes.now) }
{
    match bytes.split_first_chunk::<8>() {
        Some((head, rest)) => Ok((u64::from_be_bytes(*head), rest)),
        None => Err(short),
    }
}

/// `len` bytes from the front.
pub fn piece_in<F: Drop>(bytes: &[u8], len: usize, short: F) -> Result<(&[u8], &[u8]), F>
    ensures { Reads (λ x. (x.0.now, x.1.now)) result (piece_at short len bytes.now) }
{
    if bytes.len() < len {
        return Err(short);
    }
    Ok(bytes.split_at(len))
}

/// A key from the front, of at least one byte and at most `limit`.
#[tactic(auto, unfolding(crate::specs::Reading::key_at))]
pub fn key_in<F: Copy>(bytes: &[u8], limit: usize, short: F, bad: F) -> Result<(&[u8], &[u8]), F>
    ensures { Reads (λ x. (x.0.now, x.1.now)) result (key_at limit short bad bytes.now) }
{
    let (len, rest) = u16_in(bytes, short)?;
    let len = len as usize;
    if len == 0 || len > limit {
        return Err(bad);
    }
    piece_in(rest, len, short)
}

/// A sequence, of at least 1, and a kind from the front.
#[tactic(auto, unfolding(crate::specs::Reading::trailer_at))]
pub fn trailer_in<F: Copy>(bytes: &[u8], short: F, bad: F) -> Result<((Seq, Kind), &[u8]), F>
    ensures { Reads (λ x. (x.0, x.1.now)) result (trailer_at short bad bytes.now) }
{
    let (trailer, rest) = u64_in(bytes, short)?;
    let kind = kind_of(trailer % 256, bad)?;
    let seq = trailer / 256;
    if seq == 0 {
        return Err(bad);
    }
    Ok(((Seq::new(seq), kind), rest))
}
