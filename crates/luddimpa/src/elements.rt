//! Elements: byte strings that stand one after another, each behind its length.

ghost use Rattle.std.specs.Prelude.{◌≡◌, ◌<◌, ◌^◌, ◌++◌, IfNone, IfOk, IfSome, length};
ghost use Rattle.lsm_key.specs.Reading.{Gives};
ghost use Rattle.lsm_msg.specs.Messages.{sized};
ghost use Rattle.luddimpa.specs.Elements.{BeginsNone, element_at};

use bytes::Bytes;
use lsm_edit::{FormatError, FormatFault};
use lsm_key::{Refused, know_bytes, read_piece, read_u32};
use std::alloc::AllocError;

/// Takes the element at the front, if one begins there. It shares the bytes.
pub(crate) fn take_element(rest: &mut Bytes) -> Result<Option<Bytes>, AllocError>
    ensures some { IfOk result (λ o. IfSome o (λ text. (rest.old ≡ sized text ++ rest.new) × (length text < 2 ^ 32))) }
    ensures none { IfOk result (λ o. IfNone o (BeginsNone rest.old)) }
{
    know_bytes(rest);
    match read_element(rest) {
        Ok(text) => Ok(Some(text)),
        Err(Refused::Fault(_)) => Ok(None),
        Err(Refused::OutOfMemory) => Err(AllocError),
    }
}

#[tactic(auto, unfolding(crate::specs::Elements::element_at))]
fn read_element(rest: &mut Bytes) -> Result<Bytes, FormatError>
    ensures { Gives (λ text. (text, rest.new)) result (element_at rest.old) }
{
    let len = read_u32(rest, FormatFault::Truncated)?;
    read_piece(rest, len as usize, FormatFault::Truncated)
}
