//! Letters: what comes to a coordinator in a frame.
//!
//! A letter is a message, or news of a worker: a frame of one byte, its number, if the worker is gone; a frame of two bytes, its number
//! and 1, if it is there, or there again. No message has so few bytes.

ghost use Rattle.std.specs.Prelude.{IfErr, IfOk};
ghost use Rattle.lsm_dispatch.specs.Letters.{IsLetter, NoLetter};

use bytes::Bytes;
use lsm_msg::{Message, NodeIndex};
use lsm_pipe::{PipeError, message_in};
use std::alloc::Global;

/// What comes to a coordinator in a frame.
#[derive(Debug, Drop)]
pub enum Letter {
    /// A message.
    Message(Message),
    /// This worker is gone.
    Gone(NodeIndex),
    /// This worker is there, and has no job.
    There(NodeIndex),
}

/// The letter that the bytes of a frame are.
pub fn letter_in(alloc: Global, payload: Bytes) -> Result<Letter, PipeError>
    ensures ok { IfOk result (IsLetter payload) }
    ensures refused { IfErr result (NoLetter payload) }
{
    match payload.as_slice() {
        [number] => match NodeIndex::new(*number) {
            Some(index) => Ok(Letter::Gone(index)),
            None => Err(PipeError::NotMessage),
        },
        [number, 1] => match NodeIndex::new(*number) {
            Some(index) => Ok(Letter::There(index)),
            None => Err(PipeError::NotMessage),
        },
        _ => Ok(Letter::Message(message_in(alloc, payload)?)),
    }
}
