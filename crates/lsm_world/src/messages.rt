//! The messages that were sent, by number: they stay, so that a schedule may deliver each whenever it says.

ghost use Rattle.std.specs.Prelude.{◌≡◌, IfOk, All};
ghost use Rattle.std.specs.Option.{option_copied};
ghost use Rattle.lsm_msg.specs.declared.message.Message.{Message};
ghost use Rattle.lsm_msg.specs.Messages.{IsMessage, IsSpelled};
ghost use Rattle.lsm_world.specs.Asks.Messages.{AreSpelled, Sends, stored_message};

use crate::reply::Sent;
use bytes::Bytes;
use lsm_key::Refused;
use lsm_msg::{Message, decode, encode};
use std::alloc::{AllocError, Global};
use std::marker::Model;

/// The encoding of each message that was sent, from message 1. None goes: a message may be delivered as often as wanted.
#[derive(Debug, Drop)]
pub(crate) struct Messages {
    alloc: Global,
    texts: Vec<Bytes>,
}

impl Model for Messages {
    ghost use Rattle.std.specs.Prelude.{List, ℕ};

    ghost Value = { List (List ℕ) };

    ghost view = { λ m. m.texts.items };
}

impl Messages {
    ghost use Rattle.std.specs.Prelude.{◌≡◌, ◌∷◌, [], All};

    /// Before the first message.
    pub(crate) fn new(alloc: Global) -> Messages
        ensures { result ≡ [] }
    {
        Messages {
            alloc,
            texts: Vec::new(alloc),
        }
    }

    /// The encoding of the message of a number.
    pub(crate) fn text(&self, number: u64) -> Option<&Bytes>
        ensures { option_copied result ≡ stored_message self.now number }
    {
        if number == 0 {
            return None;
        }
        self.texts.get(number as usize - 1)
    }

    /// Stores a message under the next number. If memory runs out or it is too large, it is lost, and uses no number.
    pub(crate) fn send_one(&mut self, message: &Message) -> Sent
        requires { IsMessage message.now }
        ensures { Sends self.old (message.now ∷ []) result self.new }
    {
        let Ok(text) = encode(self.alloc, message) else {
            return Sent::Lost;
        };
        match self.texts.push(text) {
            Ok(()) => Sent::Messages(self.texts.len() as u64, self.texts.len() as u64),
            Err(_) => Sent::Lost,
        }
    }

    /// Stores messages under the next numbers, all together. If memory runs out or one is too large, they are lost together,
    /// and use no number.
    pub(crate) fn send(&mut self, messages: &[Message]) -> Sent
        requires { All IsMessage messages.now }
        ensures { Sends self.old messages.now result self.new }
    {
        if messages.is_empty() {
            return Sent::Nothing;
        }
        let Ok(mut texts) = encode_all(self.alloc, messages) else {
            return Sent::Lost;
        };
        let before = self.texts.len() as u64;
        match self.texts.append(&mut texts) {
            Ok(()) => Sent::Messages(before + 1, self.texts.len() as u64),
            Err(_) => Sent::Lost,
        }
    }
}

/// The message of an encoding.
pub(crate) fn message_of(alloc: Global, text: &Bytes) -> Result<Message, AllocError>
    requires { (m : Message) × IsSpelled text.now m }
    ensures { IfOk result (λ m. IsSpelled text.now m) }
{
    match decode(alloc, text.clone()?) {
        Ok(message) => Ok(message),
        Err(Refused::OutOfMemory) => Err(AllocError),
        Err(Refused::Fault(_)) => unreachable!(),
    }
}

// The encoding of each message.
fn encode_all(alloc: Global, messages: &[Message]) -> Result<Vec<Bytes>, AllocError>
    requires { All IsMessage messages.now }
    ensures { IfOk result (λ texts. AreSpelled texts.items messages.now) }
{
    let mut texts = Vec::with_capacity(alloc, messages.len())?;
    for message in messages {
        match encode(alloc, message) {
            Ok(text) => texts.push(text)?,
            // Too large, or out of memory.
            Err(_) => return Err(AllocError),
        }
    }
    Ok(texts)
}
