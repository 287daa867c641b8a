//! Messages as bytes, over channels: the port of loops that run in threads of one process.

use crate::ending::Ending;
use crate::port::Port;
use bytes::Bytes;
use crossbeam_channel::{Receiver, Sender};
use lsm_key::Refused;
use lsm_msg::{Message, decode, encode};
use std::alloc::Global;
use std::sync::Wait;

/// A port over two channels of encoded messages. Nothing is known of what comes, nor that anything does.
#[derive(Drop)]
pub struct ChannelPort<'a, R: Wait> {
    rt: &'a R,
    alloc: Global,
    from: Receiver<Bytes>,
    to: Sender<Bytes>,
}

impl<'a, R: Wait> ChannelPort<'a, R> {
    /// The port that takes what comes from one channel, and sends to another.
    pub fn new(
        rt: &'a R,
        alloc: Global,
        from: Receiver<Bytes>,
        to: Sender<Bytes>,
    ) -> ChannelPort<'a, R> {
        ChannelPort {
            rt,
            alloc,
            from,
            to,
        }
    }
}

impl<R: Wait> Port for ChannelPort<'_, R> {
    // Refuses if the channel is closed, what came is no message, or memory runs out.
    fn receive(&mut self) -> Result<Message, Ending> {
        let Ok(bytes) = self.from.recv(self.rt) else {
            return Err(Ending::Closed);
        };
        match decode(self.alloc, bytes) {
            Ok(message) => Ok(message),
            Err(Refused::OutOfMemory) => Err(Ending::OutOfMemory),
            Err(Refused::Fault(_)) => Err(Ending::NoMessage),
        }
    }

    // Refuses if the channel is closed, the message is too large, or memory runs out.
    fn send(&mut self, m: &Message) -> Result<(), Ending> {
        let bytes = match encode(self.alloc, m) {
            Ok(bytes) => bytes,
            Err(Refused::OutOfMemory) => return Err(Ending::OutOfMemory),
            Err(Refused::Fault(_)) => return Err(Ending::TooLarge),
        };
        match self.to.send(self.rt, bytes) {
            Ok(()) => Ok(()),
            Err(refused) => {
                if refused.is_disconnected() {
                    Err(Ending::Closed)
                } else {
                    Err(Ending::OutOfMemory)
                }
            }
        }
    }
}
