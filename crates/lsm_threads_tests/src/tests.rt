//! Loops over channels in which all messages wait that will come, and which are closed behind them.

mod answering;
mod dispatching;
mod following;
mod linked;
mod scripts;
mod vectors;
mod working;

use bytes::Bytes;
use crossbeam_channel::{Receiver, unbounded};
use std::alloc::Global;
use std::sync::Wait;
use std::test::Fail;

/// Messages as bytes.
type Messages = &'static [&'static [u8]];

// A closed channel of these messages.
fn waiting<R: Wait>(rt: &R, alloc: Global, messages: Messages) -> Result<Receiver<Bytes>, Fail> {
    let (to, from) = unbounded(alloc)?;
    for message in messages {
        if to.send(rt, Bytes::from_static(message)).is_err() {
            return Err("out of memory")?;
        }
    }
    Ok(from)
}

// Whether these messages were sent, and no other.
fn are_sent<R: Wait>(rt: &R, sent: &Receiver<Bytes>, wanted: Messages) -> bool {
    for message in wanted {
        match sent.try_recv(rt) {
            Ok(bytes) if &bytes[..] == *message => {}
            _ => return false,
        }
    }
    sent.try_recv(rt).is_err()
}
