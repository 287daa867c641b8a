//! The kinds of messages with their codes: what is written of them and what is read stand side by side.

ghost use Rattle.std.specs.Prelude.{◌≡◌};
ghost use Rattle.lsm_key.specs.Reading.{Gives};
ghost use Rattle.lsm_msg.specs.Messages.{message_kind_code, kind_of};
ghost use Rattle.lsm_msg.specs.MessageReading.{message_kind_at};

use crate::fault::{MsgError, MsgFault};
use crate::message::Body;
use bytes::Bytes;
use lsm_key::{Refused, read_u8};

/// What a message is about.
#[derive(Clone, Copy, Debug, PartialEq, Eq)]
pub(crate) enum MessageKind {
    Job,
    Fetch,
    Table,
    Gone,
    Result,
    Ask,
    Edit,
    Base,
    Current,
}

impl MessageKind {
    /// The kind of a body.
    pub(crate) fn of(body: &Body) -> MessageKind
        ensures { result ≡ kind_of body.now }
    {
        match body {
            Body::Job(_) => MessageKind::Job,
            Body::Fetch(_) => MessageKind::Fetch,
            Body::Table(_, _) => MessageKind::Table,
            Body::Gone(_) => MessageKind::Gone,
            Body::Result(_) => MessageKind::Result,
            Body::Ask(_) => MessageKind::Ask,
            Body::Edit(_) => MessageKind::Edit,
            Body::Base(_) => MessageKind::Base,
            Body::Current(_) => MessageKind::Current,
        }
    }

    /// Its code in a message.
    pub(crate) fn code(self) -> u8
        ensures { result ≡ message_kind_code self }
    {
        match self {
            MessageKind::Job => 1,
            MessageKind::Fetch => 2,
            MessageKind::Table => 3,
            MessageKind::Gone => 4,
            MessageKind::Result => 5,
            MessageKind::Ask => 6,
            MessageKind::Edit => 7,
            MessageKind::Base => 8,
            MessageKind::Current => 9,
        }
    }
}

/// A kind from the front.
pub(crate) fn read_kind(rest: &mut Bytes) -> Result<MessageKind, MsgError>
    ensures { Gives (λ k. (k, rest.new)) result (message_kind_at rest.old) }
{
    match read_u8(rest, MsgFault::Truncated)? {
        1 => Ok(MessageKind::Job),
        2 => Ok(MessageKind::Fetch),
        3 => Ok(MessageKind::Table),
        4 => Ok(MessageKind::Gone),
        5 => Ok(MessageKind::Result),
        6 => Ok(MessageKind::Ask),
        7 => Ok(MessageKind::Edit),
        8 => Ok(MessageKind::Base),
        9 => Ok(MessageKind::Current),
        _ => Err(Refused::Fault(MsgFault::BadKind)),
    }
}
