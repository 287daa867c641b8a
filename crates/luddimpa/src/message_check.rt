//! Checking a message.

ghost use Rattle.std.specs.Prelude.{◌≡◌};
ghost use Rattle.luddimpa.specs.declared.message_check.MessageCheck.{MessageCheck};
ghost use Rattle.luddimpa.specs.MessageChecks.{ChecksMessage, checked_message_of};

use crate::message_fault::message_fault_code;
use crate::opening::read_message;
use crate::status::Status;
use lsm_key::Refused;
use lsm_msg::MsgFault;
use std::alloc::Global;

/// What a check of a message finds.
#[derive(Clone, Copy)]
pub(crate) enum MessageCheck {
    /// One message.
    Message,
    /// The first fault.
    Fault(MsgFault),
    OutOfMemory,
}

/// The same for C.
#[repr(C)]
#[derive(Clone, Copy)]
pub struct CheckedMessage {
    pub status: u32,
    /// The first fault; 0 if there is none.
    pub fault: u32,
}

impl CheckedMessage {
    pub(crate) fn of(check: MessageCheck) -> CheckedMessage
        ensures { result ≡ checked_message_of check }
    {
        let (status, fault) = match check {
            MessageCheck::Message => (Status::Ok, 0),
            MessageCheck::Fault(fault) => (Status::NotAMessage, message_fault_code(fault)),
            MessageCheck::OutOfMemory => (Status::OutOfMemory, 0),
        };
        CheckedMessage {
            status: status.code(),
            fault,
        }
    }
}

/// Checks that bytes are a message: each of them, and nothing behind it. What a table in it says is not looked at.
#[unsafe(no_mangle)]
pub extern "C" fn luddimpa_message_check(alloc: Global, message: &[u8]) -> CheckedMessage
    ensures { (check : MessageCheck) × (result ≡ checked_message_of check) × ChecksMessage message.now check }
{
    CheckedMessage::of(check(alloc, message))
}

fn check(alloc: Global, message: &[u8]) -> MessageCheck
    ensures { ChecksMessage message.now result }
{
    match read_message(alloc, message) {
        Ok(_) => MessageCheck::Message,
        Err(Refused::Fault(fault)) => MessageCheck::Fault(fault),
        Err(Refused::OutOfMemory) => MessageCheck::OutOfMemory,
    }
}
