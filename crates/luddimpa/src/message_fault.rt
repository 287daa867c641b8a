//! The codes of what is wrong with a message.

ghost use Rattle.std.specs.Prelude.{◌≡◌};
ghost use Rattle.luddimpa.specs.Statuses.{message_fault_code};

use lsm_msg::MsgFault;

/// The code of a fault of a message's bytes.
pub(crate) fn message_fault_code(fault: MsgFault) -> u32
    ensures { result ≡ message_fault_code fault }
{
    match fault {
        MsgFault::Truncated => 1,
        MsgFault::BadMagic => 2,
        MsgFault::BadVersion => 3,
        MsgFault::BadKind => 4,
        MsgFault::BadField => 5,
        MsgFault::TrailingBytes => 9,
        MsgFault::TooLarge => 10,
        MsgFault::NeedlessVersion => 17,
    }
}
