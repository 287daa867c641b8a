//! What may be wrong with the bytes of a message.

use lsm_key::Refused;

/// A fault of the bytes of a message, or out of memory.
pub type MsgError = Refused<MsgFault>;

/// What is wrong with the bytes of a message: the first fault from left to right.
#[derive(Clone, Copy, Debug, PartialEq, Eq)]
pub enum MsgFault {
    /// The bytes end inside a field.
    Truncated,
    /// The bytes do not begin with the letters `LSMM`.
    BadMagic,
    /// The version is neither 1 nor 2.
    BadVersion,
    /// There is no message of this kind.
    BadKind,
    /// A field breaks its rule.
    BadField,
    /// Bytes follow the last field.
    TrailingBytes,
    /// There are more bytes than `MAX_MESSAGE_BYTES`. This comes before all other faults.
    TooLarge,
    /// The version is 2, and no key in the message's own fields is longer than `MAX_SHORT_KEY_BYTES`.
    NeedlessVersion,
}
