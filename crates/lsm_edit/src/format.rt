//! What can be wrong with the bytes of an edit, a base or a log record.

use lsm_key::Refused;

/// What is wrong with the bytes: the first fault from left to right.
#[derive(Clone, Copy, Debug, PartialEq, Eq)]
pub enum FormatFault {
    /// The bytes end inside a field.
    Truncated,
    /// A field breaks its rule.
    BadField,
    /// Bytes follow the last field.
    TrailingBytes,
}

/// A fault of the bytes, or out of memory.
pub type FormatError = Refused<FormatFault>;
