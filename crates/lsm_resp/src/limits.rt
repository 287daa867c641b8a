//! The limits of a request, each with its reason.

use lsm_key::{MAX_BATCH_OPS, MAX_BATCH_WEIGHT, MAX_VALUE_BYTES};

/// A command, and the keys and values of the greatest batch.
pub const MAX_WORDS: usize = 2 * MAX_BATCH_OPS + 1;

/// The longest word. In bytes; a value that is too long by less than as much again is refused by the store, and not by the wire.
pub const MAX_WORD_BYTES: usize = 2 * MAX_VALUE_BYTES;

/// The most bytes that the words of a request have together: those of the greatest batch, and of its command.
pub const MAX_REQUEST_BYTES: usize = MAX_BATCH_WEIGHT + MAX_WORD_BYTES;

/// The longest line of an inline request, as in Redis. In bytes.
pub const MAX_LINE_BYTES: usize = 65_536;

/// The longest line that announces a number, with its mark and without its end. In bytes; a number below 2^64 has 20 digits at most.
pub(crate) const MAX_HEADER_BYTES: usize = 32;
