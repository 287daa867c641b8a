//! The wire of Redis, RESP2: requests in, replies out.
//!
//! It promises that a request, an array of words or a line of them, is read as the words whose bytes lie ahead, however few of the
//! bytes that follow have come, that nothing else is read as one, that a fault is the first one, and that a reply is written as its
//! bytes. No more of a request is asked for or read than the limits allow, whatever it announces, and a word is lent, not copied. It
//! stands on `lsm_key` for the limits of keys, values and batches.
#![tactic(auto)]

mod bulk;
mod fault;
mod find;
mod header;
mod inline;
mod laws;
mod limits;
mod reply;
mod request;

pub use fault::{ParseError, ProtocolFault};
pub use header::read_number;
pub use laws::wire_limits_are_these;
pub use limits::{MAX_LINE_BYTES, MAX_REQUEST_BYTES, MAX_WORD_BYTES, MAX_WORDS};
pub use reply::{RespReply, write_reply};
pub use request::{Parsed, parse_request};
