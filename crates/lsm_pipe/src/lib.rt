//! Messages over pipes: frames, and the worker that any host can run over a pair of streams.
//!
//! It promises that a frame that is written is read as the same bytes, that what is no frame or no message is refused
//! by its reason, that memory is taken as bytes come and never by the length that a frame announces, and that a worker
//! over two streams sends exactly what `lsm_work` answers to the messages that come. It stands on `lsm_work` for what a
//! worker does with a message, on `lsm_msg` for messages and their bytes, and on `lsm_io` for reads and writes.
#![tactic(auto)]

mod error;
mod frame;
mod mail;
mod working;

pub use error::PipeError;
pub use frame::{read_frame, write_frame};
pub use mail::{message_in, receive, send};
pub use working::work;
