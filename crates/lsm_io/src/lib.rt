//! Reads and writes over streams: what comes, until the input ends, and all bytes of an output.
//!
//! It promises that what is read is what the reader lost, and that what is written is what the writer was given, whole or up to a fault. It
//! says so of streams whose bytes are known. Of streams that are counted it promises too that a fault is reported exactly if it was
//! counted. That a call which is interrupted is made again is tested. It stands on no other crate of the store.
#![tactic(auto)]

mod error;
mod reading;
mod sink;
mod source;
mod writing;

pub use error::StreamError;
pub use reading::{buffer_of, read_all, read_more};
pub use sink::{CountedWriter, Sink, SinkError, write_kept, write_whole};
pub use source::{CountedReader, Source, SourceError, read_next, read_to_end};
pub use writing::{write_all, write_out};
