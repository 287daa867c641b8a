//! A store behind a stream of requests in Redis's protocol, RESP2.
//!
//! It promises, for streams whose bytes are known, that the replies to a stream of requests, arrays of words or lines
//! of them, are those of a run of the requests: each by what the store held after those before it, in their order, up
//! to a `QUIT`, or to one that begins as a request of HTTP does. After a fault of a stream or of memory, or a sync that
//! is refused, a beginning of them is written. The store is synced before each write of replies: once no whole request
//! is left of those that a read gave, or 64 KiB of replies wait; if that is refused, none of these is written. What is
//! written is flushed before more input is waited for. What is answered to a request is promised for each command, by
//! what the store held and what it holds then, with a reason of that call for each refusal. Bytes that are no request
//! end serving, with an error line behind the replies to all requests that were run. A fault of a stream is reported
//! exactly if the stream counted it. Whatever comes is read within limits that hold before memory is taken, and serving
//! ends safely. The texts of refusals, and that a sync comes before each write of replies, have no clause. It stands on
//! `lsm_store` for the store, on `lsm_resp` for requests and replies as bytes, and on `lsm_io` for reads and writes.
#![tactic(auto)]

mod answer;
mod command;
mod error;
mod http_word;
mod laws;
mod refusal;
mod serving;

pub use answer::{Answer, answer_request};
pub use command::Command;
pub use error::ServeError;
pub use http_word::HttpWord;
pub use laws::{kept_limit_is_this, range_limit_is_this};
pub use refusal::CommandRefusal;
pub use serving::serve;
