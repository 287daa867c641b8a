//! The loops that node threads run, over channels of encoded messages.
//!
//! It promises that a follower's loop publishes versions that rise and never goes back, and that readers are shown the follower's
//! version when it ends, unless memory ran out; and that a worker's loop, one that answers and the link to a worker send exactly what
//! comes of the messages that their port brings, if the port knows these. Of a channel nothing is known: nothing is claimed of what
//! arrives, nor that anything does. A channel that is closed, bytes that are no message, and memory that runs out end a loop, which
//! says so (`Ending`). It stands on `lsm_nodes` for the coordinator that threads share, on `lsm_work` and `lsm_follow`
//! for what nodes do with messages, on `lsm_readers` for a follower's readers, on `lsm_msg` for messages, and on
//! `crossbeam_channel`.
#![tactic(auto)]

mod coming;
mod dispatcher;
mod ending;
mod error;
mod follower;
mod link;
mod mail;
mod port;
mod run;
mod serve;
mod worker;

pub use coming::come_to;
pub use dispatcher::dispatch_with_worker;
pub use ending::Ending;
pub use error::ThreadsError;
pub use follower::follower_loop;
pub use link::WorkerLink;
pub use mail::ChannelPort;
pub use port::Port;
pub use run::{FollowerRead, KeyPuts, ThreadsReport, ThreadsScript, run_threads, run_threads_of};
pub use serve::serve_loop;
pub use worker::worker_loop;
