//! A coordinator over a pipe: its compactions are made by workers in other processes.
//!
//! It promises that a dispatch goes in turns: a worker that is idle gets the next job, or, if no idle one may have one,
//! a letter is taken; that it reads the letters' frames and writes those of the messages that it sends, each a job that
//! was picked for its worker or the answer to a question; that it ends well only if no worker has a job, none is due
//! for an idle one, and what is still due exceeds a job size limit; that it stops early only for a reason, by what is
//! left of its input then; that a result is installed only for the job that its worker has; that every claim is settled
//! whatever comes or fails; and that the store holds what it held before, as long as each result that was installed is
//! the merge of its job: an install tests only the keys and the block target. It stands on `lsm_coord` for picks and
//! installs, on `lsm_store` for what a store holds, and on `lsm_pipe` for the pipe.
#![tactic(auto)]

mod crew;
mod dispatching;
mod error;
mod handling;
mod install;
mod letter;

pub use crew::{Crew, WorkerState};
pub use dispatching::dispatch;
pub use error::DispatchError;
pub use install::due_of;
pub use letter::{Letter, letter_in};
