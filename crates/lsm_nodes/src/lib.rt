//! A coordinator that threads share: a lock around it, with the history of its calls, and the tallies of its callers.
//!
//! It promises that the history under the lock is a run of the model, from each state that was shown at the start to one that the
//! coordinator shows, as long as each install that was done held the merge of its job; that each recorded call does what the
//! coordinator's own call promises, and adds only itself to the history and to its caller's tally; and that a hub closes only if its
//! history is exactly the records of its tallies, each once, each caller's in its order. So recorded calls and installs are counted exactly,
//! however the threads took turns; a dispatcher counts each claim that it was given. It stands on `lsm_coord` for the coordinator, its
//! calls with their answers and the model, on `lsm_claim` for claims, and on `lsm_msg` for jobs, results and messages.
#![tactic(auto)]

mod answers;
mod exchange;
mod hub;
mod installed;
mod laws;
mod matching;
mod rounds;
mod shared;
mod twice;

pub use exchange::{Exchange, Witness, Witnessed};
pub use hub::{CloseError, Hub, PARTS};
pub use laws::hub_limits_are_these;
pub use rounds::{Link, RoundEnd, dispatch};
pub use shared::{Record, Shared, Start, Tally};
