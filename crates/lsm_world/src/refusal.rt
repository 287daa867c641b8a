//! Why an event is refused: one list for all nodes, since a reply may be that of any of them.

use lsm_coord::CoordError;
use lsm_key::KeyError;
use lsm_versions::OpenError;
use thiserror::Error;

/// Why an event is refused. Nothing changes then, but for a stale claim, which is spent, and for an opening that is
/// refused.
#[derive(Clone, Copy, Debug, PartialEq, Eq, Error)]
pub enum Refusal {
    /// A batch refuses an operation: it is outside the limits or one too many, or memory ran out. Nothing is written.
    #[error("{0}")]
    Key(KeyError),
    /// The coordinator refuses the call. What helps is said at the reason.
    #[error("{0}")]
    Coord(CoordError),
    /// The coordinator is not opened, and is down. It may be restarted again.
    #[error("{0}")]
    Open(OpenError),
    /// The coordinator is down: its last opening was refused. Only a restart ends that.
    #[error("the coordinator is down")]
    Down,
    /// The dispatcher has a job already. Deliver its result, or let it give the job up.
    #[error("the dispatcher has a job already")]
    Busy,
    /// The dispatcher has no job, or the result is of another one. Let it pick one first.
    #[error("the dispatcher does not have this job")]
    NoClaim,
    /// The claim of the job was no longer live, since the coordinator was restarted. The dispatcher may pick again.
    #[error("the claim of the job is no longer live")]
    OldEpoch,
    /// No message has this number. A reply names the messages that its event sent.
    #[error("no message has this number")]
    NoMessage,
    /// There was no memory for the event's place in the trace, so it was not taken: nothing happened, and it may come
    /// again.
    #[error("out of memory for a place in the trace")]
    NotTaken,
    /// The node that was asked found no memory, outside a call of the coordinator. The event may come again.
    #[error("out of memory")]
    OutOfMemory,
}
