//! Why a dispatch ends before everything is compacted.

ghost use Rattle.std.specs.Prelude.{◌≡◌};
ghost use Rattle.lsm_dispatch.specs.declared.error.DispatchError.TheVariants as dispatch;

use lsm_coord::CoordError;
use lsm_pipe::PipeError;
use thiserror::Error;

/// Why a dispatch ends before everything is compacted. No claim is left, and what was installed stays.
#[derive(Clone, Copy, Debug, PartialEq, Eq, Error)]
pub enum DispatchError {
    /// The pipe failed, or what came over it is no message. Dispatch again over a new pipe, with new workers.
    #[error("{0}")]
    Pipe(PipeError),
    /// The coordinator refuses a pick, an install or a trim, or finds no memory. What helps is said at the reason.
    #[error("{0}")]
    Coord(CoordError),
    /// A compaction is due, and no worker is there to make it. Dispatch again with a worker.
    #[error("no worker is left, and a compaction is due")]
    NoWorker,
    /// The input ends while a worker has a job, whose result can't come any more. Dispatch again over a new pipe.
    #[error("the input ends while a worker has a job")]
    EndsEarly,
}

impl From<PipeError> for DispatchError {
    ghost from_gives = { λ why e. e ≡ dispatch.Pipe why };

    fn from(why: PipeError) -> DispatchError {
        DispatchError::Pipe(why)
    }
}

impl From<CoordError> for DispatchError {
    ghost from_gives = { λ why e. e ≡ dispatch.Coord why };

    fn from(why: CoordError) -> DispatchError {
        DispatchError::Coord(why)
    }
}
