//! Why a run of threads found nothing: the error of `run_threads`.

use thiserror::Error;

/// Why the threads did not come to an end that can be told.
#[derive(Clone, Copy, Debug, PartialEq, Eq, Error)]
pub enum ThreadsError {
    #[error("the threads found something else than was stored")]
    ReadFault,
    #[error("out of memory")]
    OutOfMemory,
}
