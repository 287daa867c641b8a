//! Why a script was not run to its end.

ghost use Rattle.std.specs.Prelude.{◌≡◌};
ghost use Rattle.lsm_sim.specs.Runs.{exit_status};

use lsm_io::StreamError;
use lsm_key::Refused;
use lsm_line::Reason;
use lsm_options::{FAILED, REFUSED};
use lsm_script::Fault;
use std::alloc::{AllocError, AllocFailed};
use thiserror::Error;

/// Why a script was not run to its end.
#[derive(Clone, Copy, Debug, PartialEq, Eq, Error)]
pub enum RunError {
    /// The number of the first faulty line, from 1, and what is wrong with it. Nothing was run or written: mend the
    /// line.
    #[error("line {0}: {1}")]
    Script(u64, Reason),
    /// The script could not be read, and nothing was run or written; or a read of the threads found no version, or the
    /// history of their store is not what they recorded. Run it again.
    #[error("read fault")]
    ReadFault,
    /// A reply could not be written. A prefix of the lines was: run it again, to another output.
    #[error("write fault")]
    WriteFault,
    /// Memory ran out outside an event. A prefix of the lines was written: run it again once there is more.
    #[error("out of memory")]
    OutOfMemory,
}

impl From<AllocError> for RunError {
    ghost use Rattle.std.specs.Prelude.{◌≡◌};
    ghost use Rattle.lsm_sim.specs.declared.error.RunError.TheVariants.{OutOfMemory};

    ghost from_gives = { λ _ e. e ≡ OutOfMemory };

    fn from(_e: AllocError) -> RunError {
        RunError::OutOfMemory
    }
}

impl<T: Drop> From<AllocFailed<T>> for RunError {
    ghost use Rattle.std.specs.Prelude.{◌≡◌};
    ghost use Rattle.lsm_sim.specs.declared.error.RunError.TheVariants.{OutOfMemory};

    ghost from_gives = { λ _ e. e ≡ OutOfMemory };

    fn from(_e: AllocFailed<T>) -> RunError {
        RunError::OutOfMemory
    }
}

impl From<Refused<Fault>> for RunError {
    ghost use Rattle.std.specs.Prelude.{◌≡◌};
    ghost use Rattle.lsm_sim.specs.Runs.{run_error_of};

    ghost from_gives = { λ refused e. e ≡ run_error_of refused };

    fn from(refused: Refused<Fault>) -> RunError {
        match refused {
            Refused::OutOfMemory => RunError::OutOfMemory,
            Refused::Fault(fault) => RunError::Script(fault.line, fault.reason),
        }
    }
}

impl From<StreamError> for RunError {
    ghost use Rattle.std.specs.Prelude.{◌≡◌};
    ghost use Rattle.lsm_sim.specs.Runs.{run_error_of_stream};

    ghost from_gives = { λ why e. e ≡ run_error_of_stream why };

    fn from(why: StreamError) -> RunError {
        match why {
            StreamError::ReadFault => RunError::ReadFault,
            StreamError::WriteFault => RunError::WriteFault,
            StreamError::OutOfMemory => RunError::OutOfMemory,
        }
    }
}

/// The exit status of the program after an error.
pub fn code_of(error: RunError) -> u8
    ensures { result ≡ exit_status error }
{
    match error {
        RunError::Script(_, _) => REFUSED,
        RunError::ReadFault | RunError::WriteFault | RunError::OutOfMemory => FAILED,
    }
}
