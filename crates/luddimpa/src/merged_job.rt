//! What comes of a job.

ghost use Rattle.std.specs.Prelude.{◌≡◌};
ghost use Rattle.luddimpa.specs.JobMerges.{merge_status, merged_of, tables_refusal};

use crate::message_fault::message_fault_code;
use crate::status::Status;
use lsm_key::Refused;
use lsm_msg::MsgFault;

/// What comes of a job.
#[derive(Clone, Copy)]
pub(crate) enum JobMerge {
    /// The message of its result has so many bytes.
    Result(usize),
    /// The bytes are no message: their first fault.
    Fault(MsgFault),
    /// The message takes no job to a worker.
    NotAJob,
    /// At this place stands no table that is as the job's input there, or one too many.
    WrongTable(usize),
    /// Two tables share an entry's key and sequence.
    SameEntry,
    /// The result does not fit into a message.
    TooLarge,
    OutOfMemory,
}

impl JobMerge {
    /// What comes of tables that are refused: the place of the first wrong one, or out of memory.
    pub(crate) fn of_refused(refused: Refused<usize>) -> JobMerge
        ensures { result ≡ tables_refusal refused }
    {
        match refused {
            Refused::Fault(at) => JobMerge::WrongTable(at),
            Refused::OutOfMemory => JobMerge::OutOfMemory,
        }
    }
}

/// The same for C.
#[repr(C)]
#[derive(Clone, Copy)]
pub struct MergedJob {
    pub status: u32,
    /// What is wrong with the message; 0 if nothing is.
    pub fault: u32,
    /// The place of the wrong table, from 0; 0 if none is.
    pub table: usize,
    /// How many bytes the message of the result has; 0 if there is none.
    pub length: usize,
}

impl MergedJob {
    pub(crate) fn of(merge: JobMerge) -> MergedJob
        ensures { result ≡ merged_of merge }
    {
        let (fault, table, length) = match merge {
            JobMerge::Result(length) => (0, 0, length),
            JobMerge::Fault(fault) => (message_fault_code(fault), 0, 0),
            JobMerge::WrongTable(at) => (0, at, 0),
            _ => (0, 0, 0),
        };
        MergedJob {
            status: status_of(merge).code(),
            fault,
            table,
            length,
        }
    }
}

fn status_of(merge: JobMerge) -> Status
    ensures { result ≡ merge_status merge }
{
    match merge {
        JobMerge::Result(_) => Status::Ok,
        JobMerge::Fault(_) | JobMerge::NotAJob => Status::NotAJob,
        JobMerge::WrongTable(_) => Status::WrongTable,
        JobMerge::SameEntry => Status::SameEntry,
        JobMerge::TooLarge => Status::TooLarge,
        JobMerge::OutOfMemory => Status::OutOfMemory,
    }
}
