//! What a check of a list of edits finds.

ghost use Rattle.std.specs.Prelude.{◌≡◌};
ghost use Rattle.luddimpa.specs.EditChecks.{checked_edits_of, edits_fault_code, edits_status};
ghost use Rattle.luddimpa.specs.Statuses.{apply_error_code, format_fault_code};

use crate::status::Status;
use lsm_edit::{ApplyError, FormatFault, Version};

/// Why a list of edits does not replay.
#[derive(Clone, Copy)]
pub(crate) enum EditsFault {
    /// It ends inside an element.
    CutShort,
    /// An element is no edit: its first fault.
    NotAnEdit(FormatFault),
    /// An edit does not apply.
    DoesNotApply(ApplyError),
    OutOfMemory,
}

/// The version that the edits make, up to the first that does not apply, and why that one does not.
#[derive(Drop)]
pub(crate) struct EditsCheck {
    pub version: Version,
    pub fault: Option<EditsFault>,
}

/// The same for C.
#[repr(C)]
#[derive(Clone, Copy)]
pub struct CheckedEdits {
    pub status: u32,
    /// What is wrong with the first edit that does not apply; 0 if nothing is.
    pub fault: u32,
    /// The number of the version: how many edits apply. So the edit that does not is the one at this place, from 0.
    pub number: u64,
    /// Every write up to this sequence is in the files.
    pub flushed: u64,
    pub epoch: u64,
    pub next_file: u64,
    /// How many files the version lists.
    pub files: usize,
}

impl CheckedEdits {
    pub(crate) fn of(check: &EditsCheck) -> CheckedEdits
        ensures { result ≡ checked_edits_of check.now.version check.now.fault }
    {
        let version = &check.version;
        CheckedEdits {
            status: status_of(check.fault).code(),
            fault: code_of(check.fault),
            number: version.number(),
            flushed: version.flushed().number(),
            epoch: version.epoch(),
            next_file: version.next_file(),
            files: version.files().len(),
        }
    }
}

fn status_of(fault: Option<EditsFault>) -> Status
    ensures { result ≡ edits_status fault }
{
    match fault {
        None => Status::Ok,
        Some(EditsFault::CutShort) => Status::CutShort,
        Some(EditsFault::NotAnEdit(_)) => Status::NotAnEdit,
        Some(EditsFault::DoesNotApply(_)) => Status::DoesNotApply,
        Some(EditsFault::OutOfMemory) => Status::OutOfMemory,
    }
}

fn code_of(fault: Option<EditsFault>) -> u32
    ensures { result ≡ edits_fault_code fault }
{
    match fault {
        Some(EditsFault::NotAnEdit(fault)) => format_fault_code(fault),
        Some(EditsFault::DoesNotApply(why)) => apply_error_code(why),
        _ => 0,
    }
}

fn format_fault_code(fault: FormatFault) -> u32
    ensures { result ≡ format_fault_code fault }
{
    match fault {
        FormatFault::Truncated => 1,
        FormatFault::BadField => 5,
        FormatFault::TrailingBytes => 9,
    }
}

fn apply_error_code(why: ApplyError) -> u32
    ensures { result ≡ apply_error_code why }
{
    match why {
        ApplyError::WrongNumber => 11,
        ApplyError::NoSuchFile => 12,
        ApplyError::FileExists => 13,
        ApplyError::Overlap => 14,
        ApplyError::FlushedBack => 15,
        ApplyError::BadCounter => 16,
        ApplyError::OutOfMemory => 0,
    }
}
