//! What a call answers.

ghost use Rattle.std.specs.Prelude.{◌≡◌};
ghost use Rattle.luddimpa.specs.Statuses.{status_code};

/// What a call answers: the first that holds.
#[derive(Clone, Copy)]
pub(crate) enum Status {
    /// What was asked for is there: a value, a table, a list of edits that apply, a message, a merge.
    Ok,
    /// The key is deleted.
    Deleted,
    /// The table says nothing of the key.
    Absent,
    /// Out of memory.
    OutOfMemory,
    /// The sequence is above the greatest one.
    NoSequence,
    /// The bytes are no table.
    NotATable,
    /// A list ends inside an element.
    CutShort,
    /// The bytes of an element are no edit.
    NotAnEdit,
    /// An edit does not apply to the version that those before it make.
    DoesNotApply,
    /// The bytes are no message that takes a job to a worker.
    NotAJob,
    /// A table is not that of the job's input at its place.
    WrongTable,
    /// Two tables share an entry's key and sequence.
    SameEntry,
    /// The result is too large for a message.
    TooLarge,
    /// The bytes are no message.
    NotAMessage,
}

impl Status {
    /// Its code in an answer.
    pub(crate) fn code(self) -> u32
        ensures { result ≡ status_code self }
    {
        match self {
            Status::Ok => 0,
            Status::Deleted => 1,
            Status::Absent => 2,
            Status::OutOfMemory => 3,
            Status::NoSequence => 4,
            Status::NotATable => 5,
            Status::CutShort => 6,
            Status::NotAnEdit => 7,
            Status::DoesNotApply => 8,
            Status::NotAJob => 9,
            Status::WrongTable => 10,
            Status::SameEntry => 11,
            Status::TooLarge => 12,
            Status::NotAMessage => 13,
        }
    }
}
