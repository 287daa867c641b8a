//! What a message changes at a worker: what a caller gets beside the messages to send.

/// What a message changed at a worker.
#[derive(Clone, Copy, Debug, PartialEq, Eq)]
pub enum WorkChange {
    /// It collects the inputs of a job, and lacks this many.
    Collecting(u32),
    /// It had all inputs, sent the result of their merge, and is idle.
    Merged,
    /// It gave its job up, and is idle.
    Dropped,
    /// Nothing.
    Ignored,
}

impl WorkChange {
    ghost use Rattle.std.specs.Prelude.{◌≡◌};
    ghost use Rattle.lsm_work.specs.Held.{ends_task};

    // Whether the worker has no task any more.
    pub(crate) fn ends_task(self) -> bool
        ensures { result ≡ ends_task self }
    {
        self == WorkChange::Merged || self == WorkChange::Dropped
    }
}
