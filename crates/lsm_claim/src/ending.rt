//! How claims end: what the caller says became of the job, and what the book answers. They stand apart from the book,
//! whose module has nothing beside it and claims.

/// What became of a job whose claim is settled.
#[derive(Clone, Copy, Debug, PartialEq, Eq)]
pub enum Ending {
    /// Its result was installed.
    Installed,
    /// The claim was given back.
    Returned,
}

/// Whether a settled claim was still live.
#[derive(Clone, Copy, Debug, PartialEq, Eq)]
pub enum Settled {
    /// The book had its job, and has removed it.
    Live,
    /// The book did not have its job, and stays as it was.
    Stale,
}
