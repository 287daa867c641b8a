//! What is still due after compactions: what `Store::compact` and a dispatch answer.

/// What is still due after compactions.
#[derive(Clone, Copy, Debug, PartialEq, Eq)]
pub enum Due {
    /// No level needs compaction.
    Nothing,
    /// Every compaction that is due exceeds a job size limit.
    TooLarge,
    /// As many compactions were made as were asked for. More may be due.
    More,
}
