//! What a message changes at a follower: what a caller gets beside the messages to send.

/// What a message changed at a follower.
#[derive(Clone, Copy, Debug, PartialEq, Eq)]
pub enum FollowChange {
    /// It is to move to another version, and lacks this many tables.
    Waiting(u32),
    /// It serves this version now.
    Version(u64),
    /// It gave up the version that it was to move to.
    Dropped,
    /// Nothing: it serves the current version.
    Current,
    /// Nothing.
    Ignored,
}
