//! The alphabets: what may come next in a schedule, and how often.

use lsm_msg::NodeIndex;

/// Which events a schedule is made of.
#[derive(Clone, Copy, PartialEq, Eq)]
pub(crate) enum Alphabet {
    /// Claims and restarts, over a level 0 that is due.
    Claims,
    /// Followers and trims, after a merge was installed.
    Followers,
}

/// What may come next in a schedule.
#[derive(Clone, Copy, PartialEq, Eq)]
pub(crate) enum Choice {
    /// A put of a new value of `a`.
    Put,
    /// The same, and a flush.
    PutAndFlush,
    Pick(NodeIndex),
    GiveUp(NodeIndex),
    RestartCoordinator,
    RestartWorker(NodeIndex),
    RestartFollower(NodeIndex),
    Ask(NodeIndex),
    /// A trim to the current version.
    Trim,
    /// A delivery of the message of this number.
    Deliver(u64),
}

/// How many choices of an alphabet may come only so often.
pub(crate) const LIMITED: usize = 6;

/// A use that is no limit.
pub(crate) const ENDLESS: u32 = u32::MAX;

/// The first node of a kind.
pub(crate) fn first() -> NodeIndex {
    NodeIndex::new(1).unwrap()
}

/// The second node of a kind.
pub(crate) fn second() -> NodeIndex {
    NodeIndex::new(2).unwrap()
}

impl Alphabet {
    /// All of them, in order.
    pub(crate) const ALL: [Alphabet; 2] = [Alphabet::Claims, Alphabet::Followers];

    /// What may come only so often, in the order of the choices. A delivery may come whenever its message was sent.
    pub(crate) fn limited(self) -> [Choice; LIMITED] {
        match self {
            Alphabet::Claims => [
                Choice::Pick(first()),
                Choice::Pick(second()),
                Choice::GiveUp(first()),
                Choice::RestartCoordinator,
                Choice::RestartWorker(first()),
                Choice::Put,
            ],
            Alphabet::Followers => [
                Choice::Ask(first()),
                Choice::Ask(second()),
                Choice::RestartFollower(first()),
                Choice::RestartCoordinator,
                Choice::PutAndFlush,
                Choice::Trim,
            ],
        }
    }

    /// How often each of them may come in one schedule.
    pub(crate) fn uses(self) -> [u32; LIMITED] {
        match self {
            Alphabet::Claims => [2, 1, 1, 1, 1, 1],
            Alphabet::Followers => [1, 1, 1, 1, 1, 1],
        }
    }
}
