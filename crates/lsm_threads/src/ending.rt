//! How loops end: one list of reasons for all of them, so that the ending of one can be the cause of another's.

ghost use Rattle.std.specs.Prelude.{◌≡◌};
ghost use Rattle.lsm_threads.specs.Endings.{IsOfMail, cause_of};

use std::thread::Promise;

/// Why a loop ended.
#[derive(Clone, Copy, Debug, PartialEq, Eq)]
pub enum Ending {
    /// The follower is at its goal, or past it.
    AtGoal,
    /// The follower was told that its version is the current one.
    Current,
    /// The worker gave its job up.
    Dropped,
    /// A channel is closed.
    Closed,
    /// What came is no message.
    NoMessage,
    /// A message is too large to be sent.
    TooLarge,
    /// Memory ran out.
    OutOfMemory,
}

impl Ending {
    /// Why two loops ended that wait for each other's messages: if this one's channel was closed, the other one's ending.
    pub fn cause(self, other: Ending) -> Ending
        ensures { result ≡ cause_of self other }
    {
        if self == Ending::Closed { other } else { self }
    }
}

/// That a loop ended by what came, by what was to be sent, or by want of memory.
#[derive(Clone, Copy)]
pub(crate) struct OfMail;

impl Promise<Ending> for OfMail {
    ghost use Rattle.lsm_threads.specs.Endings.{IsOfMail};

    ghost kept_by = { λ p ending. IsOfMail ending };
}
