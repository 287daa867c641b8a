//! Outcomes of candidates: what was found of those that were tried, and how it joins with what is found of the next
//! ones.

ghost use Rattle.std.specs.Prelude.{◌≡◌};
ghost use Rattle.lsm_pick.specs.Outcome.{is_some_picked, or_later};

use lsm_claim::Want;

/// The outcome of a prefix of the candidates.
#[derive(Debug, Drop)]
pub(crate) enum Outcome {
    /// The first eligible candidate proposes this.
    Picked(Want),
    /// No candidate is eligible, and at least one failed only by size.
    TooLarge,
    /// Every candidate conflicts with a running job.
    Blocked,
}

impl Outcome {
    /// Whether a candidate is eligible.
    pub(crate) fn is_picked(&self) -> bool
        ensures { result ≡ is_some_picked self.now }
    {
        match self {
            Outcome::Picked(_) => true,
            Outcome::TooLarge | Outcome::Blocked => false,
        }
    }

    /// The outcome of these candidates and of those after them.
    pub(crate) fn or(self, later: Outcome) -> Outcome
        ensures { result ≡ or_later self later }
    {
        match (self, later) {
            (Outcome::Picked(want), _) => Outcome::Picked(want),
            (Outcome::Blocked, later) => later,
            (Outcome::TooLarge, Outcome::Picked(want)) => Outcome::Picked(want),
            (Outcome::TooLarge, _) => Outcome::TooLarge,
        }
    }
}
