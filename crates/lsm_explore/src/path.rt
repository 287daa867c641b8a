//! Paths: a schedule as the turns that it takes, each by its number among those that it had.

ghost use Rattle.std.specs.Prelude.{◌≡◌, ◌++◌, ◌∷◌, [], ℕ, IsTrue, MatchOption, false, take};
ghost use Rattle.lsm_explore.specs.Paths.{AreClosed, IsLastOpen, next_turn, turn_at};

use std::alloc::{AllocError, Global};

/// Which choice is taken, of how many.
#[derive(Clone, Copy)]
pub(crate) struct Turn {
    /// From 0.
    pub(crate) taken: u64,
    pub(crate) of: u64,
}

/// The turns of a schedule.
#[derive(Drop)]
pub(crate) struct Path {
    pub(crate) turns: Vec<Turn>,
}

impl Path {
    /// Before the first turn.
    pub(crate) fn new(alloc: Global) -> Path {
        Path {
            turns: Vec::new(alloc),
        }
    }

    /// The same path.
    pub(crate) fn copy(&self, alloc: Global) -> Result<Path, AllocError> {
        Ok(Path {
            turns: self.turns.as_slice().to_vec(alloc)?,
        })
    }

    /// How many turns it has.
    pub(crate) fn len(&self) -> usize {
        self.turns.len()
    }

    /// What is taken at a turn. A turn past the last one is added, and takes the first choice.
    pub(crate) fn taken_at(&mut self, at: usize, of: u64) -> Result<u64, AllocError> {
        if let Some(turn) = self.turns.get(at) {
            return Ok(turn.taken);
        }
        self.turns.push(Turn { taken: 0, of })?;
        Ok(0)
    }

    /// Keeps the first turns, this many of them.
    pub(crate) fn cut(&mut self, len: usize) {
        self.turns.truncate(len);
    }

    /// Leads to the next schedule with the same first turns, `fixed` of them: of the other turns with a choice left the last one takes its
    /// next choice, and those after it are dropped. If there is none, only the fixed ones stay, and the answer is no.
    pub(crate) fn advance(&mut self, fixed: usize) -> bool
        ensures next { IsTrue result → (at : ℕ) × IsLastOpen fixed self.old.turns.items at × (self.new.turns.items ≡ take at self.old.turns.items ++ next_turn (turn_at self.old.turns.items at) ∷ []) }
        ensures end { result ≡ false → AreClosed fixed self.old.turns.items × (self.new.turns.items ≡ take fixed self.old.turns.items) }
    {
        let Some(at) = last_open(self.turns.as_slice(), fixed) else {
            self.turns.truncate(fixed);
            return false;
        };
        let Turn { taken, of } = self.turns[at];
        self.turns.truncate(at);
        let taken = taken + 1;
        self.turns.push_reserved(Turn { taken, of });
        true
    }
}

impl Turn {
    ghost use Rattle.std.specs.Prelude.{◌↔◌, IsTrue};
    ghost use Rattle.lsm_explore.specs.Paths.{IsOpen};

    // Whether there is a choice after the one that is taken.
    fn is_open(self) -> bool
        ensures { IsTrue result ↔ IsOpen self }
    {
        self.taken < self.of.saturating_sub(1)
    }
}

// The place of the last turn with a choice left, from `fixed` on.
fn last_open(turns: &[Turn], fixed: usize) -> Option<usize>
    ensures { MatchOption result (AreClosed fixed turns.now) (IsLastOpen fixed turns.now) }
{
    let mut last = None;
    for (i, turn) in turns.iter().enumerate() {
        if i >= fixed && turn.is_open() {
            last = Some(i);
        }
    }
    last
}
