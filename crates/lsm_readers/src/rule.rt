//! The rule of a log of publications, and its one step: a publication is added to all that was seen, or the log is found
//! to be longer.

use logbook::{Gain, Plain, Play, Rule};
use lsm_edit::Served;

/// The word is the length of the list of publications, and their version numbers rise.
pub struct Rising;

impl Rule<Served, u64> for Rising {
    ghost use Rattle.std.specs.Prelude.{[]};
    ghost use base.Fml.{ftrue};
    ghost use Rattle.lsm_readers.specs.Rule.{IsLog};

    ghost holds = { λ cells log. IsLog cells log };

    ghost first = { [] };

    ghost hinted = { λ n log. Unit {0} };

    ghost shows = { λ log. [] };

    ghost keeps = { λ names log. ftrue };

    ghost moves = { λ ask before after answer. Unit {0} };
}

/// Nothing is traded in a step.
pub struct NoGain;

impl Gain<Served, u64> for NoGain {
    ghost use base.Fml.{ftrue};

    ghost after = { λ names about answer. ftrue };
}

/// The step that adds a publication.
pub struct Addition;

impl Play<Served, u64> for Addition {
    ghost use Rattle.lsm_readers.specs.Rule.{AddsToLog};

    ghost then = { AddsToLog };
}

impl Plain<Served, Served, u64> for Addition {
    ghost use Rattle.std.specs.Prelude.{None};

    ghost ask = { λ served. served };

    ghost state = { λ served. None };
}
