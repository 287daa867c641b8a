//! Jobs: what a merge works on, and under which name.

ghost use Rattle.std.specs.Prelude.{◌≡◌};
ghost use Rattle.lsm_claim.specs.Levels.{shares_level, uses_level};

use crate::Hull;
use lsm_key::Items;
use std::alloc::{AllocError, Global};
use std::fmt;

/// The name of a job: the epoch that issued it, and its number there, from 1.
#[derive(Clone, Copy, Debug, PartialEq, Eq)]
pub struct JobId {
    pub epoch: u64,
    pub number: u64,
}

/// `E.N`: the epoch and the number.
impl fmt::Display for JobId {
    fn fmt<W: fmt::Write>(&self, f: &mut fmt::Formatter<W>) -> fmt::Result {
        write!(f, "{}.{}", self.epoch, self.number)
    }
}

/// The inputs of one compaction: files of a level and of the next one, and their key range.
#[derive(Debug, Drop)]
pub struct Want {
    /// The upper one of its two levels.
    pub level: u8,
    /// The numbers of its input files.
    pub files: Items<u64>,
    pub hull: Hull,
}

/// A job whose claim has not been settled.
#[derive(Debug, Drop)]
pub struct LiveJob {
    pub id: JobId,
    pub want: Want,
}

impl Want {
    ghost use Rattle.std.specs.Prelude.{◌≡◌, IfOk};
    ghost use Rattle.lsm_claim.specs.Conflicts.{conflicts};

    /// Whether two jobs conflict: they share a level and have a key in common.
    pub fn conflicts_with(&self, other: &Want) -> bool
        ensures { result ≡ conflicts self.now other.now }
    {
        shares_level(self.level, other.level) && self.hull.range().overlaps(other.hull.range())
    }

    /// The same want. Its keys share the bytes.
    pub fn copy(&self, alloc: Global) -> Result<Want, AllocError>
        ensures { IfOk result (λ want. want ≡ self.now) }
    {
        let files = self.files.as_slice().to_vec(alloc)?;
        Ok(Want {
            level: self.level,
            files: Items::from_vec(files),
            hull: self.hull.clone()?,
        })
    }
}

/// Whether jobs of these levels share one: a job uses its level and the next.
pub fn shares_level(a: u8, b: u8) -> bool
    ensures { result ≡ shares_level a b }
{
    uses_level(a, b) || uses_level(b, a)
}

// Whether a job of a level uses the other one: it uses its own and the next.
fn uses_level(job: u8, level: u8) -> bool
    ensures { result ≡ uses_level job level }
{
    level == job || level as u16 == job as u16 + 1
}
