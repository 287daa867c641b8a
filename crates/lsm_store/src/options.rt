//! How a store is kept: the options of an opening, with their defaults.

use lsm_key::{DEFAULT_BASE, DEFAULT_BLOCK, DEFAULT_L0, Limits};

/// How a store is kept. The default is LevelDB's.
#[derive(Clone, Copy, Debug, PartialEq, Eq)]
pub struct Options {
    /// When its levels need compaction, and how its tables are cut into blocks.
    pub limits: Limits,
}

impl Default for Options {
    ghost use Rattle.std.specs.Prelude.{◌≡◌};
    ghost use Rattle.lsm_key.specs.declared.limits.TheConstants.{DEFAULT_L0, DEFAULT_BASE, DEFAULT_BLOCK};

    ghost is_default = { λ o. (o.limits.l0 ≡ DEFAULT_L0) × (o.limits.base ≡ DEFAULT_BASE) × (o.limits.block ≡ DEFAULT_BLOCK) };

    fn default() -> Options {
        Options {
            limits: Limits {
                l0: DEFAULT_L0,
                base: DEFAULT_BASE,
                block: DEFAULT_BLOCK,
            },
        }
    }
}
