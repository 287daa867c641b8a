//! Limits as numbers. The functions do nothing: each is the proof of its contract.

ghost use Rattle.std.specs.Prelude.{◌≡◌};
ghost use Rattle.lsm_serve.specs.declared.answer.range.TheConstants.{MAX_RANGE_KEYS};
ghost use Rattle.lsm_serve.specs.declared.serving.TheConstants.{KEPT_BYTES};

/// The most keys that a `RANGE` may ask for are this many.
pub fn range_limit_is_this()
    ensures { MAX_RANGE_KEYS ≡ 1000 }
{}

/// Fewer bytes of replies than these are kept back when one more request is answered.
pub fn kept_limit_is_this()
    ensures { KEPT_BYTES ≡ 65536 }
{}
