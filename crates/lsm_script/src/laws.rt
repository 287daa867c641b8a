//! The limit of a script as a number. The function does nothing: it is the proof of its contract.

ghost use Rattle.std.specs.Prelude.{◌≡◌};
ghost use Rattle.lsm_script.specs.declared.deliver.TheConstants.{MAX_DELIVERIES};

/// A `deliver` has at most 1,000 messages.
pub fn script_limits_are_these()
    ensures { MAX_DELIVERIES ≡ 1000 }
{}
