//! The limit of callers as a number. The function does nothing: it is the proof of its contract.

ghost use Rattle.std.specs.Prelude.{◌≡◌};
ghost use Rattle.lsm_nodes.specs.declared.hub.TheConstants.{PARTS};

/// The limit is this number.
pub fn hub_limits_are_these()
    ensures { PARTS ≡ 4 }
{}
