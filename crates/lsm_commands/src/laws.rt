//! What holds of the commands. The function does nothing: it is the proof of its contract.

ghost use Rattle.std.specs.Prelude.{[], ℕ, List, ◌<◌, ◌≤◌, length, replicate};
ghost use Rattle.std.specs.List.{AllByRecursion};
ghost use Rattle.lsm_key.specs.declared.limits.TheConstants.{MAX_KEY_BYTES};
ghost use Rattle.lsm_coord.specs.Model.Range.{InHalfOpenRange};

/// The range of an export, which is `IsOfAll`, has every key: bytes within the limit of keys.
pub fn an_export_has_every_key()
    ensures { (key : List ℕ) → AllByRecursion (λ byte. byte < 256) key → length key ≤ MAX_KEY_BYTES → InHalfOpenRange [] (replicate 4097 255) key }
{}
