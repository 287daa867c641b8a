//! Recent edits: the encodings of a manifest's edits from the floor on.

ghost use Rattle.std.specs.Prelude.{◌≡◌, ◌+◌, ◌-◌, ◌≤◌, ◌++◌, ◌∷◌, [], drop, length, vec_capacity};

use bytes::Bytes;
use lsm_key::VersionNumber;

/// How many edits stand before the one that makes the version at a floor.
pub(crate) fn edits_below(floor: VersionNumber) -> usize
    ensures { result ≡ floor - 1 }
{
    floor.number().saturating_sub(1) as usize
}

/// Lets the edits below a higher floor go.
pub(crate) fn let_go(recent: &mut Vec<Bytes>, floor: VersionNumber, higher: VersionNumber)
    requires rises { floor ≤ higher }
    requires within { higher - 1 ≤ floor - 1 + length recent.old.items }
    ensures { recent.new.items ≡ drop ((higher - 1) - (floor - 1)) recent.old.items }
{
    recent.drain(..edits_below(higher) - edits_below(floor));
}

/// Adds an edit to others, which have room for it.
pub(crate) fn push_recent(recent: &mut Vec<Bytes>, edit: Bytes)
    requires { length recent.old.items + 1 ≤ vec_capacity recent.old }
    ensures { recent.new.items ≡ recent.old.items ++ edit ∷ [] }
{
    recent.push(edit).unwrap();
}
