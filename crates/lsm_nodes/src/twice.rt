//! Values twice: for a history and for a tally.

use std::marker::Model;

/// A value and its copy, one for the history and one for the caller's tally.
///
/// Invariant: both are the same value.
#[derive(Drop)]
pub(crate) struct Twice<T> {
    one: T,
    other: T,
}

impl<T> Model for Twice<T> {
    ghost use Rattle.std.specs.Prelude.{◌≡◌};

    ghost Value = { T };

    ghost view = { λ t. t.one };

    ghost invariant = { λ t. t.other ≡ t.one };
}

impl<T> Twice<T> {
    ghost use Rattle.std.specs.Prelude.{◌≡◌};

    pub(crate) fn new(one: T, other: T) -> Twice<T>
        requires { other ≡ one }
        ensures { result ≡ one }
    {
        Twice { one, other }
    }

    /// The two.
    pub(crate) fn split(self) -> (T, T)
        ensures one { result.0 ≡ self }
        ensures other { result.1 ≡ self }
    {
        (self.one, self.other)
    }
}
