//! How far a writer has published, as a value that goes to the thread of a reader, which learns it there.

ghost use Rattle.std.specs.Prelude.{◌≡◌};

use crate::{LogName, View};
use std::marker::Model;

/// What was published when it was told. A reader that learns it never answers from an earlier version. Contracts see the
/// publications.
#[derive(Drop)]
pub struct Told<J: LogName> {
    view: View<J>,
}

impl<J: LogName> Model for Told<J> {
    ghost use Rattle.std.specs.Prelude.{List};
    ghost use Rattle.lsm_edit.specs.Served.{ServedValue};

    ghost Value = { List ServedValue };

    ghost view = { λ t. t.view };
}

impl<J: LogName> Told<J> {
    /// Tells a view.
    pub fn of(view: View<J>) -> Told<J>
        ensures { result ≡ view }
    {
        Told { view }
    }

    /// What was published.
    pub fn view(&self) -> &View<J>
        ensures { result.now ≡ self.now }
    {
        &self.view
    }
}
