//! The log of publications, which every view is a beginning of.

ghost use Rattle.std.specs.Prelude.{◌≡◌, []};
ghost use Rattle.lsm_readers.specs.Rule.{word_of};

use crate::View;
use crate::rule::Rising;
use logbook::{Seen, Start, Word};
use lsm_edit::Served;
use std::marker::{Brand, Model, PhantomData};

/// Which log it is: what has to agree on the log has the name in its type. The caller of a function over any name picks it,
/// for a log that it has opened.
pub trait LogName {
    ghost use Rattle.logbook.specs.Pages.{Book};

    ghost log: { Book };
}

impl LogName for Brand {
    ghost log = { record { number = 0; log_name = 0; cells_name = 0 } };
}

/// A log without publications, which has no name yet. Contracts see it as which log it is.
///
/// Invariant: nothing is published in it, and its head is the log's own word.
#[derive(Drop)]
pub struct NewLog {
    head: Word<Served, u64, Rising>,
    seen: Seen<Served, u64, Rising>,
}

impl Model for NewLog {
    ghost use Rattle.std.specs.Prelude.{◌≡◌, []};
    ghost use Rattle.logbook.specs.Pages.{Book};
    ghost use Rattle.lsm_readers.specs.Rule.{word_of};

    ghost Value = { Book };

    ghost view = { λ n. n.seen.book };

    ghost invariant = { λ n. (n.seen.log ≡ []) × (n.head ≡ word_of n.seen.book) };
}

impl NewLog {
    /// Opens a log.
    pub fn new() -> NewLog {
        let (seen, mut first, _second) = Seen::open(Start::alone(), 0, 0);
        let head = Word::tracked(0, &mut first);
        NewLog { head, seen }
    }

    /// The log under a name, and the view that has seen nothing of it.
    pub fn named<J: LogName>(self) -> (PublicationLog<J>, View<J>)
        requires { self ≡ J.log }
        ensures { result.1 ≡ [] }
    {
        let NewLog { head, seen } = self;
        let log = PublicationLog {
            head,
            name: PhantomData,
        };
        (log, View::first(seen))
    }
}

/// What all holders of views share: the length of the list of publications.
///
/// Invariant: its head is the first word of the log that `J` names.
#[derive(Drop)]
pub struct PublicationLog<J: LogName> {
    pub(crate) head: Word<Served, u64, Rising>,
    name: PhantomData<J>,
    ghost head_is: { head ≡ word_of J.log },
}
