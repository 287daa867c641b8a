//! The writer, which publishes versions to readers, and keeps those for which there is no memory yet.

ghost use Rattle.std.specs.Prelude.{◌≡◌, ◌≢◌, ◌≤◌, ◌⊎◌, ◌++◌, ◌∷◌, [], OnOk, IfErr, length};
ghost use Rattle.std.specs.Option.{option_map};
ghost use Rattle.left_right.specs.Handles.{published, pending};
ghost use Rattle.lsm_readers.specs.Publications.{IsLater, last_published};
ghost use Rattle.lsm_readers.specs.declared.writer.TheConstants.{MAX_PUBLICATIONS};
ghost use Rattle.lsm_readers.specs.declared.error.PublishError.TheVariants.{LogFull, Pending};

use crate::{LogName, Publication, PublicationLog, PublishError, Told, View};
use left_right::{Absorb, WriteHandle};
use lsm_edit::Served;
use std::alloc::Global;
use std::marker::Model;
use std::sync::Wait;

/// How many versions can be published to one log.
const MAX_PUBLICATIONS: u64 = 1 << 62;

/// A value that contracts see as a list of publications.
pub trait Lists {
    ghost use Rattle.std.specs.Prelude.{List};
    ghost use Rattle.lsm_edit.specs.Served.{ServedValue};

    ghost lists: { Self → List ServedValue };
}

impl<J: LogName> Lists for Publication<J> {
    ghost lists = { λ p. p };
}

impl<J: LogName> Lists for View<J> {
    ghost lists = { λ v. v };
}

/// Publishes versions to readers; `Publisher` is the one type of it that is used. Contracts see what is published, and all
/// that it took: what is taken and not published waits for memory.
///
/// Invariant: with what waits, what is published is all that was taken, and the number is that of the version that was taken last.
#[derive(Drop)]
pub struct FollowerWriter<T: Absorb<T> + Lists + Drop, F: Lists + Drop, L: Drop, R: Wait + Drop> {
    alloc: Global,
    handle: WriteHandle<T, T, R>,
    taken: F,
    number: u64,
    waiting: Option<T>,
    log: L,
}

/// What publishes versions to readers of a log.
pub type Publisher<J, R> = FollowerWriter<Publication<J>, View<J>, PublicationLog<J>, R>;

impl<T: Absorb<T> + Lists + Drop, F: Lists + Drop, L: Drop, R: Wait + Drop> Model
    for FollowerWriter<T, F, L, R> {
    ghost use Rattle.std.specs.Prelude.{◌≡◌, map};
    ghost use Rattle.std.specs.Option.{option_map};
    ghost use Rattle.left_right.specs.Handles.{published, pending};
    ghost use Rattle.lsm_readers.specs.Publications.{last_published};
    ghost use Rattle.lsm_readers.specs.Writers.{IsAllTaken, WriterValue};

    ghost Value = { WriterValue };

    ghost view = { λ w. record { published = T.lists (published w.handle); taken = F.lists w.taken } };

    ghost invariant = { λ w. IsAllTaken (T.lists (published w.handle)) (map T.lists (pending w.handle)) (option_map T.lists w.waiting) (F.lists w.taken) × (w.number ≡ (last_published (F.lists w.taken)).version.number) };
}

impl<J: LogName, R: Wait + Drop> FollowerWriter<Publication<J>, View<J>, PublicationLog<J>, R> {
    pub(crate) fn new(
        alloc: Global,
        handle: WriteHandle<Publication<J>, Publication<J>, R>,
        view: View<J>,
        log: PublicationLog<J>,
    ) -> FollowerWriter<Publication<J>, View<J>, PublicationLog<J>, R>
        requires { (published handle ≡ []) × (pending handle ≡ []) × (view ≡ []) }
        ensures { result ≡ record { published = []; taken = [] } }
    {
        FollowerWriter {
            alloc,
            handle,
            taken: view,
            number: 0,
            waiting: None,
            log,
        }
    }

    /// Shows a copy of the version to readers, with all that waits. Waits for those that still read the version before the
    /// last one; no reader waits for it.
    /// Refuses: `LogFull` if the log has no room, `OutOfMemory` if there is no memory for a copy, `Overtaken` if another writer published
    /// to the log; `Pending` if there is no memory to show it, and the next publication that succeeds shows it too.
    #[tactic(auto, using(crate::proofs::Adding::last_push))]
    pub fn publish(&mut self, served: &Served) -> Result<(), PublishError>
        requires { IsLater self.old.taken served.now }
        ensures taken { (self.new.taken ≡ self.old.taken) ⊎ (self.new.taken ≡ self.old.taken ++ served.now ∷ []) }
        ensures ok { OnOk result ((self.new.taken ≡ self.old.taken ++ served.now ∷ []) × (self.new.published ≡ self.new.taken)) }
        ensures not_taken { IfErr result (λ e. e ≢ Pending → self.new ≡ self.old) }
        ensures full { IfErr result (λ e. e ≡ LogFull → MAX_PUBLICATIONS ≤ length self.old.taken) }
        ensures pending { IfErr result (λ e. e ≡ Pending → (self.new.taken ≡ self.old.taken ++ served.now ∷ []) × (self.new.published ≡ self.old.published)) }
    {
        if self.taken.len() >= MAX_PUBLICATIONS {
            return Err(PublishError::LogFull);
        }
        let Ok(copy) = served.copy(self.alloc) else {
            return Err(PublishError::OutOfMemory);
        };
        let mut view = self.taken.copy();
        if !view.add(&self.log, served) {
            return Err(PublishError::Overtaken);
        }
        self.taken = view.copy();
        self.number = served.version().number();
        self.waiting = Some(Publication::new(self.alloc, copy, view));
        self.show_all()
    }

    /// Shows the version to readers, with all that waits, unless they are shown it: it is the last one that was taken, or a later one.
    /// Refuses as `publish` does, with another refusal than `Pending` only if the version is later.
    #[tactic(auto, using(crate::proofs::Adding::last_push))]
    pub fn catch_up(&mut self, served: &Served) -> Result<(), PublishError>
        requires { (last_published self.old.taken ≡ served.now) ⊎ IsLater self.old.taken served.now }
        ensures taken { (self.new.taken ≡ self.old.taken) ⊎ (IsLater self.old.taken served.now × (self.new.taken ≡ self.old.taken ++ served.now ∷ [])) }
        ensures ok { OnOk result ((last_published self.new.taken ≡ served.now) × (self.new.published ≡ self.new.taken)) }
        ensures not_taken { IfErr result (λ e. e ≢ Pending → IsLater self.old.taken served.now × (self.new ≡ self.old)) }
        ensures full { IfErr result (λ e. e ≡ LogFull → MAX_PUBLICATIONS ≤ length self.old.taken) }
        ensures pending { IfErr result (λ e. e ≡ Pending → (last_published self.new.taken ≡ served.now) × (self.new.published ≡ self.old.published)) }
    {
        if served.version().number() > self.number {
            return self.publish(served);
        }
        self.show_all()
    }

    // Shows all that was taken, if readers are not shown it.
    fn show_all(&mut self) -> Result<(), PublishError>
        ensures taken { self.new.taken ≡ self.old.taken }
        ensures ok { OnOk result (self.new.published ≡ self.new.taken) }
        ensures pending { IfErr result (λ e. (e ≡ Pending) × (self.new.published ≡ self.old.published)) }
    {
        if let Some(publication) = self.waiting.take() {
            if let Err(back) = self.handle.append(publication) {
                self.waiting = Some(back);
                return Err(PublishError::Pending);
            }
        }
        match self.handle.flush() {
            Ok(()) => Ok(()),
            Err(_) => Err(PublishError::Pending),
        }
    }

    /// Tells what is published.
    pub fn tell(&self) -> Told<J>
        ensures { result ≡ self.now.published }
    {
        Told::of(self.handle.published().view().copy())
    }
}
