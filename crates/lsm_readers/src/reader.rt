//! Readers: each reads what is published from a thread of its own, and never anything older than it has seen.

ghost use Rattle.std.specs.Prelude.{◌≡◌, ◌<◌, ◌⊎◌, IfOk, IfErr, length};
ghost use Rattle.std.specs.Option.{option_map};
ghost use mathlib.Core.List.{IsPrefix};
ghost use Rattle.lsm_key.specs.Places.{AreOrdered, all_entries};
ghost use Rattle.lsm_key.specs.Visible.{value_at};
ghost use Rattle.lsm_edit.specs.Reading.{value_in};
ghost use Rattle.lsm_edit.specs.Served.{tables_of};
ghost use Rattle.lsm_readers.specs.Publications.{AreRising, last_published};
ghost use Rattle.lsm_readers.specs.declared.error.ReadError.TheVariants.{NotEntered};

use crate::{LogName, Publication, ReadError, Told, View};
use left_right::ReadHandle;
use lsm_key::VersionNumber;
use std::marker::Model;

/// Reads what is published, in a thread of its own. Contracts see the publications that it has seen or was told.
#[derive(Drop)]
pub struct FollowerReader<J: LogName> {
    handle: ReadHandle<Publication<J>>,
    view: View<J>,
}

impl<J: LogName> Model for FollowerReader<J> {
    ghost use Rattle.std.specs.Prelude.{List};
    ghost use Rattle.lsm_edit.specs.Served.{ServedValue};

    ghost Value = { List ServedValue };

    ghost view = { λ r. r.view };
}

impl<J: LogName> FollowerReader<J> {
    pub(crate) fn new(handle: ReadHandle<Publication<J>>, view: View<J>) -> FollowerReader<J>
        ensures { result ≡ view }
    {
        FollowerReader { handle, view }
    }

    /// Learns what was published: no later answer is from before it.
    pub fn learn(&mut self, told: Told<J>)
        ensures one { (self.new ≡ self.old) ⊎ (self.new ≡ told) }
        ensures own { IsPrefix self.old self.new }
        ensures told { IsPrefix told self.new }
    {
        self.view = self.view.longer(told.view());
    }

    /// The number of the version that it finds, which is no earlier than any that it has seen or was told, and the value that a key
    /// has there. It waits for nobody.
    /// Refuses: `NotEntered` if the writer is gone, or what it reaches is older than what this reader has seen or was told;
    /// `OutOfMemory` if the value can't be copied, which it has seen nevertheless.
    pub fn get(&mut self, key: &[u8]) -> Result<(VersionNumber, Option<Vec<u8>>), ReadError>
        ensures fresh { IsPrefix self.old self.new }
        ensures rising { AreRising self.new }
        ensures number { IfOk result (λ r. r.0 ≡ (last_published self.new).version.number) }
        ensures value { IfOk result (λ r. option_map (λ v. v.items) r.1 ≡ value_in (last_published self.new) key.now) }
        ensures found { AreOrdered (tables_of (last_published self.new).places) → IfOk result (λ r. option_map (λ v. v.items) r.1 ≡ value_at (all_entries (tables_of (last_published self.new).places)) key.now (last_published self.new).version.flushed) }
        ensures entered { IfErr result (λ e. e ≡ NotEntered → self.new ≡ self.old) }
    {
        let Some(guard) = self.handle.enter() else {
            // Proof hint: the view's own numbers rise.
            self.view = self.view.copy();
            return Err(ReadError::NotEntered);
        };
        let publication: &Publication<J> = &*guard;
        self.view = view_at(&self.view, publication)?;
        match publication.read(key) {
            Ok(answer) => Ok(answer),
            Err(_) => Err(ReadError::OutOfMemory),
        }
    }
}

// The view of a reader that has reached a publication. Refuses exactly if that is older than what the reader has seen or was told.
fn view_at<J: LogName>(view: &View<J>, publication: &Publication<J>) -> Result<View<J>, ReadError>
    ensures rising { AreRising view.now }
    ensures ok { IfOk result (λ v. (v ≡ publication.now) × IsPrefix view.now v × AreRising v) }
    ensures behind { IfErr result (λ e. (e ≡ NotEntered) × (length publication.now < length view.now)) }
{
    if publication.view().len() < view.len() {
        return Err(ReadError::NotEntered);
    }
    Ok(view.onward(publication.view()))
}
