//! A published version: what a writer hands to its readers, with the list of all publications up to it.

ghost use Rattle.std.specs.Prelude.{◌≡◌, IfOk};
ghost use Rattle.std.specs.Option.{option_map};
ghost use Rattle.lsm_key.specs.Places.{AreOrdered, all_entries};
ghost use Rattle.lsm_key.specs.Visible.{value_at};
ghost use Rattle.lsm_edit.specs.Reading.{value_in};
ghost use Rattle.lsm_edit.specs.Served.{tables_of};
ghost use Rattle.lsm_readers.specs.Publications.{last_published};

use crate::{LogName, View};
use left_right::Absorb;
use lsm_edit::Served;
use lsm_key::VersionNumber;
use std::alloc::{AllocError, Global};
use std::marker::Model;

/// A version with its tables, and the list of publications that it ends. Contracts see the list.
///
/// Invariant: the version is the last one of the list, or version 0 if it is empty.
#[derive(Drop)]
pub struct Publication<J: LogName> {
    alloc: Global,
    served: Served,
    view: View<J>,
}

impl<J: LogName> Model for Publication<J> {
    ghost use Rattle.std.specs.Prelude.{◌≡◌, List};
    ghost use Rattle.lsm_edit.specs.Served.{ServedValue};
    ghost use Rattle.lsm_readers.specs.Publications.{last_published};

    ghost Value = { List ServedValue };

    ghost view = { λ p. p.view };

    ghost invariant = { λ p. p.served ≡ last_published p.view };
}

impl<J: LogName> Publication<J> {
    /// The version that ends a list.
    pub fn new(alloc: Global, served: Served, view: View<J>) -> Publication<J>
        requires { served ≡ last_published view }
        ensures { result ≡ view }
    {
        Publication {
            alloc,
            served,
            view,
        }
    }

    /// The list that it ends.
    pub fn view(&self) -> &View<J>
        ensures { result.now ≡ self.now }
    {
        &self.view
    }

    /// The same publication, whose tables share their bytes and entries.
    pub fn copy(&self) -> Result<Publication<J>, AllocError>
        ensures { IfOk result (λ copy. copy ≡ self.now) }
    {
        let served = self.served.copy(self.alloc)?;
        Ok(Publication {
            alloc: self.alloc,
            served,
            view: self.view.copy(),
        })
    }

    /// The version's number, and a copy of the value that a key has there.
    pub fn read(&self, key: &[u8]) -> Result<(VersionNumber, Option<Vec<u8>>), AllocError>
        ensures number { IfOk result (λ r. r.0 ≡ (last_published self.now).version.number) }
        ensures value { IfOk result (λ r. option_map (λ v. v.items) r.1 ≡ value_in (last_published self.now) key.now) }
        ensures found { AreOrdered (tables_of (last_published self.now).places) → IfOk result (λ r. option_map (λ v. v.items) r.1 ≡ value_at (all_entries (tables_of (last_published self.now).places)) key.now (last_published self.now).version.flushed) }
    {
        let number = VersionNumber::new(self.served.version().number());
        let Some(value) = self.served.read(key) else {
            return Ok((number, None));
        };
        let value = value.to_vec(self.alloc)?;
        Ok((number, Some(value)))
    }
}

impl<J: LogName> Absorb<Publication<J>> for Publication<J> {
    type State = Publication<J>;

    ghost state = { λ s. s };

    ghost applied = { λ s o. o };

    fn absorb_first(
        &mut self,
        operation: &Publication<J>,
        _other: &Publication<J>,
    ) -> Result<(), AllocError> {
        *self = operation.copy()?;
        Ok(())
    }

    fn absorb_second(
        &mut self,
        operation: Publication<J>,
        _other: &Publication<J>,
    ) -> Result<(), Publication<J>> {
        *self = operation;
        Ok(())
    }
}
