//! What the calls on a folder leave, as only clauses read it.

ghost use Rattle.std.specs.Prelude.{◌≡◌, ℕ, List};
ghost use Rattle.lsm_vault.specs.Stored.{TableMap, table_map_code};

use crate::{Change, Contents};
use std::marker::{Model, PhantomData};

/// The tables, the edits and the log of a folder. It has no bytes and owns nothing: it says what the code that notes changes says.
#[derive(Drop)]
pub struct Notes {
    marker: PhantomData<u8>,
    pub ghost tables: { TableMap } by { table_map_code },
    pub ghost edits: { List (List ℕ) },
    pub ghost log: { List (List ℕ) },
}

impl Model for Notes {
    ghost use Rattle.std.specs.Borrow.{ftrue};

    ghost also_owns = { λ _. ftrue };
}

impl Notes {
    ghost use Rattle.lsm_file_vault.specs.Changes.{tables_after, edits_after, log_after};

    /// What was found in the folder.
    pub(crate) fn of(contents: &Contents) -> Notes
        ensures { (result.tables ≡ contents.now.tables) × (result.edits ≡ contents.now.edits.items) × (result.log ≡ contents.now.log.items) }
    {
        let _ = contents;
        Notes {
            marker: PhantomData,
        }
    }

    /// What a change of it leaves.
    pub(crate) fn after(&self, change: &Change) -> Notes
        ensures { (result.tables ≡ tables_after change.now self.now.tables) × (result.edits ≡ edits_after change.now self.now.edits) × (result.log ≡ log_after change.now self.now.log) }
    {
        let _ = change;
        Notes {
            marker: PhantomData,
        }
    }
}
