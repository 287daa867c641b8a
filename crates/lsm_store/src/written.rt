//! What was written to tables: the bytes of flushes and of compactions, by all edits of a vault.

ghost use Rattle.std.specs.Prelude.{◌≡◌, IfOk};
ghost use Rattle.lsm_store.specs.Stats.{WroteBytes, added_to, by_flush, by_install, saturated_sum};

use bytes::Bytes;
use lsm_edit::{Edit, EditKind, FileMeta};
use lsm_versions::edit_of;
use std::alloc::{AllocError, Global};

/// How many bytes of tables a store has written since it was new. The sums saturate.
#[derive(Clone, Copy, Debug, PartialEq, Eq)]
pub struct Written {
    /// By flushes.
    pub flushed: u64,
    /// By compactions.
    pub compacted: u64,
}

impl Written {
    /// What the edits of a manifest have written.
    pub fn by_edits(alloc: Global, edits: &[Bytes]) -> Result<Written, AllocError>
        ensures { IfOk result (WroteBytes edits.now) }
    {
        let mut written = Written {
            flushed: 0,
            compacted: 0,
        };
        for text in edits {
            if let Some(edit) = edit_of(alloc, text)? {
                written.add(&edit);
            }
        }
        Ok(written)
    }

    // Adds what one more edit has written.
    fn add(&mut self, edit: &Edit)
        ensures flushed { self.new.flushed ≡ added_to self.old.flushed (by_flush edit.now.kind) edit.now.added }
        ensures compacted { self.new.compacted ≡ added_to self.old.compacted (by_install edit.now.kind) edit.now.added }
    {
        let bytes = bytes_of(edit.added.as_slice());
        match edit.kind {
            EditKind::Flush => self.flushed = self.flushed.saturating_add(bytes),
            EditKind::Install => self.compacted = self.compacted.saturating_add(bytes),
            EditKind::Epoch => {}
        }
    }
}

// The length of the tables of files.
fn bytes_of(files: &[FileMeta]) -> u64
    ensures { result ≡ saturated_sum (λ f. f.bytes) files.now }
{
    let mut total = 0u64;
    for file in files {
        total = total.saturating_add(file.bytes as u64);
    }
    total
}
