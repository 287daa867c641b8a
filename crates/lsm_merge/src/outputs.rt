//! The outputs of a merge, made while its entries come.

ghost use Rattle.std.specs.Prelude.{◌≡◌, ℕ, List, [], ◌∷◌, ◌++◌, None, OnOk, IfOk};
ghost use Rattle.lsm_key.specs.declared.entry.Entry.{Entry};
ghost use Rattle.lsm_table.specs.Building.{add_fault};
ghost use Rattle.lsm_table.specs.Tables.{IsTarget};
ghost use Rattle.lsm_merge.specs.Cutting.{IsSplitInto, IsSplitSoFar, MayCome, closes_before, draft_with};

use bytes::Bytes;
use lsm_block::BlockEntry;
use lsm_table::{BuildError, TableBuilder};
use std::alloc::{AllocError, Global};

/// An output is closed before the next key once its entries weigh this much, about as LevelDB's files: few files for a
/// level, and each of them small compared to what a later merge may take. In bytes, as the entries take in a block.
pub const OUTPUT_TARGET: usize = 2_000_000;

/// The outputs so far: the tables that are closed, and the one that takes entries.
#[derive(Drop)]
pub(crate) struct Outputs {
    closed: Vec<Bytes>,
    taking: TableBuilder,
}

impl Outputs {
    /// No entry yet. The blocks of the tables are cut at the target, in bytes.
    pub(crate) fn new(alloc: Global, target: u32) -> Outputs
        requires { IsTarget target }
        ensures { IsSplitSoFar target [] result.closed.items result.taking }
    {
        Outputs {
            closed: Vec::new(alloc),
            taking: TableBuilder::new(alloc, target),
        }
    }

    /// Adds an entry that comes after those before it. After out of memory the outputs are of no use.
    pub(crate) fn add(&mut self, entry: &BlockEntry<'_>) -> Result<(), AllocError>
        requires { (target : ℕ) × (entries : List Entry) × IsSplitSoFar target entries self.old.closed.items self.old.taking × MayCome entries entry.now }
        ensures { (target : ℕ) (entries : List Entry) → IsSplitSoFar target entries self.old.closed.items self.old.taking → MayCome entries entry.now → OnOk result (IsSplitSoFar target (entries ++ entry.now ∷ []) self.new.closed.items self.new.taking) }
    {
        self.make_room(entry)?;
        match self.taking.add_lent(entry) {
            Ok(()) => Ok(()),
            Err(BuildError::OutOfMemory) => Err(AllocError),
            Err(_) => unreachable!(),
        }
    }

    // Closes the output that takes entries if that is due before this one.
    fn make_room(&mut self, entry: &BlockEntry<'_>) -> Result<(), AllocError>
        requires { (target : ℕ) × (entries : List Entry) × IsSplitSoFar target entries self.old.closed.items self.old.taking × MayCome entries entry.now }
        ensures room { OnOk result (add_fault self.new.taking entry.now ≡ None) }
        ensures split { (target : ℕ) (entries : List Entry) → IsSplitSoFar target entries self.old.closed.items self.old.taking → MayCome entries entry.now → OnOk result (IsSplitSoFar target (entries ++ entry.now ∷ []) self.new.closed.items (draft_with self.new.taking entry.now)) }
    {
        if !closes_before(&self.taking, entry) {
            return Ok(());
        }
        match self.taking.take_table() {
            Ok(table) => Ok(self.closed.push(table)?),
            Err(_) => Err(AllocError),
        }
    }

    /// The tables of all entries.
    pub(crate) fn finish(self) -> Result<Vec<Bytes>, AllocError>
        ensures { (target : ℕ) (entries : List Entry) → IsSplitSoFar target entries self.closed.items self.taking → IfOk result (λ outputs. IsSplitInto target entries outputs.items) }
    {
        let mut outputs = self.closed;
        match self.taking.finish() {
            Ok(table) => outputs.push(table)?,
            Err(BuildError::EmptyTable) => {}
            Err(_) => return Err(AllocError),
        }
        Ok(outputs)
    }
}

// Whether the output is closed before the entry: it weighs enough, and its last entry has another key.
fn closes_before(taking: &TableBuilder, entry: &BlockEntry<'_>) -> bool
    ensures { result ≡ closes_before taking.now.entries entry.now }
{
    if taking.weight() < OUTPUT_TARGET {
        return false;
    }
    match taking.last() {
        Some(last) => entry.entry().key != last.key,
        // Never reached: what weighs something has an entry.
        None => true,
    }
}
