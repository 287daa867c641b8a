//! The merge of a job: it tests the tables, and fills the outputs from a walk over their entries.

ghost use Rattle.std.specs.Prelude.{◌≡◌, ℕ, ◌≤◌, List, [], None, IfOk, IfErr, OnOk, length};
ghost use Rattle.lsm_key.specs.declared.limits.TheConstants.{MAX_POINTS};
ghost use Rattle.lsm_edit.specs.Served.{AreAsRecorded};
ghost use Rattle.lsm_merge.specs.Inputs.{CanMerge, IsRefused};
ghost use Rattle.lsm_merge.specs.Comparing.{IsUnmerged};
ghost use Rattle.lsm_merge.specs.Cutting.{IsSplitSoFar};
ghost use Rattle.lsm_merge.specs.Filling.{IsFilled, StopsFilling};
ghost use Rattle.lsm_merge.specs.Outputs.{IsMerge};

use crate::error::MergeError;
use crate::inputs::{are_as_recorded, cursors_of, have_same_entry};
use crate::outputs::Outputs;
use crate::walk::Walk;
use bytes::Bytes;
use lsm_msg::Job;
use lsm_table::Table;
use std::alloc::Global;

/// Merges the tables of a job, one for each of its inputs and in their order, into the bytes of the tables that take
/// their place: the entries that some read still needs, in order. An output is closed, before the next key, once its
/// entries weigh `OUTPUT_TARGET`; if nothing is kept there is no output.
pub fn merge(alloc: Global, tables: &[Table], job: &Job) -> Result<Vec<Bytes>, MergeError>
    ensures ok { IfOk result (λ outputs. CanMerge tables.now job.now × IsMerge tables.now job.now outputs.items) }
    ensures refused { IfErr result (IsRefused tables.now job.now) }
{
    if !are_as_recorded(job.inputs(), tables) {
        return Err(MergeError::WrongInputs);
    }
    match outputs_of(alloc, tables, job) {
        // Each entry is looked up in the later tables instead, which allocates nothing but takes more time.
        Err(MergeError::OutOfMemory) if have_same_entry(tables) => Err(MergeError::SameEntry),
        outcome => outcome,
    }
}

// The same of tables that are the job's. If memory runs out, tables may share an entry all the same.
fn outputs_of(alloc: Global, tables: &[Table], job: &Job) -> Result<Vec<Bytes>, MergeError>
    requires { AreAsRecorded job.now.inputs tables.now }
    ensures ok { IfOk result (λ outputs. CanMerge tables.now job.now × IsMerge tables.now job.now outputs.items) }
    ensures refused { IfErr result (IsUnmerged tables.now) }
{
    let cursors = cursors_of(alloc, tables)?;
    let mut walk = Walk::new(alloc, cursors, job)?;
    let mut outputs = Outputs::new(alloc, job.block());
    fill(&mut walk, &mut outputs)?;
    Ok(outputs.finish()?)
}

// Adds all that a walk keeps to the outputs.
fn fill(walk: &mut Walk<'_>, outputs: &mut Outputs) -> Result<(), MergeError>
    requires begins { (walk.old.before ≡ None) × (walk.old.refused ≡ None) }
    requires few { length walk.old.points ≤ MAX_POINTS }
    requires empty { (target : ℕ) × IsSplitSoFar target [] outputs.old.closed.items outputs.old.taking }
    ensures ok { (target : ℕ) → IsSplitSoFar target [] outputs.old.closed.items outputs.old.taking → OnOk result (IsFilled walk.old target outputs.new.closed.items outputs.new.taking) }
    ensures refused { IfErr result (StopsFilling walk.old) }
{
    while let Some(entry) = walk.step()? {
        // Proof hint: the entry is sound.
        let _bytes = entry.bytes();
        outputs.add(&entry)?;
    }
    Ok(())
}
