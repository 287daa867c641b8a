//! What the jobs of a dispatch have made.

use bytes::Bytes;
use lsm_edit::{Edit, EditKind};
use lsm_versions::edit_of;
use std::alloc::{AllocError, Global};
use std::fmt;

/// What jobs have made whose results were installed: how many they are, of how many files they made how many others, and the length of
/// these in bytes.
#[derive(Clone, Copy)]
pub(crate) struct Made {
    jobs: u64,
    inputs: u64,
    outputs: u64,
    bytes: u64,
}

impl Made {
    /// What the edits have installed.
    pub(crate) fn by_edits(alloc: Global, edits: &[Bytes]) -> Result<Made, AllocError> {
        let mut made = Made {
            jobs: 0,
            inputs: 0,
            outputs: 0,
            bytes: 0,
        };
        for text in edits {
            if let Some(edit) = edit_of(alloc, text)? {
                made.add(&edit);
            }
        }
        Ok(made)
    }

    // Adds what an edit has installed.
    fn add(&mut self, edit: &Edit) {
        if edit.kind != EditKind::Install {
            return;
        }
        let (inputs, outputs) = (edit.removed.as_slice().len(), edit.added.as_slice().len());
        self.jobs = self.jobs.saturating_add(1);
        self.inputs = self.inputs.saturating_add(inputs as u64);
        self.outputs = self.outputs.saturating_add(outputs as u64);
        for file in edit.added.as_slice() {
            self.bytes = self.bytes.saturating_add(u64::from(file.bytes));
        }
    }
}

impl fmt::Display for Made {
    fn fmt<W: fmt::Write>(&self, f: &mut fmt::Formatter<W>) -> fmt::Result {
        let (jobs, inputs, outputs) = (self.jobs, self.inputs, self.outputs);
        let (whole, tenth) = (self.bytes / 1_000_000, self.bytes / 100_000 % 10);
        write!(
            f,
            "{jobs} jobs, {inputs} files -> {outputs}, {whole}.{tenth} MB"
        )
    }
}
