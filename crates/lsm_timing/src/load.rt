//! What a fill writes: operations in batches.

use crate::bench::Bench;
use crate::error::TimingError;
use crate::keys::{or_one, random_below};
use lsm_key::Batch;

/// How many operations a batch has if the command does not say it.
pub(crate) const BATCH: u64 = 100;

/// One operation of a churn in this many is a deletion.
const DELETION_EVERY: u64 = 8;

/// Which operations are written, each by its number from 0.
#[derive(Clone, Copy)]
pub(crate) enum Ops<'a> {
    /// The put of the index that is its number.
    Put,
    /// The put of the index at its place in a list.
    Listed(&'a [u64]),
    /// A put with a value of its own of one of this many keys, at random, or one time in eight its deletion.
    Churn(u64),
}

/// Operations in batches.
#[derive(Clone, Copy)]
pub(crate) struct Load<'a> {
    pub(crate) ops: Ops<'a>,
    /// How many operations there are.
    pub(crate) count: u64,
    /// How many operations a batch has, but for the last one.
    pub(crate) batch: u64,
}

impl<'a> Load<'a> {
    /// The puts of the indices from 0 on.
    pub(crate) fn puts(count: u64, batch: u64) -> Load<'a> {
        Load {
            ops: Ops::Put,
            count,
            batch,
        }
    }

    /// How many batches there are.
    pub(crate) fn batches(self) -> u64 {
        self.count.div_ceil(or_one(self.batch))
    }

    /// A batch, by its number from 0.
    pub(crate) fn batch(self, bench: Bench, number: u64) -> Result<Batch, TimingError> {
        let first = number.wrapping_mul(self.batch);
        let end = first.saturating_add(self.batch).min(self.count);
        let mut batch = Batch::new(bench.alloc());
        for operation in first..end {
            let (index, value) = self.written_by(operation);
            batch.push(bench.shape.op(bench.alloc(), index, value)?)?;
        }
        Ok(batch)
    }

    // The index of the key that an operation writes, and that of its value unless it is a deletion.
    fn written_by(self, operation: u64) -> (u64, Option<u64>) {
        match self.ops {
            Ops::Put => (operation, Some(operation)),
            Ops::Listed(indices) => {
                let index = indices.get(operation as usize).copied().unwrap_or(0);
                (index, Some(index))
            }
            Ops::Churn(keys) => {
                let is_deletion = operation % DELETION_EVERY == DELETION_EVERY - 1;
                let value = if is_deletion { None } else { Some(operation) };
                (random_below(keys, operation), value)
            }
        }
    }
}
