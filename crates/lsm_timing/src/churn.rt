//! The figures of a churn: overwrites and deletions, and a scan of what they leave.

use crate::bench::Bench;
use crate::error::TimingError;
use crate::fill::{MemoryStore, time_filling};
use crate::keys::or_one;
use crate::load::{BATCH, Load, Ops};
use crate::reads::time_whole;

/// How many operations there are to a key.
const OPERATIONS_TO_A_KEY: u64 = 4;

/// Times operations on a quarter as many random keys, one in eight a deletion, and then a scan of what is left.
pub(crate) fn time_churn(
    bench: Bench,
    store: &mut MemoryStore,
    operations: u64,
) -> Result<(), TimingError> {
    let load = Load {
        ops: Ops::Churn(or_one(operations / OPERATIONS_TO_A_KEY)),
        count: operations,
        batch: BATCH,
    };
    time_filling(bench, store, "churn", load)?;
    time_whole(bench, store, "churn_scan")
}
