//! How long the longest write of a fill is.

use crate::bench::Bench;
use crate::error::TimingError;
use crate::figure::tell;
use crate::fill::{MemoryStore, settle, shape_of};
use crate::load::Load;
use lsm_key::Batch;
use std::time::Duration;

/// Prints how long the longest write of a fill takes, with the flush and the compactions in it.
pub(crate) fn time_pauses(
    bench: Bench,
    store: &mut MemoryStore,
    entries: u64,
    batch: u64,
) -> Result<(), TimingError> {
    let load = Load::puts(entries, batch);
    let mut longest = Duration::ZERO;
    for number in 0..load.batches() {
        let batch = load.batch(bench, number)?;
        longest = longest.max(write_timed(bench, store, &batch)?);
    }
    settle(store)?;
    let checksum = shape_of(store)?;
    tell(bench, "longest_write", 1, checksum, longest.as_nanos())?;
    Ok(())
}

// Writes a batch, and returns how long it took.
fn write_timed(
    bench: Bench,
    store: &mut MemoryStore,
    batch: &Batch,
) -> Result<Duration, TimingError> {
    let start = bench.now()?;
    store.write(batch)?;
    let end = bench.now()?;
    Ok(end.saturating_sub(start))
}
