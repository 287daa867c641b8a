//! The figure `flush`: the flush of a memtable.

use crate::bench::Bench;
use crate::error::TimingError;
use crate::figure::Figure;
use crate::fill::{MemoryStore, bytes_written, write_all};
use crate::load::Load;
use lsm_key::MAX_MEMTABLE_WEIGHT;

/// How many operations a batch has that fills a memtable.
pub(crate) const LARGE_BATCH: u64 = 1_000;

/// Times the flush of a memtable of `entries` entries, or of as many as it takes.
pub(crate) fn time_flush(
    bench: Bench,
    store: &mut MemoryStore,
    entries: u64,
) -> Result<(), TimingError> {
    let load = Load::puts(
        entries.min(bench.shape.count_within(MAX_MEMTABLE_WEIGHT as u64)),
        LARGE_BATCH,
    );
    write_all(bench, store, load)?;
    let figure = Figure::begin(bench, "flush")?;
    store.flush()?;
    let written = bytes_written(store)?;
    figure.end(bench, load.count, written)?;
    Ok(())
}
