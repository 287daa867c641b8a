//! Filling a store, with all its flushes and compactions in the caller's own thread.

use crate::bench::Bench;
use crate::error::{NO_STORE, TimingError};
use crate::figure::{Figure, with_number};
use crate::keys::or_one;
use crate::load::{BATCH, Load};
use lsm_key::MAX_LEVEL;
use lsm_store::{Options, Store};
use lsm_vault::{MemoryVault, Vault};
use std::io;

/// A store in memory.
pub(crate) type MemoryStore = Store<MemoryVault>;

/// The store that a vault has.
pub(crate) fn opened<V: Vault + Drop>(bench: Bench, vault: V) -> Result<Store<V>, TimingError> {
    let options = Options {
        limits: bench.limits,
    };
    match Store::open(bench.alloc(), vault, options) {
        Ok(store) => Ok(store),
        Err(_) => Err(NO_STORE),
    }
}

/// Flushes, and compacts until no level needs it.
pub(crate) fn settle<V: Vault>(store: &mut Store<V>) -> Result<(), TimingError> {
    store.flush()?;
    store.compact(u64::MAX)?;
    Ok(())
}

/// Writes a load, batch by batch.
pub(crate) fn write_all<V: Vault>(
    bench: Bench,
    store: &mut Store<V>,
    load: Load<'_>,
) -> Result<(), TimingError> {
    for number in 0..load.batches() {
        let batch = load.batch(bench, number)?;
        store.write(&batch)?;
    }
    Ok(())
}

/// Puts entries in random order in batches, until no level is due.
pub(crate) fn fill(bench: Bench, store: &mut MemoryStore, entries: u64) -> Result<(), TimingError> {
    write_all(bench, store, Load::puts(entries, BATCH))?;
    settle(store)
}

/// Times the filling of a store, and the making of its batches alone, and prints its write amplification and its
/// levels.
pub(crate) fn time_fill(
    bench: Bench,
    store: &mut MemoryStore,
    entries: u64,
    batch: u64,
) -> Result<(), TimingError> {
    let load = Load::puts(entries, batch);
    time_making(bench, load)?;
    time_filling(bench, store, "fill", load)?;
    tell_sizes(bench, entries, store)
}

// Makes the same batches, and drops them: the part of a fill that is not the store's.
fn time_making(bench: Bench, load: Load<'_>) -> Result<(), TimingError> {
    let figure = Figure::begin(bench, "make")?;
    let mut checksum = 0;
    for number in 0..load.batches() {
        let batch = load.batch(bench, number)?;
        checksum = with_number(checksum, batch.weight() as u64);
    }
    figure.end(bench, load.count, checksum)?;
    Ok(())
}

/// Times how a load is written, until no level is due, as a figure of this name.
pub(crate) fn time_filling<V: Vault>(
    bench: Bench,
    store: &mut Store<V>,
    name: &'static str,
    load: Load<'_>,
) -> Result<(), TimingError> {
    let figure = Figure::begin(bench, name)?;
    write_all(bench, store, load)?;
    settle(store)?;
    let checksum = shape_of(store)?;
    figure.end(bench, load.count, checksum)?;
    Ok(())
}

fn tell_sizes(bench: Bench, entries: u64, store: &mut MemoryStore) -> Result<(), TimingError> {
    let put = entries.wrapping_mul(bench.shape.entry_bytes());
    let percent = bytes_written(store)?.wrapping_mul(100) / or_one(put);
    eprintln!(bench.rt; "write_amplification_percent {entries} {percent}")?;
    for level in 0..=MAX_LEVEL {
        tell_level(bench, level, entries, store.level_stats(level).bytes)?;
    }
    Ok(())
}

fn tell_level(bench: Bench, level: u8, entries: u64, bytes: u64) -> io::Result<()> {
    eprintln!(bench.rt; "bytes_in_level_{level} {entries} {bytes}")
}

/// How many bytes of tables a store wrote.
pub(crate) fn bytes_written<V: Vault>(store: &mut Store<V>) -> Result<u64, TimingError> {
    let written = store.written()?;
    Ok(written.flushed.saturating_add(written.compacted))
}

/// A checksum of what a store wrote and of the files that it has.
pub(crate) fn shape_of<V: Vault>(store: &mut Store<V>) -> Result<u64, TimingError> {
    let written = bytes_written(store)?;
    Ok(with_files(written, store))
}

/// A checksum with the files of a store in it.
pub(crate) fn with_files<V: Vault>(checksum: u64, store: &Store<V>) -> u64 {
    let mut sum = checksum;
    for file in store.show().files {
        sum = with_number(sum, file.number);
        sum = with_number(sum, file.bytes as u64);
    }
    sum
}
