//! Gets and scans of a settled store.

use crate::bench::Bench;
use crate::error::TimingError;
use crate::figure::{Figure, with_bytes, with_number};
use crate::fill::{MemoryStore, fill};
use crate::keys::random_below;
use bytes::Bytes;
use lsm_store::Store;
use lsm_vault::Vault;
use std::alloc::{AllocError, Global};

/// How many keys a scan of the whole store asks for at a time.
const WINDOW: u64 = 4_096;

/// How many keys a short scan gives.
const SHORT: u64 = 20;

/// After every key.
const END: [u8; 17] = [255; 17];

/// Which keys are got.
#[derive(Clone, Copy)]
pub(crate) enum Keys {
    /// Random ones of the first so many.
    Of(u64),
    /// Those from this one on, none of which is there.
    From(u64),
}

/// Fills a store, and times gets of random keys that are there, and of keys that are not.
pub(crate) fn time_gets(
    bench: Bench,
    store: &mut MemoryStore,
    entries: u64,
    reads: u64,
) -> Result<(), TimingError> {
    fill(bench, store, entries)?;
    time_get(bench, store, "get", Keys::Of(entries), reads)?;
    time_get(bench, store, "get_absent", Keys::From(entries), reads)
}

/// Times gets as a figure of this name.
pub(crate) fn time_get<V: Vault>(
    bench: Bench,
    store: &mut Store<V>,
    name: &'static str,
    keys: Keys,
    reads: u64,
) -> Result<(), TimingError> {
    let figure = Figure::begin(bench, name)?;
    let mut checksum = 0;
    for read in 0..reads {
        let index = match keys {
            Keys::Of(entries) => random_below(entries, read),
            Keys::From(first) => first.wrapping_add(read),
        };
        checksum = get(bench, store, index, checksum)?;
    }
    figure.end(bench, reads, checksum)?;
    Ok(())
}

// Gets the key of an index, and returns the checksum with the answer in it.
fn get<V: Vault>(
    bench: Bench,
    store: &mut Store<V>,
    index: u64,
    checksum: u64,
) -> Result<u64, TimingError> {
    let key = bench.shape.key(index);
    match store.get(key.as_slice(), None)? {
        Some(value) => Ok(with_bytes(checksum, &value)),
        None => Ok(with_number(checksum, 1)),
    }
}

/// Fills a store, and times one scan of it whole, or a number of short ones if there is one.
pub(crate) fn time_scans(
    bench: Bench,
    store: &mut MemoryStore,
    entries: u64,
    scans: u64,
) -> Result<(), TimingError> {
    fill(bench, store, entries)?;
    if scans == 0 {
        time_whole(bench, store, "scan")
    } else {
        time_short(bench, store, entries, scans)
    }
}

/// Times one scan of the whole store, window after window, as a figure of this name.
pub(crate) fn time_whole(
    bench: Bench,
    store: &MemoryStore,
    name: &'static str,
) -> Result<(), TimingError> {
    let figure = Figure::begin(bench, name)?;
    let (count, checksum) = scan_whole(bench.alloc(), store)?;
    figure.end(bench, count, checksum)?;
    Ok(())
}

fn time_short(
    bench: Bench,
    store: &MemoryStore,
    entries: u64,
    scans: u64,
) -> Result<(), TimingError> {
    let figure = Figure::begin(bench, "scan_short")?;
    let mut checksum = 0;
    for scan in 0..scans {
        let from = bench.shape.key(random_below(entries, scan));
        let pairs = store.scan(from.as_slice(), &END, None, SHORT)?;
        checksum = with_pairs(checksum, &pairs);
    }
    figure.end(bench, scans, checksum)?;
    Ok(())
}

// All pairs, window after window: how many there are, and their checksum.
fn scan_whole(alloc: Global, store: &MemoryStore) -> Result<(u64, u64), TimingError> {
    let (mut count, mut checksum) = (0u64, 0);
    let mut from = Vec::new(alloc);
    for _window in 0..u64::MAX {
        let pairs = store.scan(&from, &END, None, WINDOW)?;
        let Some((last, _)) = pairs.last() else {
            break;
        };
        from = key_after(alloc, last)?;
        count = count.wrapping_add(pairs.len() as u64);
        checksum = with_pairs(checksum, &pairs);
    }
    Ok((count, checksum))
}

// The least key after a key.
fn key_after(alloc: Global, key: &[u8]) -> Result<Vec<u8>, AllocError> {
    let mut after = key.to_vec(alloc)?;
    after.push(0)?;
    Ok(after)
}

fn with_pairs(checksum: u64, pairs: &[(Bytes, Bytes)]) -> u64 {
    let mut sum = checksum;
    for (key, value) in pairs {
        sum = with_bytes(with_bytes(sum, key), value);
    }
    sum
}
