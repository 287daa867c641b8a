//! A store in a folder: its filling, its opening, and gets.

use crate::bench::Bench;
use crate::error::{NO_FOLDER, TimingError, USED_FOLDER};
use crate::figure::Figure;
use crate::fill::{opened, time_filling, with_files};
use crate::load::{BATCH, Load};
use crate::reads::{Keys, time_get};
use lsm_file_vault::{FileVault, HostFolder, open};
use lsm_store::Store;
use std::fs;

/// The folder, in the one in which the program runs. It stays there.
const FOLDER: &str = "lsm_timing.store";

/// A store in a folder.
type FolderStore = Store<FileVault<HostFolder<HostRuntime>>>;

/// Times the filling of a store in a new folder, its opening, and gets of random keys that are there.
pub(crate) fn time_durable(bench: Bench, entries: u64, reads: u64) -> Result<(), TimingError> {
    if fs::exists(&bench.rt, FOLDER)? {
        return Err(USED_FOLDER);
    }
    // The folder's lock is let go at its end, so that it can be opened again.
    time_over(bench, true, entries, reads)?;
    time_over(bench, false, entries, reads)
}

// The figures of the store in the folder, if it is new, and else those of its opening and of gets.
fn time_over(bench: Bench, is_new: bool, entries: u64, reads: u64) -> Result<(), TimingError> {
    let opening = Figure::begin(bench, "durable_open")?;
    let mut store = store_in_folder(bench)?;
    let timed = if is_new {
        time_filling(
            bench,
            &mut store,
            "durable_fill",
            Load::puts(entries, BATCH),
        )
    } else {
        time_in(bench, opening, &mut store, entries, reads)
    };
    drop(store.close());
    timed
}

// Ends the figure of the opening, and times the gets.
fn time_in(
    bench: Bench,
    opening: Figure,
    store: &mut FolderStore,
    entries: u64,
    reads: u64,
) -> Result<(), TimingError> {
    opening.end(bench, entries, with_files(0, store))?;
    time_get(bench, store, "durable_get", Keys::Of(entries), reads)
}

// The store in the folder, which is made if there is none.
fn store_in_folder(bench: Bench) -> Result<FolderStore, TimingError> {
    match open(&bench.rt, FOLDER) {
        Ok(found) => opened(bench, found.vault),
        Err(_) => Err(NO_FOLDER),
    }
}
