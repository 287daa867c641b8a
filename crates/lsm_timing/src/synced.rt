//! Writes to a store in a folder, whose log is synced after every turn of them.

use crate::bench::Bench;
use crate::error::{NO_FOLDER, TimingError, USED_FOLDER};
use crate::figure::Figure;
use crate::fill::opened;
use crate::load::Load;
use lsm_file_vault::{FileVault, HostFolder, LogSync, open_with};
use lsm_store::Store;
use std::fs;

/// The folders, in the one in which the program runs. They stay there.
const ASKED: &str = "lsm_timing.asked";

const GATHERED: &str = "lsm_timing.gathered";

/// A store in a folder.
type FolderStore = Store<FileVault<HostFolder<HostRuntime>>>;

/// Times puts to a store in a new folder, each a write of its own, with a sync behind each `turn` of them: once with the log written put
/// by put, and once gathered.
pub(crate) fn time_synced(bench: Bench, entries: u64, turn: u64) -> Result<(), TimingError> {
    let turns = Load::puts(entries, turn);
    time_log(bench, ASKED, LogSync::Asked, "synced_asked", turns)?;
    time_log(bench, GATHERED, LogSync::Gathered, "synced_gathered", turns)
}

fn time_log(
    bench: Bench,
    folder: &str,
    log_sync: LogSync,
    name: &'static str,
    turns: Load<'_>,
) -> Result<(), TimingError> {
    let mut store = store_in_folder(bench, folder, log_sync)?;
    let timed = time_turns(bench, &mut store, name, turns);
    drop(store.close());
    timed
}

fn time_turns(
    bench: Bench,
    store: &mut FolderStore,
    name: &'static str,
    turns: Load<'_>,
) -> Result<(), TimingError> {
    let figure = Figure::begin(bench, name)?;
    for number in 0..turns.batches() {
        put_turn(bench, store, number, turns)?;
    }
    figure.end(bench, turns.count, store.latest_sequence().number())?;
    Ok(())
}

// The puts of a turn, by its number from 0, and a sync.
fn put_turn(
    bench: Bench,
    store: &mut FolderStore,
    number: u64,
    turns: Load<'_>,
) -> Result<(), TimingError> {
    let first = number.wrapping_mul(turns.batch);
    let end = first.saturating_add(turns.batch).min(turns.count);
    let alone = Load { batch: 1, ..turns };
    for index in first..end {
        let put = alone.batch(bench, index)?;
        store.write(&put)?;
    }
    store.sync()?;
    Ok(())
}

// A store in a new folder.
fn store_in_folder(
    bench: Bench,
    folder: &str,
    log_sync: LogSync,
) -> Result<FolderStore, TimingError> {
    if fs::exists(&bench.rt, folder)? {
        return Err(USED_FOLDER);
    }
    let Ok(found) = open_with(&bench.rt, folder, log_sync) else {
        return Err(NO_FOLDER);
    };
    opened(bench, found.vault)
}
