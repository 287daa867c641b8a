//! Picks from a version of many files.

use crate::bench::Bench;
use crate::error::{NO_PICK, TimingError};
use crate::figure::{Figure, with_number};
use crate::load::Load;
use lsm_claim::ClaimBook;
use lsm_coord::Coord;
use lsm_edit::Served;
use lsm_key::{DEFAULT_BLOCK, Limits, MAX_BASE};
use lsm_pick::pick;
use lsm_store::compact_once;
use lsm_vault::MemoryVault;
use std::alloc::Global;

/// How many picks are timed.
const PICKS: u64 = 20;

/// A file of level 0 is due, and level 1 is not.
pub(crate) const LOOSE: Limits = Limits {
    l0: 1,
    base: MAX_BASE,
    block: DEFAULT_BLOCK,
};

/// Level 1 is due above one byte.
const TIGHT: Limits = Limits {
    l0: 1,
    base: 1,
    block: DEFAULT_BLOCK,
};

/// Times picks from a version with `files` files of one entry each in level 1, which needs compaction, with no job running. The coordinator
/// has loose limits, so that each file goes down alone once it is flushed, and stays there.
pub(crate) fn time_picks(
    bench: Bench,
    coord: &mut Coord<MemoryVault>,
    files: u64,
) -> Result<(), TimingError> {
    let load = Load::puts(files, 1);
    for number in 0..files {
        let batch = load.batch(bench, number)?;
        coord.write(&batch)?;
        coord.flush()?;
        move_down(bench, coord)?;
    }
    let figure = Figure::begin(bench, "pick")?;
    let checksum = picked(bench.alloc(), coord.served())?;
    figure.end(bench, PICKS, checksum)?;
    Ok(())
}

// Runs the compaction that is due, and lets the tables go that it replaced.
fn move_down(bench: Bench, coord: &mut Coord<MemoryVault>) -> Result<(), TimingError> {
    if let Some((number, _files)) = compact_once(bench.alloc(), coord)? {
        coord.trim(number)?;
    }
    Ok(())
}

// A checksum of what is picked each time.
fn picked(alloc: Global, served: &Served) -> Result<u64, TimingError> {
    let book = ClaimBook::new(alloc, 1);
    let mut checksum = 0;
    for _pick in 0..PICKS {
        let Ok(Some(want)) = pick(alloc, served, &book, &TIGHT) else {
            return Err(NO_PICK);
        };
        for number in want.files.as_slice() {
            checksum = with_number(checksum, *number);
        }
    }
    Ok(checksum)
}
