//! The command `stats`: the line of the sequences, of what each level has, and of what was written to tables.

use super::lines::write_refused;
use lsm_key::ALL_LEVELS;
use lsm_line::{write_number, write_text};
use lsm_store::{LevelStats, Store, Written};
use lsm_vault::Vault;
use std::alloc::AllocError;
use std::io::Write;

/// `stats last L flushed F`, for each level that has files ` L0 N files B bytes E entries`, with ` due` behind it if it needs
/// compaction, and what was written to tables, as `write_written` has it; or why the vault's edits are not read.
pub(crate) fn stats<V: Vault>(store: &mut Store<V>, out: &mut Vec<u8>) -> Result<(), AllocError> {
    match store.written() {
        Err(why) => write_refused(out, why),
        Ok(written) => write_stats(store, out, written),
    }
}

/// The same, of a store that has written this, without the end of a line.
pub(crate) fn write_stats<V: Vault>(
    store: &Store<V>,
    out: &mut Vec<u8>,
    written: Written,
) -> Result<(), AllocError> {
    write_levels(out, store)?;
    write_written(out, written)
}

// The sequences and the levels.
fn write_levels<V: Vault>(out: &mut Vec<u8>, store: &Store<V>) -> Result<(), AllocError> {
    write_text(out, "stats last ")?;
    write_number(out, store.latest_sequence().number())?;
    write_text(out, " flushed ")?;
    write_number(out, store.flushed_sequence().number())?;
    for level in &ALL_LEVELS {
        write_level_stats(out, *level, store.level_stats(*level))?;
        if store.is_due(*level) {
            write_text(out, " due")?;
        }
    }
    Ok(())
}

// ` L0 N files B bytes E entries`, or nothing for a level without files
fn write_level_stats(out: &mut Vec<u8>, level: u8, stats: LevelStats) -> Result<(), AllocError> {
    if stats.files == 0 {
        return Ok(());
    }
    write!(out, " L{level} {stats}").map_err(|_| AllocError)
}

// ` flushes B bytes compactions B bytes amplification A.AA`: the last is the bytes of both for each byte of a flush, and comes only
// after a flush
fn write_written(out: &mut Vec<u8>, written: Written) -> Result<(), AllocError> {
    write_text(out, " flushes ")?;
    write_number(out, written.flushed)?;
    write_text(out, " bytes compactions ")?;
    write_number(out, written.compacted)?;
    write_text(out, " bytes")?;
    if written.flushed == 0 {
        return Ok(());
    }
    let flushed = u128::from(written.flushed);
    let hundredths = (flushed + u128::from(written.compacted)) * 100 / flushed;
    let (whole, part) = (hundredths / 100, hundredths % 100);
    match write!(out, " amplification {whole}.{part:02}") {
        Ok(()) => Ok(()),
        Err(_) => Err(AllocError),
    }
}
