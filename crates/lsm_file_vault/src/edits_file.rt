//! The file of the edits: a frame for each. That of the log is read as one too: its records stand where edits do.

ghost use Rattle.std.specs.Prelude.{◌≡◌, Err, IfOk, drop, length};
ghost use Rattle.lsm_key.specs.declared.refused.Refused.TheVariants.{Fault};
ghost use Rattle.lsm_file_vault.specs.EditsFile.{IsDamagedAt, IsEditsFile};

use crate::frame::{is_torn, read_frames};
use bytes::Bytes;
use lsm_key::Refused;
use std::alloc::Global;

/// What the file of the edits holds.
#[derive(Drop)]
pub(crate) struct EditsFile {
    /// The edits, in the order in which they were appended.
    pub edits: Vec<Bytes>,
    /// How many bytes they take, with their frames.
    pub edits_bytes: u64,
    /// What is behind them: what a stop may leave of appends that were not synced.
    pub torn: Bytes,
}

/// Reads the edits in the bytes of their file. What can't be left by a stop is a fault: the offset at which it begins.
pub(crate) fn read_edits(alloc: Global, file: Bytes) -> Result<EditsFile, Refused<u64>>
    ensures ok { IfOk result (λ found. IsEditsFile file found.edits.items found.edits_bytes (length found.torn)) }
    ensures torn { IfOk result (λ found. found.torn ≡ drop found.edits_bytes file) }
    ensures fault { (offset : _) → result ≡ Err (Fault offset) → IsDamagedAt file offset }
{
    let len = file.len();
    let (edits, rest) = read_frames(alloc, file)?;
    let edits_bytes = (len - rest.len()) as u64;
    if is_torn(rest.as_slice()) {
        Ok(EditsFile {
            edits,
            edits_bytes,
            torn: rest,
        })
    } else {
        Err(Refused::Fault(edits_bytes))
    }
}
