//! What frames keep. The functions do nothing: each is the proof of its contract.

ghost use Rattle.std.specs.Prelude.{◌≡◌, ℕ, ◌<◌, ◌^◌, true, List, ◌++◌, length, replicate, slice_index, take, Ok};
ghost use Rattle.lsm_file_vault.specs.EditsFile.{AllFit, IsEditsFile};
ghost use Rattle.lsm_file_vault.specs.Frames.{frame, frame_at, frames, is_torn};

use crate::frame::checksum_of;

/// What was written as a frame is read as one, whatever stands behind it.
pub fn a_written_frame_is_read(bytes: &[u8], rest: &[u8])
    requires { length bytes.now < 2 ^ 32 }
    ensures { frame_at (frame bytes.now ++ rest.now) ≡ Ok (bytes.now, rest.now) }
{
    // Proof hint: a checksum is below 2^64.
    let _checksum = checksum_of(bytes);
    let _rest = rest;
}

/// What a stop in the middle of an append leaves of a frame, a beginning of it, is torn.
pub fn a_frame_cut_short_is_torn()
    ensures { (bytes : List ℕ) (k : ℕ) → length bytes < 2 ^ 32 → k < length (frame bytes) → is_torn (take k (frame bytes)) ≡ true }
{}

/// What a power cut may leave of a frame, and of others behind it, whose file has its whole length already, a beginning of the frame and
/// zeros, is torn.
pub fn a_frame_cut_before_zeros_is_torn()
    ensures { (bytes : List ℕ) (k n : ℕ) → length bytes < 2 ^ 32 → k < length (frame bytes)
        → is_torn (take k (frame bytes) ++ replicate n 0) ≡ true }
{}

/// A stop in the middle of an append loses nothing that was appended before: what then stands in the file is read as the edits, or the
/// records of the log, before it, and all of the beginning that it left is torn.
pub fn a_stop_loses_no_edit()
    ensures { (written read : List (List ℕ)) (last : List ℕ) (k bytes torn : ℕ) → AllFit written → AllFit read → length last < 2 ^ 32
        → ((i : ℕ) → slice_index (take k (frame last)) i < 256) → k < length (frame last)
        → IsEditsFile (frames written ++ take k (frame last)) read bytes torn → (read ≡ written) × (torn ≡ k) }
{}
