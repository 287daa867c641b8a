//! What holds of the bytes of every block, as facts on the definitions. The functions do nothing: each is the proof of its contract.

ghost use Rattle.std.specs.Prelude.{◌≡◌, ◌≢◌, ◌<◌, ◌≤◌, ◌++◌, ℕ, List, Ok, Err, IfOk, length, slice_index, take};
ghost use Rattle.lsm_key.specs.declared.entry.Entry.{Entry};
ghost use Rattle.lsm_block.specs.declared.fault.BlockFault.TheVariants.{Truncated};
ghost use Rattle.lsm_block.specs.Blocks.{IsBlock, entries};
ghost use Rattle.lsm_block.specs.BlockReading.{read_block};

use lsm_key::MAX_KEY_BYTES;

/// What is read as a block with a limit on its keys is read as the same block with a greater limit.
pub fn a_block_of_short_keys_is_a_block()
    ensures { (low high : ℕ) (bytes : List ℕ) (es : List Entry) → low ≤ high → read_block low bytes ≡ Ok es → read_block high bytes ≡ Ok es }
{}

/// A proper beginning of a block is a shorter block if it ends between two entries, and is else refused as truncated, as no bytes are.
pub fn a_beginning_of_a_block_is_shorter_or_truncated()
    ensures shorter { (limit : ℕ) (bytes : List ℕ) (front back : List Entry) → IsBlock limit bytes (front ++ back) → 0 < length front → read_block limit (take (length (entries front)) bytes) ≡ Ok front }
    ensures truncated { (limit : ℕ) (bytes : List ℕ) (es : List Entry) (n : ℕ) → limit ≤ MAX_KEY_BYTES → IsBlock limit bytes es → n < length bytes
        → ((front back : List Entry) → es ≡ front ++ back → 0 < length front → n ≢ length (entries front)) → read_block limit (take n bytes) ≡ Err Truncated }
{}

/// Bytes other than those of a block, such as those with a byte changed, are refused with a named fault, or are the one spelling of another
/// block.
pub fn a_change_is_refused_or_another_block()
    ensures { (limit : ℕ) (bytes changed : List ℕ) (es : List Entry) → limit ≤ MAX_KEY_BYTES → ((i : ℕ) → slice_index changed i < 256) → IsBlock limit bytes es → changed ≢ bytes
        → IfOk (read_block limit changed) (λ other. IsBlock limit changed other × (other ≢ es)) }
{}
