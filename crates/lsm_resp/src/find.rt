//! The first place of a byte.

ghost use Rattle.std.specs.Prelude.{◌≡◌, ◌<◌, ◌≢◌, ◌≤◌, ℕ, length, slice_index};
ghost use Rattle.lsm_resp.specs.Outcomes.{bytes_before};

/// The index of the first such byte, or the length if there is none.
#[tactic(auto, using(crate::proofs::Before::before_is))]
pub(crate) fn index_of(bytes: &[u8], wanted: u8) -> usize
    ensures within { result ≤ length bytes.now }
    ensures before { (k : ℕ) → k < result → slice_index bytes.now k ≢ wanted }
    ensures at { result < length bytes.now → slice_index bytes.now result ≡ wanted }
    ensures value { result ≡ bytes_before wanted bytes.now }
{
    for (i, byte) in bytes.iter().enumerate() {
        if *byte == wanted {
            return i;
        }
    }
    bytes.len()
}
