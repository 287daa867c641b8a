//! The limits as numbers. The function does nothing: it is the proof of its contract.

ghost use Rattle.std.specs.Prelude.{◌≡◌};
ghost use Rattle.lsm_resp.specs.Enough.{enough_for_request};
ghost use Rattle.lsm_resp.specs.declared.limits.TheConstants.{MAX_HEADER_BYTES, MAX_LINE_BYTES, MAX_REQUEST_BYTES, MAX_WORDS, MAX_WORD_BYTES};

/// The limits of the wire are these numbers.
pub fn wire_limits_are_these()
    ensures words { (MAX_WORDS ≡ 2001) × (MAX_WORD_BYTES ≡ 131072) × (MAX_REQUEST_BYTES ≡ 4131072) }
    ensures lines { (MAX_LINE_BYTES ≡ 65536) × (MAX_HEADER_BYTES ≡ 32) }
    ensures ahead { enough_for_request ≡ 4334214 }
{}
