//! The limits of readers as numbers. The function does nothing: it is the proof of its contract.

ghost use Rattle.std.specs.Prelude.{◌≡◌, ◌^◌};
ghost use Rattle.lsm_readers.specs.declared.start.TheConstants.{MAX_READERS};
ghost use Rattle.lsm_readers.specs.declared.writer.TheConstants.{MAX_PUBLICATIONS};

/// The limits are these numbers.
pub fn reader_limits_are_these()
    ensures readers { MAX_READERS ≡ 4 }
    ensures publications { MAX_PUBLICATIONS ≡ 2 ^ 62 }
{}
