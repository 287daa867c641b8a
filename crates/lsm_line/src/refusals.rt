//! The names of refusals, as the lines of answers have them.

ghost use Rattle.std.specs.Prelude.{◌≡◌};
ghost use Rattle.lsm_coord.specs.Contract.Replies.{refusal_of};
ghost use Rattle.lsm_coord.specs.Model.Rules.{key_refusal};
ghost use Rattle.lsm_line.specs.Lines.{name_of};

use lsm_coord::CoordError;
use lsm_key::KeyError;

/// The name of a refusal of a batch.
pub fn key_name(error: KeyError) -> &'static str
    ensures { result.now ≡ name_of (key_refusal error) }
{
    match error {
        KeyError::EmptyKey => "EmptyKey",
        KeyError::KeyTooLong => "KeyTooLong",
        KeyError::ValueTooLong => "ValueTooLong",
        KeyError::BatchFull => "BatchFull",
        KeyError::OutOfMemory => "OutOfMemory",
    }
}

/// The name of a refusal of the coordinator.
pub fn coord_name(error: CoordError) -> &'static str
    ensures { result.now ≡ name_of (refusal_of error) }
{
    match error {
        CoordError::BadManifest => "BadManifest",
        CoordError::MissingTable => "MissingTable",
        CoordError::BadLog => "BadLog",
        CoordError::Device => "Device",
        CoordError::SequenceExhausted => "SequenceExhausted",
        CoordError::FrozenWaiting => "FrozenWaiting",
        CoordError::NothingToFreeze => "NothingToFreeze",
        CoordError::NothingToFlush => "NothingToFlush",
        CoordError::TooManySnapshots => "TooManySnapshots",
        CoordError::NoSnapshot => "NoSnapshot",
        CoordError::WrongJob => "WrongJob",
        CoordError::BadResult => "BadResult",
        CoordError::MemtableFull => "MemtableFull",
        CoordError::EmptyBatch => "EmptyBatch",
        CoordError::BookFull => "BookFull",
        CoordError::TooWide => "TooWide",
        CoordError::BadFloor => "BadFloor",
        CoordError::NumbersExhausted => "NumbersExhausted",
        CoordError::OutOfMemory => "OutOfMemory",
    }
}
