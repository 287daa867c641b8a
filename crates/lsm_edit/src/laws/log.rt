//! What a log holds, some logs that are written out, and what damaged records are read as.

ghost use Rattle.std.specs.Prelude.{◌≡◌, ◌≢◌, ℕ, ◌<◌, List, length, take, slice_index, IfOk, Err};
ghost use Rattle.lsm_edit.specs.declared.log_record.LogRecord.{LogRecord};
ghost use Rattle.lsm_edit.specs.declared.format.FormatFault.TheVariants.{Truncated};
ghost use Rattle.lsm_edit.specs.LogRecord.{IsSpelledRecord, read_record};
ghost use Rattle.lsm_edit.specs.LogLaws.{ACutHoldsTheSame, AFreezeIsHeld, AFrozenEndIsFlushed, ALogIsFlushed, AWriteIsHeld, BadIsNotGood, BytesHoldTheSame};
ghost use Rattle.lsm_edit.specs.WorkedLogs.{EmptyHoldsNothing, GapIsBad, OthersAreBad, HoldsTheWritesAbove, TwoMemtablesAreGood, WriteHasTheseBytes};

/// A proper beginning of a log record is refused as truncated.
pub fn a_beginning_of_a_log_record_is_truncated()
    ensures { (bytes : List ℕ) (r : LogRecord) (n : ℕ) → IsSpelledRecord bytes r → n < length bytes → read_record (take n bytes) ≡ Err Truncated }
{}

/// Bytes other than those of a log record, such as those with a byte changed, are refused with a named fault, or are the one encoding of
/// another record.
pub fn a_change_is_refused_or_another_log_record()
    ensures { (bytes changed : List ℕ) (r : LogRecord) → IsSpelledRecord bytes r → ((i : ℕ) → slice_index changed i < 256) → changed ≢ bytes
        → IfOk (read_record changed) (λ other. IsSpelledRecord changed other × (other ≢ r)) }
{}

/// A log is bad exactly if it is not good: it begins in time, each record follows the one before it, no write is flushed by half, at most one
/// freeze is above the flushed sequence, which the log reaches, and what it holds fits a frozen memtable and an active one.
pub fn a_log_is_good_or_bad()
    ensures { BadIsNotGood }
{}

/// A good log stays good and holds what a store then has: with one more write, with a freeze, over the end of what was frozen, over its last
/// sequence, and without first records that hold nothing. The bytes of its records hold the same.
pub fn a_log_holds_what_a_store_has()
    ensures bytes { BytesHoldTheSame }
    ensures write { AWriteIsHeld }
    ensures freeze { AFreezeIsHeld }
    ensures frozen { AFrozenEndIsFlushed }
    ensures all { ALogIsFlushed }
    ensures cut { ACutHoldsTheSame }
{}

/// The 22 bytes of a write of one put, what a log of two memtables holds, and logs that are bad, each for a reason of its own.
pub fn worked_logs()
    ensures bytes { WriteHasTheseBytes }
    ensures above { HoldsTheWritesAbove }
    ensures gap { GapIsBad }
    ensures others { OthersAreBad }
    ensures good { TwoMemtablesAreGood }
    ensures empty { EmptyHoldsNothing }
{}
