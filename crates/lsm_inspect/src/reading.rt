//! A log, read record by record to its end, or to what is wrong with it. No memtable is made.

ghost use Rattle.std.specs.Prelude.{◌≡◌, IfErr, IfNone, IfOk, IfSome, OnOk, Ok};
ghost use Rattle.std.specs.Option.{unwrap_or};
ghost use Rattle.lsm_edit.specs.declared.log_record.LogRecord.TheVariants.{Write, Freeze};
ghost use Rattle.lsm_edit.specs.LogRecord.{IsRecord, read_record};
ghost use Rattle.lsm_inspect.specs.Log.{HoldsSoMany, IsLogDamage, RefusesLog, RefusesText};
ghost use Rattle.lsm_inspect.specs.LogReading.{Damages, HasReadLog, ReadsOn, ends_short, held_above, late_or_elsewhere, late_or_gap, may_begin, may_freeze, no_reading, with_weight};

use crate::LogDamage;
use bytes::Bytes;
use lsm_edit::{LogRecord, decode_log};
use lsm_key::{Batch, MAX_MEMTABLE_WEIGHT, Refused, Seq};
use std::alloc::{AllocError, Global};

/// What a reading of a log has found.
#[derive(Clone, Copy)]
pub(crate) struct LogFound {
    /// How many operations are above the flushed sequence, up to what is wrong.
    pub above: u64,
    pub damage: Option<LogDamage>,
}

/// What the records of a log have been so far.
#[derive(Clone, Copy)]
struct LogReading {
    // The last sequence of the last write.
    last: Option<Seq>,
    // Whether a freeze is above the flushed sequence.
    is_frozen: bool,
    // What the operations above the flushed sequence, and behind that freeze, weigh together.
    weight: usize,
    // Whether operations did not fit their memtable. They are not weighed on.
    is_heavy: bool,
}

impl LogReading {
    // Of no record.
    fn new() -> LogReading
        ensures { result ≡ no_reading }
    {
        LogReading {
            last: None,
            is_frozen: false,
            weight: 0,
            is_heavy: false,
        }
    }

    // How many sequences there are from the flushed one to the last one.
    fn held_above(&self, flushed: Seq) -> u64
        ensures { result ≡ held_above flushed self.now.last }
    {
        match self.last {
            Some(last) => last.number().saturating_sub(flushed.number()),
            None => 0,
        }
    }

    // What has been found so far.
    fn found(&self, flushed: Seq, damage: Option<LogDamage>) -> LogFound
        ensures { result ≡ record { above = held_above flushed self.now.last; damage = damage } }
    {
        LogFound {
            above: self.held_above(flushed),
            damage,
        }
    }

    // Reads the next record.
    fn take(&mut self, flushed: Seq, logged: &LogRecord) -> Result<(), Refused<LogDamage>>
        requires { IsRecord logged.now }
        ensures ok { OnOk result (ReadsOn flushed logged.now self.old self.new) }
        ensures refused { IfErr result (Damages flushed logged.now self.old) }
    {
        match logged {
            LogRecord::Write(first, batch) => self.take_write(flushed, *first, batch),
            LogRecord::Freeze(at) => self.take_freeze(flushed, *at),
        }
    }

    // Reads a write: one up to the flushed sequence is in a table.
    fn take_write(
        &mut self,
        flushed: Seq,
        first: Seq,
        batch: &Batch,
    ) -> Result<(), Refused<LogDamage>>
        requires { IsRecord (Write first batch.now) }
        ensures ok { OnOk result (ReadsOn flushed (Write first batch.now) self.old self.new) }
        ensures refused { IfErr result (Damages flushed (Write first batch.now) self.old) }
    {
        if !self.may_begin(flushed, first) {
            return Err(Refused::Fault(self.late_or_gap(first)));
        }
        let below = flushed.number();
        let from = first.number();
        let end = from + (batch.ops().len() as u64 - 1);
        if end <= below {
            self.last = Some(Seq::new(end));
            return Ok(());
        }
        if from <= below {
            return Err(Refused::Fault(LogDamage::Straddles(from)));
        }
        self.last = Some(Seq::new(end));
        self.weigh(batch.weight());
        Ok(())
    }

    // Whether a write may begin here.
    fn may_begin(&self, flushed: Seq, first: Seq) -> bool
        ensures { result ≡ may_begin flushed self.now.last first }
    {
        match self.last {
            Some(last) => first.number() == last.number() + 1,
            None => first.number() <= flushed.number() + 1,
        }
    }

    // What is wrong where it may not.
    fn late_or_gap(&self, first: Seq) -> LogDamage
        ensures { result ≡ late_or_gap self.now.last first }
    {
        match self.last {
            Some(last) => LogDamage::LeavesGap(last.number(), first.number()),
            None => LogDamage::BeginsLate,
        }
    }

    // Adds the weight of operations to those before them.
    fn weigh(&mut self, more: usize)
        ensures { self.new ≡ with_weight more self.old }
    {
        if self.is_heavy {
            return;
        }
        if more > MAX_MEMTABLE_WEIGHT.saturating_sub(self.weight) {
            self.is_heavy = true;
        } else {
            self.weight += more;
        }
    }

    // Reads a freeze: one up to the flushed sequence was of a memtable that is in a table.
    fn take_freeze(&mut self, flushed: Seq, at: Seq) -> Result<(), Refused<LogDamage>>
        requires { IsRecord (Freeze at) }
        ensures ok { OnOk result (ReadsOn flushed (Freeze at) self.old self.new) }
        ensures refused { IfErr result (Damages flushed (Freeze at) self.old) }
    {
        if !self.may_freeze(at) {
            return Err(Refused::Fault(self.late_or_elsewhere(at)));
        }
        if at.number() <= flushed.number() {
            return Ok(());
        }
        if self.has_frozen() {
            return Err(Refused::Fault(LogDamage::FreezesTwice));
        }
        self.is_frozen = true;
        self.weight = 0;
        Ok(())
    }

    // Whether a freeze may stand here.
    fn may_freeze(&self, at: Seq) -> bool
        ensures { result ≡ may_freeze self.now.last at }
    {
        match self.last {
            Some(last) => at.number() == last.number(),
            None => false,
        }
    }

    // What is wrong where it may not.
    fn late_or_elsewhere(&self, at: Seq) -> LogDamage
        ensures { result ≡ late_or_elsewhere self.now.last at }
    {
        match self.last {
            Some(last) => LogDamage::FreezesElsewhere(last.number(), at.number()),
            None => LogDamage::BeginsLate,
        }
    }

    // Whether a freeze is above the flushed sequence.
    fn has_frozen(&self) -> bool
        ensures { result ≡ self.now.is_frozen }
    {
        self.is_frozen
    }

    // Whether operations did not fit their memtable.
    fn is_too_heavy(&self) -> bool
        ensures { result ≡ self.now.is_heavy }
    {
        self.is_heavy
    }

    // Whether the last write ends before the flushed sequence.
    fn ends_short(&self, flushed: Seq) -> bool
        ensures { result ≡ ends_short flushed self.now.last }
    {
        match self.last {
            Some(last) => last.number() < flushed.number(),
            None => false,
        }
    }

    // The last sequence of the last write, or none.
    fn last_number(&self) -> u64
        ensures { result ≡ unwrap_or self.now.last 0 }
    {
        match self.last {
            Some(last) => last.number(),
            None => 0,
        }
    }
}

/// What is wrong with a log over the flushed sequence, and how much it holds.
pub(crate) fn find_in_log(
    alloc: Global,
    flushed: Seq,
    texts: &[Bytes],
) -> Result<LogFound, AllocError>
    ensures damage { IfOk result (λ found. IfSome found.damage (IsLogDamage flushed texts.now)) }
    ensures held { IfOk result (λ found. IfNone found.damage (HoldsSoMany flushed texts.now found.above)) }
{
    let mut reading = LogReading::new();
    match read_all(alloc, flushed, texts, &mut reading) {
        Ok(()) => Ok(reading.found(flushed, None)),
        Err(Refused::Fault(damage)) => Ok(reading.found(flushed, Some(damage))),
        Err(Refused::OutOfMemory) => Err(AllocError),
    }
}

// Reads the record of each text, and judges the whole log.
fn read_all(
    alloc: Global,
    flushed: Seq,
    texts: &[Bytes],
    reading: &mut LogReading,
) -> Result<(), Refused<LogDamage>>
    requires { reading.old ≡ no_reading }
    ensures ok { OnOk result (HoldsSoMany flushed texts.now (held_above flushed reading.new.last)) }
    ensures refused { IfErr result (RefusesLog flushed texts.now) }
{
    read_each(alloc, flushed, texts, reading)?;
    if reading.ends_short(flushed) {
        return Err(Refused::Fault(LogDamage::EndsEarly(reading.last_number())));
    }
    if reading.is_too_heavy() {
        return Err(Refused::Fault(LogDamage::IsHeavy));
    }
    Ok(())
}

// Reads the record of each text.
fn read_each(
    alloc: Global,
    flushed: Seq,
    texts: &[Bytes],
    reading: &mut LogReading,
) -> Result<(), Refused<LogDamage>>
    requires { reading.old ≡ no_reading }
    ensures ok { OnOk result (HasReadLog flushed texts.now reading.new) }
    ensures refused { IfErr result (RefusesLog flushed texts.now) }
{
    for text in texts {
        let logged = record_of(alloc, text)?;
        reading.take(flushed, &logged)?;
    }
    Ok(())
}

// The record that the bytes encode.
fn record_of(alloc: Global, text: &Bytes) -> Result<LogRecord, Refused<LogDamage>>
    ensures sound { IfOk result IsRecord }
    ensures read { IfOk result (λ r. read_record text.now ≡ Ok r) }
    ensures refused { IfErr result (RefusesText text.now) }
{
    match decode_log(alloc, text.clone()?) {
        Ok(logged) => Ok(logged),
        Err(Refused::Fault(fault)) => Err(Refused::Fault(LogDamage::NoRecord(fault))),
        Err(Refused::OutOfMemory) => Err(Refused::OutOfMemory),
    }
}
