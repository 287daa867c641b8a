//! What a log holds, replayed into memtables.

ghost use Rattle.std.specs.Prelude.{◌≡◌, ◌^◌, ◌-◌, ◌<◌, ◌≤◌, ◌⊎◌, IfErr, IfOk, IsErr, OnOk};
ghost use Rattle.std.specs.Option.{option_map, unwrap_or};
ghost use Rattle.lsm_edit.specs.declared.log_record.LogRecord.TheVariants.{Write, Freeze};
ghost use Rattle.lsm_edit.specs.LogRecord.{IsRecord, IsSpelledRecord, read_record};
ghost use Rattle.lsm_mem.specs.Memtable.{last_sequence};
ghost use Rattle.lsm_versions.specs.declared.error.OpenError.TheVariants.{BadLog, OutOfMemory};
ghost use Rattle.lsm_versions.specs.Opening.{CountsRefusal, manifest_version};
ghost use Rattle.lsm_coord.specs.Inner.Replaying.{HasRead, LogRefuses, ReplayRefuses, ReplaysLog, TakeRefuses, TakesUp, ends_below, is_at, no_records, write_is_next};

use crate::frozen::Frozen;
use bytes::Bytes;
use lsm_edit::{LogRecord, decode_log};
use lsm_key::{Batch, MAX_MEMTABLE_WEIGHT, Refused, Seq};
use lsm_mem::Memtable;
use lsm_vault::Vault;
use lsm_versions::{OpenError, Recovered};
use std::alloc::Global;
use std::mem;

/// What records of a log hold above a flushed sequence, as memtables.
#[derive(Drop)]
pub(crate) struct Replayed {
    pub active: Memtable,
    pub frozen: Option<Frozen>,
    /// The last sequence of the last write, whether it is above the flushed one or not.
    pub last: Option<Seq>,
    /// How many records there are.
    pub read: usize,
    /// How many of them, the first ones, are up to the flushed sequence.
    pub flushed_upto: usize,
    /// How many are up to the end of the frozen memtable, its freeze included.
    pub frozen_upto: usize,
}

impl Replayed {
    // Of no record.
    fn new(alloc: Global) -> Replayed
        ensures { result ≡ no_records }
    {
        Replayed {
            active: Memtable::new(alloc),
            frozen: None,
            last: None,
            read: 0,
            flushed_upto: 0,
            frozen_upto: 0,
        }
    }

    /// The last sequence that the log has, which is the flushed one if the log has none.
    pub(crate) fn newest(&self, flushed: Seq) -> Seq
        ensures { result ≡ unwrap_or self.now.last flushed }
    {
        match self.last {
            Some(last) => last,
            None => flushed,
        }
    }

    /// How many of the records up to the end of the frozen memtable are left where this many of all are, if that is known.
    pub(crate) fn frozen_left(&self, left: Option<usize>) -> Option<usize>
        ensures { result ≡ option_map (λ n. self.now.frozen_upto - (self.now.read - n)) left }
    {
        match left {
            Some(left) => Some(
                self.frozen_upto
                    .saturating_sub(self.read.saturating_sub(left)),
            ),
            None => None,
        }
    }

    // Takes up the next record.
    fn take(&mut self, flushed: Seq, logged: &LogRecord) -> Result<(), OpenError>
        requires sound { IsRecord logged.now }
        requires recent { last_sequence self.old.active ≤ unwrap_or self.old.last 0 }
        requires counted { self.old.read < 2 ^ 64 - 1 }
        ensures ok { OnOk result (TakesUp flushed logged.now self.old self.new) }
        ensures refused { IfErr result (TakeRefuses flushed logged.now self.old) }
    {
        match logged {
            LogRecord::Write(first, batch) => self.take_write(flushed, *first, batch),
            LogRecord::Freeze(at) => self.take_freeze(flushed, *at),
        }
    }

    // Takes up a write: what it has up to the flushed sequence is in a table.
    fn take_write(&mut self, flushed: Seq, first: Seq, batch: &Batch) -> Result<(), OpenError>
        requires sound { IsRecord (Write first batch.now) }
        requires recent { last_sequence self.old.active ≤ unwrap_or self.old.last 0 }
        requires counted { self.old.read < 2 ^ 64 - 1 }
        ensures ok { OnOk result (TakesUp flushed (Write first batch.now) self.old self.new) }
        ensures refused { IfErr result (TakeRefuses flushed (Write first batch.now) self.old) }
    {
        if !self.comes_next(flushed, first) {
            return Err(OpenError::BadLog);
        }
        let below = flushed.number();
        let from = first.number();
        let end = from + (batch.ops().len() as u64 - 1);
        if end <= below {
            self.last = Some(Seq::new(end));
            self.read += 1;
            self.flushed_upto = self.read;
            return Ok(());
        }
        if from <= below {
            return Err(OpenError::BadLog);
        }
        if self.active.weight() + batch.weight() > MAX_MEMTABLE_WEIGHT {
            return Err(OpenError::BadLog);
        }
        let _logged = self.active.apply(first, batch)?;
        self.last = Some(Seq::new(end));
        self.read += 1;
        Ok(())
    }

    // Whether a write that begins here comes next.
    fn comes_next(&self, flushed: Seq, first: Seq) -> bool
        ensures { result ≡ write_is_next flushed self.now.last first }
    {
        match self.last {
            Some(last) => first.number() == last.number() + 1,
            None => first.number() <= flushed.number() + 1,
        }
    }

    // Takes up a freeze: one up to the flushed sequence was of a memtable that is in a table.
    fn take_freeze(&mut self, flushed: Seq, at: Seq) -> Result<(), OpenError>
        requires sound { IsRecord (Freeze at) }
        requires counted { self.old.read < 2 ^ 64 - 1 }
        ensures ok { OnOk result (TakesUp flushed (Freeze at) self.old self.new) }
        ensures refused { IfErr result (TakeRefuses flushed (Freeze at) self.old) }
    {
        if !self.is_at(at) {
            return Err(OpenError::BadLog);
        }
        if at.number() <= flushed.number() {
            self.read += 1;
            self.flushed_upto = self.read;
            return Ok(());
        }
        if self.frozen.is_some() {
            return Err(OpenError::BadLog);
        }
        let next = self.active.successor();
        let memtable = mem::replace(&mut self.active, next);
        self.frozen = Some(Frozen { memtable, end: at });
        self.read += 1;
        self.frozen_upto = self.read;
        Ok(())
    }

    // Whether a freeze here is at the last sequence of the last write.
    fn is_at(&self, at: Seq) -> bool
        ensures { result ≡ is_at self.now.last at }
    {
        match self.last {
            Some(last) => at.number() == last.number(),
            None => false,
        }
    }

    // Whether the last write ends below the flushed sequence.
    fn ends_below(&self, flushed: Seq) -> bool
        ensures { result ≡ ends_below flushed self.now.last }
    {
        match self.last {
            Some(last) => last.number() < flushed.number(),
            None => false,
        }
    }
}

/// What a log holds above a flushed sequence. It is refused where the log is bad, or where memory runs out.
pub(crate) fn replay(alloc: Global, flushed: Seq, texts: &[Bytes]) -> Result<Replayed, OpenError>
    ensures ok { IfOk result (ReplaysLog flushed texts.now) }
    ensures refused { IfErr result (ReplayRefuses flushed texts.now) }
{
    let mut replayed = Replayed::new(alloc);
    replay_each(alloc, flushed, texts, &mut replayed)?;
    if replayed.ends_below(flushed) {
        return Err(OpenError::BadLog);
    }
    Ok(replayed)
}

/// What the log of a vault that was read holds above the flushed sequence. The vault stays as it is.
pub(crate) fn replay_log<V: Vault>(
    alloc: Global,
    recovered: &mut Recovered<V>,
) -> Result<Replayed, OpenError>
    ensures ok { IfOk result (ReplaysLog (manifest_version recovered.old.stored.edits).flushed recovered.old.stored.log) }
    ensures refused { IfErr result (LogRefuses (manifest_version recovered.old.stored.edits).flushed recovered.old.stored.log) }
    ensures same { recovered.new ≡ record recovered.old { failures = recovered.new.failures } }
    ensures failures { recovered.old.failures ≤ recovered.new.failures }
    ensures counted { IfErr result (λ e. CountsRefusal e recovered.old.failures recovered.new.failures) }
{
    let flushed = recovered.flushed();
    let texts = recovered.log()?;
    replay(alloc, flushed, texts.as_slice())
}

// Takes up the record of each text.
fn replay_each(
    alloc: Global,
    flushed: Seq,
    texts: &[Bytes],
    replayed: &mut Replayed,
) -> Result<(), OpenError>
    requires { replayed.old ≡ no_records }
    ensures ok { OnOk result (HasRead flushed texts.now replayed.new) }
    ensures refused { IfErr result (ReplayRefuses flushed texts.now) }
{
    for text in texts {
        let logged = record_of(alloc, text)?;
        replayed.take(flushed, &logged)?;
    }
    Ok(())
}

// The record that the bytes encode.
fn record_of(alloc: Global, text: &Bytes) -> Result<LogRecord, OpenError>
    ensures ok { IfOk result (IsSpelledRecord text.now) }
    ensures refused { IfErr result (λ e. (e ≡ OutOfMemory) ⊎ ((e ≡ BadLog) × IsErr (read_record text.now))) }
{
    match decode_log(alloc, text.clone()?) {
        Ok(logged) => Ok(logged),
        Err(Refused::Fault(_)) => Err(OpenError::BadLog),
        Err(Refused::OutOfMemory) => Err(OpenError::OutOfMemory),
    }
}
