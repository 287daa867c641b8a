//! Records of a log: a batch that was accepted, or a freeze.
//!
//! A write, its numbers big-endian:
//!
//!     1 byte    code, 1
//!     8 bytes   sequence of the first operation
//!     4 bytes   count of operations, 1 to 1,000
//!               each operation:
//!     1 byte      kind, 0 for a deletion and 1 for a put
//!     2 bytes     length of the key, 1 to 4,096
//!                 the key
//!     4 bytes     of a put, length of the value, 0 to 65,536
//!                 of a put, the value
//!
//! A freeze:
//!
//!     1 byte    code, 2
//!     8 bytes   sequence of the last write before it

ghost use Rattle.std.specs.Prelude.{◌≡◌, ◌≤◌, ◌++◌, ◌+◌, length, All, IfOk, OnOk, Ok};
ghost use Rattle.std.specs.List.{flat_map};
ghost use Rattle.lsm_key.specs.Reading.{Gives};
ghost use Rattle.lsm_edit.specs.declared.log_record.LogRecord.{LogRecord};
ghost use Rattle.lsm_edit.specs.declared.log_record.LogRecord.TheVariants.{Write, Freeze};
ghost use Rattle.lsm_edit.specs.LogRecord.{IsOp, IsRecord, IsSpelledRecord, after_op, delete_at, freeze_at, next_weight, op_at, op_bytes, ops_at, put_at, read_record, log_record_at, record_bytes, write_at};

use crate::{FormatError, FormatFault};
use bytes::{BufMut, Bytes, BytesMut};
use lsm_key::{
    Batch, ENTRY_OVERHEAD, MAX_BATCH_OPS, MAX_BATCH_WEIGHT, MAX_KEY_BYTES, MAX_VALUE_BYTES, Op,
    Refused, Seq, know_bytes, read_key, read_piece, read_ranged_u8, read_ranged_u32,
    read_ranged_u64, write_key,
};
use std::alloc::{AllocError, Global};

/// What a store accepted.
#[derive(Debug, Drop)]
pub enum LogRecord {
    /// A batch, with the sequence of its first operation.
    Write(Seq, Batch),
    /// A freeze of the active memtable, with the sequence of the last write in it.
    Freeze(Seq),
}

// The code of a write.
const WRITE: u8 = 1;

// The code of a freeze.
const FREEZE: u8 = 2;

/// What a batch may still have while it is read.
#[derive(Clone, Copy)]
struct Remaining {
    // How many operations.
    ops: u32,
    // How much they may weigh together, in bytes.
    weight: usize,
}

impl Remaining {
    // The most that the next operation may weigh. The weight of a batch is tested at its last operation alone.
    fn next_weight(self) -> usize
        ensures { result ≡ next_weight self }
    {
        if self.ops == 1 {
            self.weight
        } else {
            MAX_BATCH_WEIGHT
        }
    }

    // What is left after an operation.
    fn after(self, op: &Op) -> Remaining
        requires { 1 ≤ self.ops }
        ensures { result ≡ after_op self op.now }
    {
        Remaining {
            ops: self.ops - 1,
            weight: self
                .weight
                .saturating_sub(ENTRY_OVERHEAD)
                .saturating_sub(op.key().len())
                .saturating_sub(op.value_len()),
        }
    }
}

// A deletion of at most this weight from the front, after its code.
#[tactic(auto, unfolding(crate::specs::LogRecord::delete_at))]
fn read_delete<F: Copy>(rest: &mut Bytes, most: usize, short: F, bad: F) -> Result<Op, Refused<F>>
    ensures { Gives (λ op. (op, rest.new)) result (delete_at short bad most rest.old) }
{
    let limit = MAX_KEY_BYTES.min(most.saturating_sub(ENTRY_OVERHEAD));
    let key = read_key(rest, limit, short, bad)?;
    Ok(Op::Delete(key))
}

// A put of at most this weight from the front, after its code.
#[tactic(auto, unfolding(crate::specs::LogRecord::put_at))]
fn read_put<F: Copy>(rest: &mut Bytes, most: usize, short: F, bad: F) -> Result<Op, Refused<F>>
    ensures { Gives (λ op. (op, rest.new)) result (put_at short bad most rest.old) }
{
    let key = read_key(rest, MAX_KEY_BYTES, short, bad)?;
    let len = read_ranged_u32(rest, 0, MAX_VALUE_BYTES as u32, short, bad)? as usize;
    let beside_key = ENTRY_OVERHEAD + len;
    if most < beside_key || most - beside_key < key.len() {
        return Err(Refused::Fault(bad));
    }
    let value = read_piece(rest, len, short)?;
    Ok(Op::Put(key, value))
}

// An operation of at most this weight from the front.
#[tactic(auto, unfolding(crate::specs::LogRecord::op_at))]
fn read_op<F: Copy>(rest: &mut Bytes, most: usize, short: F, bad: F) -> Result<Op, Refused<F>>
    ensures { Gives (λ op. (op, rest.new)) result (op_at short bad most rest.old) }
{
    if read_ranged_u8(rest, 0, 1, short, bad)? == 0 {
        read_delete(rest, most, short, bad)
    } else {
        read_put(rest, most, short, bad)
    }
}

// `count` operations from the front, those of a batch.
fn read_ops<F: Copy>(
    alloc: Global,
    count: u32,
    rest: &mut Bytes,
    short: F,
    bad: F,
) -> Result<Vec<Op>, Refused<F>>
    ensures { Gives (λ ops. (ops.items, rest.new)) result (ops_at short bad count (record { ops = count; weight = MAX_BATCH_WEIGHT }) rest.old) }
{
    let mut ops = Vec::new(alloc);
    let mut left = Remaining {
        ops: count,
        weight: MAX_BATCH_WEIGHT,
    };
    for _place in 0..count {
        let op = read_op(rest, left.next_weight(), short, bad)?;
        left = left.after(&op);
        ops.push(op)?;
    }
    Ok(ops)
}

// A write from the front, after its code.
#[tactic(auto, unfolding(crate::specs::LogRecord::write_at))]
fn read_write<F: Copy>(
    alloc: Global,
    rest: &mut Bytes,
    short: F,
    bad: F,
) -> Result<LogRecord, Refused<F>>
    ensures { Gives (λ r. (r, rest.new)) result (write_at short bad rest.old) }
{
    let first = read_ranged_u64(rest, 1, u64::MAX, short, bad)?;
    let count = read_ranged_u32(rest, 1, MAX_BATCH_OPS as u32, short, bad)?;
    if first > Seq::MAX || Seq::MAX - first < u64::from(count) - 1 {
        return Err(Refused::Fault(bad));
    }
    know_bytes(rest);
    let ops = read_ops(alloc, count, rest, short, bad)?;
    match Batch::from_vec(ops) {
        Ok(batch) => Ok(LogRecord::Write(Seq::new(first), batch)),
        // Each limit of a batch was tested where it was read.
        Err(_) => Err(Refused::Fault(bad)),
    }
}

// A freeze from the front, after its code.
#[tactic(auto, unfolding(crate::specs::LogRecord::freeze_at))]
fn read_freeze<F: Copy>(rest: &mut Bytes, short: F, bad: F) -> Result<LogRecord, Refused<F>>
    ensures { Gives (λ r. (r, rest.new)) result (freeze_at short bad rest.old) }
{
    let seq = read_ranged_u64(rest, 1, Seq::MAX, short, bad)?;
    Ok(LogRecord::Freeze(Seq::new(seq)))
}

// A record from the front.
#[tactic(auto, unfolding(crate::specs::LogRecord::log_record_at))]
fn read_record<F: Copy>(
    alloc: Global,
    rest: &mut Bytes,
    short: F,
    bad: F,
) -> Result<LogRecord, Refused<F>>
    ensures { Gives (λ r. (r, rest.new)) result (log_record_at short bad rest.old) }
{
    if read_ranged_u8(rest, WRITE, FREEZE, short, bad)? == WRITE {
        read_write(alloc, rest, short, bad)
    } else {
        read_freeze(rest, short, bad)
    }
}

/// The record that the bytes encode, all of the bytes, or the first fault. Its keys and values share the bytes.
pub fn decode_log(alloc: Global, bytes: Bytes) -> Result<LogRecord, FormatError>
    // What is decoded encodes to these bytes.
    ensures found { IfOk result (λ r. IsSpelledRecord bytes r) }
    // What encodes to these bytes is decoded, unless memory runs out.
    ensures only { (r : LogRecord) → IsSpelledRecord bytes r → Gives (λ x. x) result (Ok r) }
    // The fault is the first one.
    ensures exact { Gives (λ x. x) result (read_record bytes) }
{
    know_bytes(&bytes);
    read_whole(alloc, bytes)
}

// The record that the bytes encode, with no byte left.
#[tactic(auto, unfolding(crate::specs::LogRecord::read_record))]
fn read_whole(alloc: Global, bytes: Bytes) -> Result<LogRecord, FormatError>
    ensures { Gives (λ x. x) result (read_record bytes) }
{
    let mut rest = bytes;
    let logged = read_record(
        alloc,
        &mut rest,
        FormatFault::Truncated,
        FormatFault::BadField,
    )?;
    if !rest.is_empty() {
        return Err(Refused::Fault(FormatFault::TrailingBytes));
    }
    Ok(logged)
}

// Appends an operation.
fn write_op(out: &mut BytesMut, op: &Op) -> Result<(), AllocError>
    requires { IsOp op.now }
    ensures { OnOk result (out.new.items ≡ out.old.items ++ op_bytes op.now) }
{
    match op {
        Op::Put(key, value) => {
            out.put_u8(1)?;
            write_key(out, key.as_slice())?;
            out.put_u32(value.len() as u32)?;
            out.put_slice(value.as_slice())
        }
        Op::Delete(key) => {
            out.put_u8(0)?;
            write_key(out, key.as_slice())
        }
    }
}

// Appends each operation.
fn write_ops(out: &mut BytesMut, ops: &[Op]) -> Result<(), AllocError>
    requires { All IsOp ops.now }
    ensures { OnOk result (out.new.items ≡ out.old.items ++ flat_map op_bytes ops.now) }
{
    for op in ops {
        write_op(out, op)?;
    }
    Ok(())
}

/// The size of a write without its operations, in bytes: the code, the sequence and the count.
pub const WRITE_HEAD_BYTES: usize = 13;

// The size of a freeze: the code and the sequence.
const FREEZE_BYTES: usize = 9;

/// Appends the one encoding of a batch whose first operation has the sequence `first`. It has no more bytes than
/// `WRITE_HEAD_BYTES` and what the batch weighs.
pub fn append_write(out: &mut BytesMut, first: Seq, batch: &Batch) -> Result<(), AllocError>
    ensures { OnOk result (out.new.items ≡ out.old.items ++ record_bytes (Write first batch.now)) }
{
    out.put_u8(WRITE)?;
    out.put_u64(first.number())?;
    out.put_u32(batch.ops().len() as u32)?;
    write_ops(out, batch.ops())?;
    Ok(())
}

/// The one encoding of a batch whose first operation has the sequence `first`. The batch is not empty, and the sequence
/// of its last operation is at most `Seq::MAX`.
pub fn encode_write(alloc: Global, first: Seq, batch: &Batch) -> Result<Bytes, AllocError>
    requires begun { 1 ≤ first }
    requires some { 1 ≤ length batch.now }
    requires fits { first + length batch.now ≤ Seq.MAX + 1 }
    ensures { IfOk result (λ b. b ≡ record_bytes (Write first batch.now)) }
{
    let mut out = BytesMut::with_capacity(alloc, WRITE_HEAD_BYTES + batch.weight())?;
    append_write(&mut out, first, batch)?;
    Ok(out.freeze()?)
}

/// The one encoding of a freeze at this sequence, which is at least 1.
pub fn encode_freeze(alloc: Global, seq: Seq) -> Result<Bytes, AllocError>
    requires { 1 ≤ seq }
    ensures { IfOk result (λ b. b ≡ record_bytes (Freeze seq)) }
{
    let mut out = BytesMut::with_capacity(alloc, FREEZE_BYTES)?;
    out.put_u8(FREEZE)?;
    out.put_u64(seq.number())?;
    Ok(out.freeze()?)
}

/// The one encoding of the record.
pub fn encode_log(alloc: Global, logged: &LogRecord) -> Result<Bytes, AllocError>
    requires { IsRecord logged.now }
    ensures { IfOk result (λ b. b ≡ record_bytes logged.now) }
{
    match logged {
        LogRecord::Write(first, batch) => encode_write(alloc, *first, batch),
        LogRecord::Freeze(seq) => encode_freeze(alloc, *seq),
    }
}
