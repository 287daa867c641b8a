//! An operation in the record of its batch.

ghost use Rattle.std.specs.Prelude.{◌≡◌, ◌+◌, length, take, drop, IfOk};
ghost use Rattle.lsm_key.specs.Writes.{key_of};
ghost use Rattle.lsm_edit.specs.LogRecord.{op_bytes, op_value};

use bytes::Bytes;
use lsm_key::Op;
use std::alloc::AllocError;

// The bytes before a key: the code of the operation and the key's length.
const BEFORE_KEY: usize = 3;

// The bytes before a value: its length.
const BEFORE_VALUE: usize = 4;

/// What an operation is about, as it lies in the record of its batch.
#[derive(Debug, Drop)]
pub struct LoggedOp {
    pub key: Bytes,
    /// Empty for a deletion.
    pub value: Bytes,
    /// Where the encoding of the operation ends in the record.
    pub end: usize,
}

/// The key and the value of an operation that is encoded at `at` in a record. Both share the bytes of the record.
pub fn find_logged(logged: &Bytes, at: usize, op: &Op) -> Result<LoggedOp, AllocError>
    requires { take (length (op_bytes op.now)) (drop at logged.now) ≡ op_bytes op.now }
    ensures key { IfOk result (λ found. found.key ≡ key_of op.now) }
    ensures value { IfOk result (λ found. found.value ≡ op_value op.now) }
    ensures end { IfOk result (λ found. found.end ≡ at + length (op_bytes op.now)) }
{
    let _len = logged.len();
    let key_at = at + BEFORE_KEY;
    let key_end = key_at + op.key().len();
    let key = logged.slice(key_at..key_end)?;
    match op {
        Op::Put(_, value) => {
            let value_at = key_end + BEFORE_VALUE;
            let end = value_at + value.len();
            let value = logged.slice(value_at..end)?;
            Ok(LoggedOp { key, value, end })
        }
        Op::Delete(_) => Ok(LoggedOp {
            key,
            value: Bytes::new(),
            end: key_end,
        }),
    }
}
