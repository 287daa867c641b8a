//! The writes of a run, each of which is flushed, so that there is something to merge.

ghost use Rattle.std.specs.Prelude.{◌≡◌, ◌<◌};

use super::{KeyPuts, ThreadsError, ThreadsScript};
use bytes::Bytes;
use lsm_coord::CoordError;
use lsm_key::{Batch, Op};
use lsm_nodes::{Hub, Start, Tally, Witness};
use lsm_vault::Vault;
use std::alloc::Global;
use std::sync::Wait;

// Writes and flushes each value of the script.
pub(super) fn fill<V: Vault, J: Start, N: Witness + Drop, R: Wait>(
    rt: &R,
    alloc: Global,
    hub: &Hub<V, J, N>,
    script: &ThreadsScript,
    tally: &mut Tally<J>,
) -> Result<(), ThreadsError>
    requires { 0 < tally.old.parts }
    ensures { tally.new.parts ≡ tally.old.parts }
{
    put_each(rt, alloc, hub, script.first, tally)?;
    put_each(rt, alloc, hub, script.second, tally)
}

// Writes and flushes each value of a key.
fn put_each<V: Vault, J: Start, N: Witness + Drop, R: Wait>(
    rt: &R,
    alloc: Global,
    hub: &Hub<V, J, N>,
    puts: KeyPuts,
    tally: &mut Tally<J>,
) -> Result<(), ThreadsError>
    requires { 0 < tally.old.parts }
    ensures { tally.new.parts ≡ tally.old.parts }
{
    for value in puts.values {
        put(rt, alloc, hub, puts.key, value, tally)?;
        match hub.flush(rt, tally) {
            Ok(_) => {}
            Err(why) => return Err(reason_of(why)),
        }
    }
    Ok(())
}

// Writes one key.
fn put<V: Vault, J: Start, N: Witness + Drop, R: Wait>(
    rt: &R,
    alloc: Global,
    hub: &Hub<V, J, N>,
    key: &'static [u8],
    value: &'static [u8],
    tally: &mut Tally<J>,
) -> Result<(), ThreadsError>
    requires { 0 < tally.old.parts }
    ensures { tally.new.parts ≡ tally.old.parts }
{
    let mut batch = Batch::new(alloc);
    if batch
        .push(Op::Put(Bytes::from_static(key), Bytes::from_static(value)))
        .is_err()
    {
        return Err(ThreadsError::OutOfMemory);
    }
    match hub.write(rt, &batch, tally) {
        Ok(_) => Ok(()),
        Err(why) => Err(reason_of(why)),
    }
}

// Nothing but memory can be short in a new store.
pub(super) fn reason_of(why: CoordError) -> ThreadsError {
    match why {
        CoordError::OutOfMemory => ThreadsError::OutOfMemory,
        _ => ThreadsError::ReadFault,
    }
}
