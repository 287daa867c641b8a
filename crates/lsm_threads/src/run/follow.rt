//! A follower of a run with a reader, which reads the keys of the script once the follower has come to the version.

ghost use Rattle.std.specs.Prelude.{◌≡◌, ◌≤◌, [], All, IfOk};

use super::{FollowerRead, ThreadsError, reason_of_ending};
use crate::coming::come_to;
use crate::ending::Ending;
use bytes::Bytes;
use lsm_follow::Follower;
use lsm_key::VersionNumber;
use lsm_msg::NodeIndex;
use lsm_nodes::{Hub, Start, Witness};
use lsm_readers::{FollowerReader, LogName, NewLog, Publisher, ReadError, ReadersError, readers};
use lsm_vault::Vault;
use std::alloc::Global;
use std::sync::Wait;
use std::thread::Threads;

// The reads of these keys by a follower that has come to a version.
pub(super) fn follow<
    V: Vault + Send,
    J: Start + LogName + Send + Sync,
    N: Witness + Drop + Send,
    R: Threads + Wait + Sync,
>(
    rt: &R,
    alloc: Global,
    hub: &Hub<V, J, N>,
    keys: &[&'static [u8]],
    goal: VersionNumber,
    log: NewLog,
) -> Result<Vec<FollowerRead>, ThreadsError>
    requires { log ≡ J.log }
    ensures { IfOk result (λ reads. All (λ read. goal ≤ read.at) reads.items) }
{
    let Some(index) = NodeIndex::new(1) else {
        return Err(ThreadsError::ReadFault);
    };
    let (writer, mut reader) = writer_and_reader::<J, R>(rt, alloc, log)?;
    let writer = published_to(rt, alloc, hub, index, writer, goal)?;
    reader.learn(writer.tell());
    let reads = reads_of(alloc, &mut reader, keys, goal);
    drop(reader);
    drop(writer);
    reads
}

// A writer that has published nothing, and its reader.
fn writer_and_reader<'a, J: LogName, R: Wait>(
    rt: &'a R,
    alloc: Global,
    log: NewLog,
) -> Result<(Publisher<J, &'a R>, FollowerReader<J>), ThreadsError>
    requires { log ≡ J.log }
    ensures { IfOk result (λ r. r.0.taken ≡ []) }
{
    let (writer, mut all) = match readers::<J, &R>(alloc, rt, log, 1) {
        Ok(made) => made,
        Err(ReadersError::OutOfMemory) => return Err(ThreadsError::OutOfMemory),
        Err(ReadersError::NoReader) => return Err(ThreadsError::ReadFault),
    };
    let last = all.pop();
    drop(all);
    match last {
        Some(reader) => Ok((writer, reader)),
        None => {
            drop(writer);
            Err(ThreadsError::ReadFault)
        }
    }
}

// The writer of a new follower that has come to a version, which readers are shown.
#[tactic(auto, using(crate::proofs::InStep::in_step_new))]
fn published_to<
    'a,
    V: Vault + Send,
    J: Start + LogName + Send + Sync,
    N: Witness + Drop + Send,
    R: Threads + Wait + Sync,
>(
    rt: &'a R,
    alloc: Global,
    hub: &Hub<V, J, N>,
    index: NodeIndex,
    writer: Publisher<J, &'a R>,
    goal: VersionNumber,
) -> Result<Publisher<J, &'a R>, ThreadsError>
    requires { writer.taken ≡ [] }
{
    let follower = Follower::new(alloc, index);
    match come_to(rt, alloc, hub, follower, writer, goal) {
        Ok((follower, writer, ending)) => {
            drop(follower);
            if ending != Ending::AtGoal {
                drop(writer);
                return Err(reason_of_ending(ending));
            }
            Ok(writer)
        }
        Err(both) => {
            drop(both);
            Err(ThreadsError::OutOfMemory)
        }
    }
}

// The reads of each key, at a version or a later one.
fn reads_of<J: LogName>(
    alloc: Global,
    reader: &mut FollowerReader<J>,
    keys: &[&'static [u8]],
    least: VersionNumber,
) -> Result<Vec<FollowerRead>, ThreadsError>
    ensures { IfOk result (λ reads. All (λ read. least ≤ read.at) reads.items) }
{
    let mut reads = Vec::new(alloc);
    for key in keys {
        let read = read(reader, *key, least)?;
        if reads.push(read).is_err() {
            return Err(ThreadsError::OutOfMemory);
        }
    }
    Ok(reads)
}

// A read at a version or a later one. An earlier one means that there was no memory to publish it.
fn read<J: LogName>(
    reader: &mut FollowerReader<J>,
    key: &'static [u8],
    least: VersionNumber,
) -> Result<FollowerRead, ThreadsError>
    ensures { IfOk result (λ read. least ≤ read.at) }
{
    let (at, found) = match reader.get(key) {
        Ok(answer) => answer,
        Err(ReadError::OutOfMemory) => return Err(ThreadsError::OutOfMemory),
        Err(ReadError::NotEntered) => return Err(ThreadsError::ReadFault),
    };
    if at.number() < least.number() {
        return Err(ThreadsError::OutOfMemory);
    }
    let value = match found {
        Some(found) => Some(shared(found)?),
        None => None,
    };
    Ok(FollowerRead { key, at, value })
}

fn shared(value: Vec<u8>) -> Result<Bytes, ThreadsError> {
    match Bytes::from_vec(value) {
        Ok(value) => Ok(value),
        Err(_) => Err(ThreadsError::OutOfMemory),
    }
}
