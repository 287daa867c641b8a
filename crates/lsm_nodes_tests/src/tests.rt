//! What the tests share: a store of four files, and a link that merges by itself.

ghost use Rattle.std.specs.Prelude.{◌≡◌, ◌<◌, ◌≤◌, IfSome, []};

mod away;
mod calls;
mod claims;
mod memory;
mod returns;
mod texts;

use bytes::Bytes;
use lsm_coord::Coord;
use lsm_key::{Batch, DEFAULT_BASE, DEFAULT_BLOCK, FileNumber, Items, Limits, Op};
use lsm_merge::merge;
use lsm_msg::{Body, Job, JobResult, Message, NodeIndex};
use lsm_nodes::{Hub, Link, Start, Tally, Witness, dispatch};
use lsm_table::Table;
use lsm_vault::{MemoryVault, Vault};
use std::alloc::Global;
use std::sync::Wait;
use std::sync::atomic::{AtomicBool, Ordering};
use std::thread;

// Each becomes a file.
const WRITES: [(&[u8], &[u8]); 4] = [(b"a", b"1"), (b"a", b"2"), (b"m", b"1"), (b"m", b"2")];

// How often the first job looks whether the second one is answered.
const TURNS: u64 = 10_000_000;

/// A link that merges by itself. Job 1 comes back only after job 2 is answered, so both have to be away at once.
#[derive(Drop)]
struct Meeting<'a> {
    alloc: Global,
    tables: &'a [(u64, Bytes)],
    answered: &'a AtomicBool,
}

impl Link for Meeting<'_> {
    fn carry(&mut self, job: Job) -> Option<JobResult> {
        let made = merged(self.alloc, self.tables, &job);
        if job.id().number == 2 {
            self.answered.store(true, Ordering::SeqCst);
            return made;
        }
        if !is_soon(self.answered) {
            drop(made);
            return None;
        }
        made
    }
}

// Whether the second job is answered before so many turns.
fn is_soon(answered: &AtomicBool) -> bool {
    for _turn in 0..TURNS {
        if answered.load(Ordering::SeqCst) {
            return true;
        }
        thread::yield_now();
    }
    false
}

// The merge of a job's inputs.
fn merged(alloc: Global, tables: &[(u64, Bytes)], job: &Job) -> Option<JobResult> {
    let mut inputs = Vec::new(alloc);
    let outputs = match add_inputs(alloc, tables, job, &mut inputs) {
        Some(()) => merge(alloc, inputs.as_slice(), job).ok(),
        None => None,
    };
    drop(inputs);
    Some(JobResult {
        job: job.id(),
        tables: Items::from_vec(outputs?),
    })
}

fn add_inputs(
    alloc: Global,
    tables: &[(u64, Bytes)],
    job: &Job,
    inputs: &mut Vec<Table>,
) -> Option<()> {
    for file in job.inputs() {
        let table = table_of(alloc, tables, file.number)?;
        inputs.push(table).ok()?;
    }
    Some(())
}

fn table_of(alloc: Global, tables: &[(u64, Bytes)], number: u64) -> Option<Table> {
    for (file, bytes) in tables {
        if *file == number {
            let shared = bytes.clone().ok()?;
            return Table::open(alloc, shared).ok();
        }
    }
    None
}

// The bytes of the four files.
fn tables_of<V: Vault, J: Start, N: Witness + Drop, R: Wait>(
    rt: &R,
    alloc: Global,
    hub: &Hub<V, J, N>,
) -> Option<Vec<(u64, Bytes)>> {
    let worker = NodeIndex::new(1)?;
    let mut tables = Vec::new(alloc);
    match add_tables(rt, hub, worker, &mut tables) {
        Some(()) => Some(tables),
        None => None,
    }
}

fn add_tables<V: Vault, J: Start, N: Witness + Drop, R: Wait>(
    rt: &R,
    hub: &Hub<V, J, N>,
    worker: NodeIndex,
    tables: &mut Vec<(u64, Bytes)>,
) -> Option<()> {
    for number in 1..5u64 {
        let table = fetched(rt, hub, worker, number)?;
        tables.push((number, table)).ok()?;
    }
    Some(())
}

// The bytes of a file, as a worker gets them.
fn fetched<V: Vault, J: Start, N: Witness + Drop, R: Wait>(
    rt: &R,
    hub: &Hub<V, J, N>,
    worker: NodeIndex,
    number: u64,
) -> Option<Bytes> {
    let question = Message::from_worker(worker, Body::Fetch(FileNumber::new(number)));
    let answer = hub.serve(rt, &question);
    drop(question);
    match answer {
        Ok(Some(answer)) => table_in(&answer),
        _ => None,
    }
}

fn table_in(answer: &Message) -> Option<Bytes> {
    match &answer.body {
        Body::Table(_file, bytes) => bytes.clone().ok(),
        _ => None,
    }
}

// Four files.
fn fill<V: Vault, J: Start, N: Witness + Drop, R: Wait>(
    rt: &R,
    alloc: Global,
    hub: &Hub<V, J, N>,
    tally: &mut Tally<J>,
) -> Option<()>
    requires { 0 < tally.old.parts }
    ensures { tally.new.parts ≡ tally.old.parts }
{
    for (key, value) in WRITES {
        put(rt, alloc, hub, tally, key, value)?;
    }
    Some(())
}

// A write of one key, and its flush.
fn put<V: Vault, J: Start, N: Witness + Drop, R: Wait>(
    rt: &R,
    alloc: Global,
    hub: &Hub<V, J, N>,
    tally: &mut Tally<J>,
    key: &'static [u8],
    value: &'static [u8],
) -> Option<()>
    requires { 0 < tally.old.parts }
    ensures { tally.new.parts ≡ tally.old.parts }
{
    let batch = batch_of(alloc, key, value)?;
    let written = hub.write(rt, &batch, tally);
    drop(batch);
    written.ok()?;
    hub.flush(rt, tally).ok()?;
    Some(())
}

fn batch_of(alloc: Global, key: &'static [u8], value: &'static [u8]) -> Option<Batch> {
    let mut batch = Batch::new(alloc);
    match batch.push(Op::Put(Bytes::from_static(key), Bytes::from_static(value))) {
        Ok(()) => Some(batch),
        Err(_) => None,
    }
}

// A dispatcher of one round.
fn one_round<V: Vault, J: Start, N: Witness + Drop, R: Wait>(
    rt: &R,
    hub: &Hub<V, J, N>,
    link: &mut Meeting<'_>,
    tally: Tally<J>,
) -> Tally<J>
    requires { (tally.parts ≡ 1) × (tally.picked ≡ 0) }
    ensures { (result.parts ≡ 1) × (result.picked ≤ 1) }
{
    let (tally, _end) = dispatch(rt, hub, link, tally);
    tally
}

// A new store.
fn new_store(alloc: Global) -> Option<Coord<MemoryVault>>
    ensures { IfSome result (λ c. c.book.live ≡ []) }
{
    let limits = Limits::new(2, DEFAULT_BASE, DEFAULT_BLOCK)?;
    match Coord::open(alloc, MemoryVault::new(alloc), limits) {
        Ok(coord) => Some(coord),
        Err(_) => None,
    }
}
