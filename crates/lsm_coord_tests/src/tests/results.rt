//! Results that are no outputs of their job, and then one that is.

use super::table::{EntryFields, TableFields, bytes_of};
use bytes::Bytes;
use lsm_claim::{Claim, JobId};
use lsm_coord::{Coord, CoordError, Desk, Install, InstallError, Seat};
use lsm_edit::FileMeta;
use lsm_key::{Batch, DEFAULT_BLOCK, Items, KeyError, Limits, Op};
use lsm_msg::{JobResult, NodeIndex};
use lsm_vault::{MemoryVault, Vault};
use std::alloc::{AllocError, Global};
use std::process::Abort;
use std::test::Fail;

/// What became of a result.
#[derive(Clone, Copy, Debug, PartialEq)]
enum Became {
    /// Its tables are in the version of this number, as so many new files.
    Installed(u64, usize),
    Kept(InstallError),
    Other,
}

const DELETE_A: EntryFields = EntryFields {
    key: b"a",
    sequence: 2,
    kind: 0,
    value: b"",
};

const PUT_A: EntryFields = EntryFields {
    key: b"a",
    sequence: 1,
    kind: 1,
    value: b"1",
};

const PUT_B: EntryFields = EntryFields {
    key: b"b",
    sequence: 1,
    kind: 1,
    value: b"1",
};

/// The entries of both files, as a merge that drops none has them.
pub(crate) const MERGED: TableFields = TableFields {
    version: 1,
    target: 4_096,
    entries: &[DELETE_A, PUT_A],
    missing: 0,
};

const CUT: TableFields = TableFields {
    version: 1,
    target: 4_096,
    entries: &[DELETE_A, PUT_A],
    missing: 1,
};

const OTHER_TARGET: TableFields = TableFields {
    version: 1,
    target: 16_777_216,
    entries: &[DELETE_A, PUT_A],
    missing: 0,
};

/// In version 2, which no key of it needs.
const NEEDLESS: TableFields = TableFields {
    version: 2,
    target: 4_096,
    entries: &[DELETE_A, PUT_A],
    missing: 0,
};

const OF_B: TableFields = TableFields {
    version: 1,
    target: 4_096,
    entries: &[PUT_B],
    missing: 0,
};

const BAD: Became = Became::Kept(InstallError::BadResult);

/// Version 4 has no new file.
const DONE: Became = Became::Installed(4, 0);

/// A result of the job of both files: the number that it gives as the job's, its tables, and what becomes of it.
#[derive(Clone, Copy)]
struct Case {
    job: u64,
    tables: &'static [TableFields],
    becomes: Became,
}

/// The right one is that of a merge without snapshots, which keeps nothing.
const RESULTS: [Case; 7] = [
    Case {
        job: 1,
        tables: &[OF_B],
        becomes: BAD,
    },
    Case {
        job: 1,
        tables: &[CUT],
        becomes: BAD,
    },
    Case {
        job: 1,
        tables: &[MERGED, MERGED],
        becomes: BAD,
    },
    Case {
        job: 1,
        tables: &[OTHER_TARGET],
        becomes: BAD,
    },
    Case {
        job: 1,
        tables: &[NEEDLESS],
        becomes: BAD,
    },
    Case {
        job: 2,
        tables: &[],
        becomes: Became::Kept(InstallError::WrongJob),
    },
    Case {
        job: 1,
        tables: &[],
        becomes: DONE,
    },
];

// The store, its desk and each result are owned by functions of one exit behind them: each exit of a function is proved with all that it
// owns.

/// Writes an operation and flushes it.
pub(crate) fn flush<V: Vault>(alloc: Global, coord: &mut Coord<V>, op: Op) -> Result<(), Fail> {
    let batch = batch_of(alloc, op)?;
    let written = write(coord, &batch);
    drop(batch);
    Ok(written?)
}

fn batch_of(alloc: Global, op: Op) -> Result<Batch, KeyError> {
    let mut batch = Batch::new(alloc);
    match batch.push(op) {
        Ok(()) => Ok(batch),
        Err(why) => Err(why),
    }
}

fn write<V: Vault>(coord: &mut Coord<V>, batch: &Batch) -> Result<(), CoordError> {
    coord.write(batch)?;
    coord.flush()?;
    Ok(())
}

/// Makes two files: a put of a and its deletion.
fn fill<V: Vault>(alloc: Global, coord: &mut Coord<V>) -> Result<(), Fail> {
    let key = Bytes::from_static(b"a");
    flush(alloc, coord, Op::Put(key, Bytes::from_static(b"1")))?;
    flush(alloc, coord, Op::Delete(Bytes::from_static(b"a")))
}

/// The first dispatcher.
fn first() -> Result<NodeIndex, Fail> {
    Ok(NodeIndex::new(1).ok_or("no such node")?)
}

/// Lets a dispatcher hold a claim. One that it held before is given back.
fn hold<V: Vault>(coord: &mut Coord<V>, desk: &mut Desk, index: NodeIndex, claim: Claim) {
    match desk.hold(index, claim) {
        None => {}
        Some(before) => {
            coord.give_back(before);
        }
    }
}

/// Picks a job, whose claim the dispatcher holds then.
fn pick<V: Vault>(
    coord: &mut Coord<V>,
    desk: &mut Desk,
    index: NodeIndex,
) -> Result<(), CoordError> {
    match coord.pick()? {
        None => {}
        Some((claim, _job)) => hold(coord, desk, index, claim),
    }
    Ok(())
}

/// Installs a result under the claim that the dispatcher holds, which it holds again if that is handed back.
fn install<V: Vault>(
    coord: &mut Coord<V>,
    desk: &mut Desk,
    index: NodeIndex,
    made: &JobResult,
) -> Became {
    let Some(claim) = desk.take(index) else {
        return Became::Other;
    };
    match coord.install(claim, made) {
        Install::Done(number, files) => Became::Installed(number.number(), files.len()),
        Install::Kept(claim, why) => {
            hold(coord, desk, index, claim);
            Became::Kept(why)
        }
        Install::Stale(_job, _epoch) => Became::Other,
    }
}

/// The result of a job of this number with these tables.
pub(crate) fn result_of(
    alloc: Global,
    number: u64,
    tables: &[TableFields],
) -> Result<JobResult, AllocError> {
    let mut list = Items::new(alloc);
    for table in tables {
        list.push(bytes_of(alloc, table)?)?;
    }
    let job = JobId { epoch: 1, number };
    Ok(JobResult { job, tables: list })
}

fn add_thousand(tables: &mut Items<Bytes>, table: &Bytes) -> Result<(), AllocError> {
    for _ in 0..1_000 {
        tables.push(table.clone()?)?;
    }
    Ok(())
}

/// A thousand tables, and one of 4 MB that is none.
fn add_large(alloc: Global, tables: &mut Items<Bytes>) -> Result<(), Fail> {
    let merged = bytes_of(alloc, &MERGED)?;
    add_thousand(tables, &merged)?;
    let zeros = vec![in alloc; 0u8; 4_000_000]?;
    tables.push(Bytes::from_vec(zeros)?)?;
    Ok(())
}

/// Whether there is a file of this number at a place of a listing.
fn is_file(files: &[FileMeta], place: usize, number: u64) -> bool {
    files.get(place).is_some_and(|file| file.number == number)
}

/// Whether the current version is that of the two flushes: both files are in it, and no other.
fn shows_both<V: Vault>(coord: &Coord<V>) -> bool {
    let listing = coord.show();
    let has_both = is_file(listing.files, 0, 1) && is_file(listing.files, 1, 2);
    listing.number.number() == 3
        && listing.flushed.number() == 2
        && listing.files.len() == 2
        && has_both
}

/// What becomes of a result of the first dispatcher's job, if memory suffices, and whether the version is that of the two flushes then.
fn outcome<V: Vault>(
    coord: &mut Coord<V>,
    desk: &mut Desk,
    index: NodeIndex,
    made: JobResult,
) -> Result<(Became, bool), AllocError> {
    let became = install(coord, desk, index, &made);
    drop(made);
    if became == Became::Kept(InstallError::OutOfMemory) {
        return Err(AllocError);
    }
    Ok((became, shows_both(coord)))
}

/// A result of the first job that no merge of two files gives.
fn large_result(alloc: Global) -> Result<JobResult, Fail> {
    let mut made = result_of(alloc, 1, &[])?;
    match add_large(alloc, &mut made.tables) {
        Ok(()) => Ok(made),
        Err(why) => Err(why),
    }
}

fn see<V: Vault>(
    rt: &impl Abort,
    alloc: Global,
    coord: &mut Coord<V>,
    desk: &mut Desk,
) -> Result<(), Fail> {
    let index = first()?;
    fill(alloc, coord)?;
    pick(coord, desk, index)?;
    let (kept, is_left) = outcome(coord, desk, index, large_result(alloc)?)?;
    assert!(rt; kept == BAD && is_left, "{kept:?} of a large one");
    for case in RESULTS {
        let made = result_of(alloc, case.job, case.tables)?;
        let (became, is_left) = outcome(coord, desk, index, made)?;
        let wanted = case.becomes;
        assert!(rt; became == wanted, "{wanted:?}, and not {became:?}");
        assert!(rt; is_left || became == DONE, "{became:?} changed the version");
    }
    Ok(())
}

fn see_in<V: Vault>(
    rt: &impl Abort,
    alloc: Global,
    seat: &mut Seat<V>,
    desk: &mut Desk,
) -> Result<(), Fail> {
    match seat {
        Seat::Up(coord) => see(rt, alloc, coord, desk),
        Seat::Down(_, _, _) => Err("no coordinator".into()),
    }
}

#[test]
fn results_that_are_no_outputs_are_kept_back(rt: HostRuntime) -> Result<(), Fail> {
    let alloc = rt.alloc();
    let limits = Limits::new(2, 10_485_760, DEFAULT_BLOCK).ok_or("no limits")?;
    let Ok(coord) = Coord::open(alloc, MemoryVault::new(alloc), limits) else {
        return Err(AllocError.into());
    };
    let mut seat = Seat::Up(coord);
    let mut desk = Desk::new();
    let seen = see_in(&rt, alloc, &mut seat, &mut desk);
    desk.close(&mut seat);
    seen
}
