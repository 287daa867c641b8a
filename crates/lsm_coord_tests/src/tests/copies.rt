//! Calls and answers that allocate can be copied. That a copy is the same is a clause.

use bytes::Bytes;
use lsm_coord::{Answer, Call, ScanRange, SnapId};
use lsm_key::{FileNumber, Items, Op, VersionNumber};
use std::alloc::{AllocError, Global};
use std::test::Fail;

const SNAPSHOT: SnapId = SnapId {
    epoch: 1,
    number: 2,
};

fn write_of_a(alloc: Global) -> Result<Call, AllocError> {
    let (key, value) = (Bytes::from_static(b"a"), Bytes::from_static(b"1"));
    let ops = vec![in alloc; Op::Put(key, value)]?;
    Ok(Call::Write(Items::from_vec(ops)))
}

fn scan_to_c() -> Call {
    Call::Scan(ScanRange {
        lo: Bytes::from_static(b"a"),
        hi: Bytes::from_static(b"c"),
        at: None,
        limit: 10,
    })
}

// A call and its copy are let go before the exit.
fn copy_call(alloc: Global, call: Call) -> Result<(), AllocError> {
    let copy = call.copy(alloc);
    drop(call);
    drop(copy?);
    Ok(())
}

#[test]
fn calls_are_copied(rt: HostRuntime) -> Result<(), Fail> {
    let alloc = rt.alloc();
    copy_call(alloc, write_of_a(alloc)?)?;
    copy_call(alloc, scan_to_c())?;
    copy_call(alloc, Call::Get(Bytes::from_static(b"a"), Some(SNAPSHOT)))?;
    Ok(())
}

fn scan_of_a(alloc: Global) -> Result<Answer, AllocError> {
    let (key, value) = (Bytes::from_static(b"a"), Bytes::from_static(b"1"));
    let pairs = vec![in alloc; (key, value)]?;
    Ok(Answer::Scanned(Items::from_vec(pairs)))
}

fn trim_of_a_file(alloc: Global) -> Result<Answer, AllocError> {
    let files = vec![in alloc; FileNumber::new(1)]?;
    Ok(Answer::Trimmed(VersionNumber::new(2), Items::from_vec(files)))
}

fn copy_answer(alloc: Global, answer: Answer) -> Result<(), AllocError> {
    let copy = answer.copy(alloc);
    drop(answer);
    drop(copy?);
    Ok(())
}

#[test]
fn answers_are_copied(rt: HostRuntime) -> Result<(), Fail> {
    let alloc = rt.alloc();
    copy_answer(alloc, scan_of_a(alloc)?)?;
    copy_answer(alloc, trim_of_a_file(alloc)?)?;
    copy_answer(alloc, Answer::Got(Some(Bytes::from_static(b"1"))))?;
    Ok(())
}
