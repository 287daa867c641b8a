//! Calls of other crates beside `lsm_cache` that no program makes: a log record and a base that were read are written again, and the entries of a
//! range of a memtable.

use bytes::Bytes;
use lsm_edit::{decode_base, decode_log, encode_base, encode_log};
use lsm_key::{Batch, Entry, MAX_MEMTABLE_WEIGHT, Op, Seq};
use lsm_mem::Memtable;
use std::alloc::Global;
use std::test::Fail;

/// The record of `put a 1` at sequence 1, and that of a freeze at the last one.
const RECORDS: [&[u8]; 2] = [
    b"\x01\0\0\0\0\0\0\0\x01\0\0\0\x01\x01\0\x01a\0\0\0\x011",
    b"\x02\0\xff\xff\xff\xff\xff\xff\xff",
];

/// What is written of the record that was read.
fn written(alloc: Global, record: &'static [u8]) -> Result<Bytes, Fail> {
    let logged = decode_log(alloc, Bytes::from_static(record))?;
    let written = encode_log(alloc, &logged);
    drop(logged);
    Ok(written?)
}

#[test]
fn a_record_is_written_as_it_was(rt: HostRuntime) -> Result<(), Fail> {
    for record in RECORDS {
        let written = written(rt.alloc(), record)?;
        assert!(rt; written.as_slice() == record);
    }
    Ok(())
}

/// Version 2 of a store whose one flush wrote one put of the key a, as a base.
const BASE: &[u8] =
    b"\0\0\0\0\0\0\0\x02\0\0\0\0\0\0\0\x01\0\0\0\0\0\0\0\x01\0\0\0\0\0\0\0\x02\0\0\0\x01\0\0\0\0\0\0\0\x01\0\0\x01a\0\x01a\0\0\0\x30\0\0\0\x01";

/// The number of the version of the base, how many files it has, and what is written of it.
fn version(alloc: Global) -> Result<(u64, usize, Bytes), Fail> {
    let version = decode_base(alloc, Bytes::from_static(BASE))?;
    let (number, files) = (version.number(), version.files().len());
    let written = encode_base(alloc, &version);
    drop(version);
    Ok((number, files, written?))
}

#[test]
fn a_base_is_written_as_it_was(rt: HostRuntime) -> Result<(), Fail> {
    let (number, files, written) = version(rt.alloc())?;
    assert!(rt; (number, files) == (2, 1));
    assert!(rt; written.as_slice() == BASE);
    Ok(())
}

/// Puts of b and of a, and a deletion of b.
fn batch(alloc: Global) -> Result<Batch, Fail> {
    let mut batch = Batch::new(alloc);
    batch.push(Op::Put(Bytes::from_static(b"b"), Bytes::from_static(b"1")))?;
    batch.push(Op::Put(Bytes::from_static(b"a"), Bytes::from_static(b"2")))?;
    batch.push(Op::Delete(Bytes::from_static(b"b")))?;
    Ok(batch)
}

/// Applies a batch from sequence 1 on.
fn apply(memtable: &mut Memtable, batch: &Batch) -> Result<(), Fail> {
    let newer = memtable.last_seq().number() < 1;
    let room = batch.weight() <= MAX_MEMTABLE_WEIGHT - memtable.weight();
    let fits = 1 <= Seq::MAX - batch.ops().len() as u64;
    if !newer || !room || !fits {
        return Err(Fail::from("no batch for this memtable"));
    }
    memtable.apply(Seq::new(1), batch)?;
    Ok(())
}

/// The sequences of entries, as digits.
fn sequences(entries: &[Entry]) -> u64 {
    let mut digits = 0u64;
    for entry in entries {
        digits = digits
            .saturating_mul(10)
            .saturating_add(entry.ikey.seq.number());
    }
    digits
}

/// The sequences of the entries of two ranges of a memtable.
fn ranges(alloc: Global) -> Result<(u64, u64), Fail> {
    let batch = batch(alloc)?;
    let mut memtable = Memtable::new(alloc);
    apply(&mut memtable, &batch)?;
    let all = memtable.range(b"", b"c");
    let first = memtable.range(b"a", b"b");
    drop(memtable);
    let (all, first) = (all?, first?);
    Ok((sequences(&all), sequences(&first)))
}

#[test]
fn a_range_of_a_memtable_leaves_out_its_end(rt: HostRuntime) -> Result<(), Fail> {
    let (all, first) = ranges(rt.alloc())?;
    assert_eq!(rt; all, 231);
    assert_eq!(rt; first, 2);
    Ok(())
}
