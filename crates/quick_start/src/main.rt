//! The quick start of the library: writes to a store in the folder `data`, reads from it, and keeps it for the next run.
#![tactic(auto)]

use anyhow::Error;
use bytes::Bytes;
use lsm::{Batch, FolderStore, Op, Options, SnapId, open};
use std::alloc::{AllocError, Global};

fn main(rt: HostRuntime) -> Result<(), Error> {
    let mut store = open(&rt, "data", Options::default())?;
    let before = write(rt.alloc(), &mut store)?;
    read(&rt, &mut store, before)?;
    store.flush()?; // into tables; the log has had all of it from each answer on
    Ok(())
}

fn write(alloc: Global, store: &mut FolderStore) -> Result<SnapId, Error> {
    store.put(b"apple", b"red")?;
    let before = store.snapshot()?;
    let mut batch = Batch::new(alloc);
    batch.push(Op::Delete(Bytes::from_static(b"apple")))?;
    batch.push(Op::Put(Bytes::from_static(b"pear"), Bytes::from_static(b"green")))?;
    store.write(&batch)?; // all of it or nothing
    Ok(before)
}

fn read(rt: &HostRuntime, store: &mut FolderStore, before: SnapId) -> Result<(), Error> {
    if let Some(value) = store.get(b"apple", Some(before))? {
        println!(rt; "apple was {}", text(rt.alloc(), &value)?)?;
    }
    for pair in store.range(b"a", b"z", None)? {
        let (key, value) = pair?;
        println!(rt;
            "{} is {}",
            text(rt.alloc(), &key)?,
            text(rt.alloc(), &value)?
        )?;
    }
    Ok(())
}

fn text(alloc: Global, bytes: &Bytes) -> Result<String, AllocError> {
    String::from_utf8_lossy(alloc, bytes.as_slice())
}
