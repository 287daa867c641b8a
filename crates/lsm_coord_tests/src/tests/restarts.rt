//! Openings over what a vault has: each write that was answered is found after a restart, and none that was refused, whichever call of
//! the vault fails; a sync that is refused; a log without which a vault was written; and logs that are bad.

use bytes::Bytes;
use lsm_coord::{Coord, CoordError, Seat};
use lsm_key::{Batch, DEFAULT_BLOCK, FileNumber, KeyError, Limits, Op};
use lsm_vault::{FusedVault, MemoryVault, Vault, VaultError};
use lsm_versions::OpenError;
use std::alloc::Global;
use std::test::Fail;

/// The first edit of a store: version 1, of the first epoch.
const EPOCH: &[u8] =
    b"\0\0\0\0\0\0\0\x01\x03\0\0\0\0\0\0\0\0\0\0\0\0\0\0\0\x01\0\0\0\0\0\0\0\x01\0\0\0\0\0\0\0\0";

/// The flush after it, of one put of the key a into table 1.
const FLUSH: &[u8] =
    b"\0\0\0\0\0\0\0\x02\x01\0\0\0\0\0\0\0\x01\0\0\0\0\0\0\0\x01\0\0\0\0\0\0\0\x02\0\0\0\0\0\0\0\x01\0\0\0\0\0\0\0\x01\0\0\x01a\0\x01a\0\0\0\x30\0\0\0\x01";

/// That table.
const OF_A: &[u8] =
    b"LSMT\x01\0\0\x10\0\0\0\0\x01\0\0\0\x01\0\0\0\x10\0\x01a\0\0\0\0\0\0\x01\x01\0\x01a\0\0\0\0\0\0\x01\x01\0\0\0\x011";

/// The record of that put.
const FIRST: &[u8] = b"\x01\0\0\0\0\0\0\0\x01\0\0\0\x01\x01\0\x01a\0\0\0\x011";

/// Puts of b at the sequences after it.
const SECOND: &[u8] = b"\x01\0\0\0\0\0\0\0\x02\0\0\0\x01\x01\0\x01b\0\0\0\x012";

const THIRD: &[u8] = b"\x01\0\0\0\0\0\0\0\x03\0\0\0\x01\x01\0\x01b\0\0\0\x013";

const FOURTH: &[u8] = b"\x01\0\0\0\0\0\0\0\x04\0\0\0\x01\x01\0\x01b\0\0\0\x014";

/// The first two puts as one batch.
const BOTH: &[u8] = b"\x01\0\0\0\0\0\0\0\x01\0\0\0\x02\x01\0\x01a\0\0\0\x011\x01\0\x01b\0\0\0\x012";

/// Freezes at sequences 2 and 3.
const FREEZE_2: &[u8] = b"\x02\0\0\0\0\0\0\0\x02";

const FREEZE_3: &[u8] = b"\x02\0\0\0\0\0\0\0\x03";

/// The second put without its last byte.
const CUT: &[u8] = b"\x01\0\0\0\0\0\0\0\x02\0\0\0\x01\x01\0\x01b\0\0\0\x01";

const EMPTY: &[u8] = b"";

/// More calls than an opening, a write and a restart ask of their vault.
const MOST: u64 = 64;

// Each store is owned by one function, which ends it before its only exit behind that: each exit of a function is proved with all that it
// owns. The calls of a store are made by functions that promise nothing, so its promises are no part of the proofs above them.

/// What an opening answers.
fn opened<V: Vault>(alloc: Global, vault: V, limits: Limits) -> Result<Coord<V>, (OpenError, V)> {
    Coord::open(alloc, vault, limits)
}

fn limits() -> Result<Limits, Fail> {
    Ok(Limits::new(2, 10_485_760, DEFAULT_BLOCK).ok_or("no limits")?)
}

/// A store over a vault. It is opened once more if the device fails.
fn open<V: Vault + Drop>(alloc: Global, vault: V, limits: Limits) -> Result<Coord<V>, OpenError> {
    match opened(alloc, vault, limits) {
        Ok(coord) => Ok(coord),
        Err((OpenError::Device, vault)) => match opened(alloc, vault, limits) {
            Ok(coord) => Ok(coord),
            Err((why, _vault)) => Err(why),
        },
        Err((why, _vault)) => Err(why),
    }
}

/// A put of the key a.
fn put_of_a(alloc: Global) -> Result<Batch, KeyError> {
    let mut batch = Batch::new(alloc);
    match batch.push(Op::Put(Bytes::from_static(b"a"), Bytes::from_static(b"1"))) {
        Ok(()) => Ok(batch),
        Err(why) => Err(why),
    }
}

/// Writes a batch. Says whether it was answered, or refused since the device failed.
fn write<V: Vault>(coord: &mut Coord<V>, batch: &Batch) -> Result<bool, CoordError> {
    match coord.write(batch) {
        Ok(_seqs) => Ok(true),
        Err(CoordError::Device) => Ok(false),
        Err(why) => Err(why),
    }
}

fn restarted<V: Vault>(alloc: Global, seat: Seat<V>) -> (Seat<V>, Result<(), OpenError>) {
    seat.restart(alloc)
}

/// A restart, which is done once more if the device fails.
fn restart<V: Vault>(alloc: Global, seat: Seat<V>) -> (Seat<V>, Result<(), OpenError>) {
    let (seat, opened) = restarted(alloc, seat);
    match opened {
        Err(OpenError::Device) => restarted(alloc, seat),
        opened => (seat, opened),
    }
}

/// Whether the key has this value.
fn has_value<V: Vault>(
    coord: &mut Coord<V>,
    key: &[u8],
    wanted: &[u8],
) -> Result<bool, CoordError> {
    match coord.get(key, None)? {
        Some(value) => Ok(value.as_slice() == wanted),
        None => Ok(false),
    }
}

/// Whether the key a has the value that was put. There is none where there is no coordinator.
fn is_found<V: Vault>(seat: &mut Seat<V>) -> Result<bool, CoordError> {
    match seat {
        Seat::Up(coord) => has_value(coord, b"a", b"1"),
        Seat::Down(_, _, _) => Ok(false),
    }
}

/// A put and a restart over a vault: whether the put was answered, whether it is found, and whether a call of the vault failed.
fn became<V: Vault + Drop>(
    alloc: Global,
    mut coord: Coord<V>,
    batch: &Batch,
) -> Result<(bool, bool, bool), Fail> {
    let answered = write(&mut coord, batch);
    let (mut seat, restarted) = restart(alloc, Seat::Up(coord));
    let found = is_found(&mut seat);
    let failures = seat.close().failures();
    restarted?;
    Ok((answered?, found?, failures > 0))
}

/// The same, if the call after so many fails.
fn fails(alloc: Global, calls: u64) -> Result<(bool, bool, bool), Fail> {
    let limits = limits()?;
    let batch = put_of_a(alloc)?;
    let vault = FusedVault::new(MemoryVault::new(alloc), calls);
    let coord = open(alloc, vault, limits)?;
    became(alloc, coord, &batch)
}

// What was answered is found, and what was refused is not.
#[test]
fn a_write_is_found_after_a_restart_exactly_if_it_was_answered(
    rt: HostRuntime,
) -> Result<(), Fail> {
    for calls in 0..MOST {
        let (is_answered, is_found, failed) = fails(rt.alloc(), calls)?;
        assert!(rt; is_found == is_answered, "{calls}");
        if !failed {
            assert!(rt; calls > 8, "only {calls} calls");
            return Ok(());
        }
    }
    Err("a call fails each time".into())
}

fn sync<V: Vault>(coord: &mut Coord<V>) -> bool {
    coord.sync_log().is_ok()
}

/// How many records the log has.
fn records<V: Vault>(vault: &mut V) -> Result<usize, VaultError> {
    Ok(vault.log()?.len())
}

/// A put and two syncs: whether the put was answered, whether it is found between the syncs, how they ended, and how many records the log
/// has then.
fn synced<V: Vault + Drop>(
    mut coord: Coord<V>,
    batch: &Batch,
) -> Result<(bool, bool, bool, bool, usize), Fail> {
    let answered = write(&mut coord, batch);
    let first = sync(&mut coord);
    let found = has_value(&mut coord, b"a", b"1");
    let second = sync(&mut coord);
    let mut vault = coord.close();
    let records = records(&mut vault);
    drop(vault);
    Ok((answered?, found?, first, second, records?))
}

// An opening asks the vault five times, and a put once.
#[test]
fn a_refused_sync_takes_no_write(rt: HostRuntime) -> Result<(), Fail> {
    let limits = limits()?;
    let batch = put_of_a(rt.alloc())?;
    let vault = FusedVault::new(MemoryVault::new(rt.alloc()), 6);
    let coord = open(rt.alloc(), vault, limits)?;
    let (is_answered, is_found, first, second, records) = synced(coord, &batch)?;
    assert!(rt; is_answered && is_found);
    assert!(rt; !first && second);
    assert!(rt; records == 1, "{records} records");
    Ok(())
}

/// Gives a vault the edits of one flush, its table, and a log of these records.
fn fill<V: Vault>(vault: &mut V, log: &[&'static [u8]]) -> Result<(), VaultError> {
    vault.append_edit(Bytes::from_static(EPOCH))?;
    vault.append_edit(Bytes::from_static(FLUSH))?;
    vault.put_table(FileNumber::new(1), Bytes::from_static(OF_A))?;
    for record in log {
        vault.append_log(Bytes::from_static(record))?;
    }
    Ok(())
}

/// A vault with these.
fn vault_of(alloc: Global, log: &[&'static [u8]]) -> Result<MemoryVault, VaultError> {
    let mut vault = MemoryVault::new(alloc);
    match fill(&mut vault, log) {
        Ok(()) => Ok(vault),
        Err(why) => Err(why),
    }
}

/// What a store over a log says.
#[derive(Clone, Copy)]
struct Seen {
    /// Its version, its epoch and its last sequence.
    shown: (u64, u64, u64),
    /// Whether a key has a value.
    found: bool,
    /// The last sequences of two flushes.
    flushed: (u64, u64),
    /// How many records its vault has at its end.
    records: usize,
}

fn shown<V: Vault>(coord: &Coord<V>) -> (u64, u64, u64) {
    let number = coord.show().number.number();
    (number, coord.epoch(), coord.latest_sequence().number())
}

/// The last sequence of a flush.
fn flush<V: Vault>(coord: &mut Coord<V>) -> Result<u64, CoordError> {
    let flushed = coord.flush()?;
    Ok(flushed.seq.number())
}

fn flush_twice<V: Vault>(coord: &mut Coord<V>) -> Result<(u64, u64), CoordError> {
    let first = flush(coord)?;
    let second = flush(coord)?;
    Ok((first, second))
}

fn see_store<V: Vault + Drop>(
    mut coord: Coord<V>,
    key: &[u8],
    value: &[u8],
    flushes: bool,
) -> Result<Seen, Fail> {
    let shown = shown(&coord);
    let found = has_value(&mut coord, key, value);
    let flushed = if flushes {
        flush_twice(&mut coord)
    } else {
        Ok((0, 0))
    };
    let mut vault = coord.close();
    let records = records(&mut vault);
    drop(vault);
    Ok(Seen {
        shown,
        found: found?,
        flushed: flushed?,
        records: records?,
    })
}

/// The same of a store over a vault with these records.
fn seen_over(
    alloc: Global,
    log: &[&'static [u8]],
    key: &[u8],
    value: &[u8],
    flushes: bool,
) -> Result<Seen, Fail> {
    let limits = limits()?;
    let vault = vault_of(alloc, log)?;
    let coord = open(alloc, vault, limits)?;
    see_store(coord, key, value, flushes)
}

#[test]
fn a_vault_that_was_written_without_a_log_opens(rt: HostRuntime) -> Result<(), Fail> {
    let seen = seen_over(rt.alloc(), &[], b"a", b"1", false)?;
    assert!(rt; seen.shown == (3, 2, 1));
    assert!(rt; seen.found);
    Ok(())
}

#[test]
fn a_log_is_cut_as_its_memtables_are_flushed(rt: HostRuntime) -> Result<(), Fail> {
    let log = [FIRST, SECOND, FREEZE_2, THIRD];
    let seen = seen_over(rt.alloc(), &log, b"b", b"3", true)?;
    assert!(rt; seen.shown.2 == 3 && seen.found);
    assert!(rt; seen.flushed == (2, 3));
    assert!(rt; seen.records == 0);
    Ok(())
}

#[test]
fn a_log_up_to_the_last_flush_holds_nothing(rt: HostRuntime) -> Result<(), Fail> {
    let seen = seen_over(rt.alloc(), &[FIRST], b"a", b"1", false)?;
    assert!(rt; seen.shown.2 == 1);
    assert!(rt; seen.records == 0);
    Ok(())
}

/// Logs that are bad over the sequence of that flush: a record is cut short or empty; the first one is a freeze or begins late; a write
/// leaves a gap, or is of both sides of the sequence; a freeze is elsewhere, or the second one.
const BAD: [&[&[u8]]; 8] = [
    &[CUT],
    &[SECOND, EMPTY],
    &[FREEZE_2],
    &[THIRD],
    &[SECOND, FOURTH],
    &[BOTH],
    &[SECOND, FREEZE_3],
    &[SECOND, FREEZE_2, THIRD, FREEZE_3],
];

/// How many edits, tables and records a vault has.
fn left<V: Vault>(vault: &mut V) -> Result<(usize, usize, usize), VaultError> {
    let edits = vault.edits()?.len();
    let tables = vault.numbers()?.len();
    Ok((edits, tables, records(vault)?))
}

/// What an opening over a vault answers, and how much the vault has then. No store is opened.
fn refused<V: Vault + Drop>(
    alloc: Global,
    vault: V,
    limits: Limits,
) -> Option<(OpenError, Result<(usize, usize, usize), VaultError>)> {
    match opened(alloc, vault, limits) {
        Ok(_coord) => None,
        Err((why, mut vault)) => {
            let left = left(&mut vault);
            Some((why, left))
        }
    }
}

// The vault has as much as before it was refused.
#[test]
fn a_bad_log_is_refused_and_left(rt: HostRuntime) -> Result<(), Fail> {
    let limits = limits()?;
    for (place, records) in BAD.iter().enumerate() {
        let vault = vault_of(rt.alloc(), records)?;
        let (why, left) = refused(rt.alloc(), vault, limits).ok_or("opened")?;
        if why == OpenError::OutOfMemory {
            return Err(why.into());
        }
        assert!(rt; why == OpenError::BadLog, "log {place}: {why}");
        assert!(rt; left? == (2, 1, records.len()), "log {place}");
    }
    Ok(())
}
