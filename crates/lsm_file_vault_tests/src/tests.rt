//! What no clause says: that calls succeed and files give back what they were given, and the texts of calls.

use bytes::Bytes;
use lsm_file_vault::{FileCall, FolderError, LogSync, open_with};
use lsm_key::FileNumber;
use lsm_vault::{Vault, VaultError};
use std::alloc::{AllocError, Global};
use std::test::Fail;
use std::{fs, io};

/// A call of a vault. A record of `Large` has as many bytes as it says.
#[derive(Clone, Copy)]
enum Call {
    Put(u64, &'static str),
    Remove(u64),
    Edit(&'static str),
    Log(&'static str),
    Large(usize),
    Cut(usize),
    Sync,
}

/// Makes a call of a vault.
fn make<V: Vault>(alloc: Global, vault: &mut V, call: Call) -> Result<(), VaultError> {
    match call {
        Call::Put(number, table) => {
            vault.put_table(
                FileNumber::new(number),
                Bytes::from_static(table.as_bytes()),
            )
        }
        Call::Remove(number) => vault.remove_table(FileNumber::new(number)),
        Call::Edit(edit) => vault.append_edit(Bytes::from_static(edit.as_bytes())),
        Call::Log(record) => vault.append_log(Bytes::from_static(record.as_bytes())),
        Call::Large(len) => vault.append_log(large(alloc, len)?),
        Call::Cut(count) => vault.cut_log(count),
        Call::Sync => vault.sync_log(),
    }
}

fn large(alloc: Global, len: usize) -> Result<Bytes, AllocError> {
    let mut record = Vec::new(alloc);
    record.resize(len, b'x')?;
    Ok(Bytes::from_vec(record)?)
}

fn make_all<V: Vault>(alloc: Global, vault: &mut V, calls: &[Call]) -> Result<(), VaultError> {
    for call in calls {
        make(alloc, vault, *call)?;
    }
    Ok(())
}

/// What a vault has: its tables behind `+`, its edits behind `;` and its records behind `,`. Of what has more than 9 bytes, how many.
fn told<V: Vault>(alloc: Global, vault: &mut V) -> Result<Vec<u8>, VaultError> {
    let mut out = Vec::new(alloc);
    for number in vault.numbers()? {
        tell(alloc, &mut out, b'+', vault.table(number)?)?;
    }
    for edit in vault.edits()? {
        tell(alloc, &mut out, b';', Some(edit))?;
    }
    for record in vault.log()? {
        tell(alloc, &mut out, b',', Some(record))?;
    }
    Ok(out)
}

fn tell(
    alloc: Global,
    out: &mut Vec<u8>,
    before: u8,
    bytes: Option<Bytes>,
) -> Result<(), AllocError> {
    out.push(before)?;
    match bytes {
        None => out.extend_from_slice(b"none")?,
        Some(bytes) => {
            if bytes.len() > 9 {
                let len = format!(in alloc; "{}", bytes.len())?;
                out.extend_from_slice(len.as_bytes())?;
            } else {
                out.extend_from_slice(bytes.as_slice())?;
            }
        }
    }
    Ok(())
}

/// Makes these calls of the vault in a folder, and then tells what it has. A vault is owned here and in `changed` alone, and at one exit,
/// since each exit of a function is proved with all that it owns.
fn after(rt: &HostRuntime, path: &str, log_sync: LogSync, calls: &[Call]) -> Result<Vec<u8>, Fail> {
    let mut vault = open_with(rt, path, log_sync)?.vault;
    let made = make_all(rt.alloc(), &mut vault, calls);
    let has = told(rt.alloc(), &mut vault);
    drop(vault);
    made?;
    Ok(has?)
}

/// Tables, of which 7 is put again, 5 is removed and 6 was never there, and edits.
const FILLED: [Call; 10] = [
    Call::Put(7, "seven"),
    Call::Put(3, "three"),
    Call::Put(12, ""),
    Call::Put(7, "again"),
    Call::Put(5, "five"),
    Call::Remove(5),
    Call::Remove(6),
    Call::Edit("first"),
    Call::Edit(""),
    Call::Edit("second"),
];

/// Some calls of a vault in a folder that is synced in this way, and what it has after them.
#[derive(Clone, Copy)]
struct Session {
    log_sync: LogSync,
    calls: &'static [Call],
    has: &'static str,
}

/// One session after another in a new folder: what the first one had that should have had something else. A vault that is dropped is as a
/// process that is killed.
fn first_wrong(rt: &HostRuntime, path: &str, all: &[Session]) -> Result<Option<Vec<u8>>, Fail> {
    let _ = fs::remove_dir_all(rt, path);
    for session in all {
        let has = after(rt, path, session.log_sync, session.calls)?;
        if has.as_slice() != session.has.as_bytes() {
            return Ok(Some(has));
        }
    }
    fs::remove_dir_all(rt, path)?;
    Ok(None)
}

const fn each(calls: &'static [Call], has: &'static str) -> Session {
    Session {
        log_sync: LogSync::Each,
        calls,
        has,
    }
}

const fn gathered(calls: &'static [Call], has: &'static str) -> Session {
    Session {
        log_sync: LogSync::Gathered,
        calls,
        has,
    }
}

#[test]
fn what_was_put_is_there_after_an_opening(rt: HostRuntime) -> Result<(), Fail> {
    let has = "+three+again+;first;;second";
    let wrong = first_wrong(
        &rt,
        "lsm_file_vault_kept",
        &[each(&FILLED, has), each(&[], has)],
    )?;
    assert!(rt; wrong.is_none(), "{wrong:?}");
    Ok(())
}

// A part of a log is cut off by a new file, and a whole log in its own.
#[test]
fn a_log_is_there_after_an_opening(rt: HostRuntime) -> Result<(), Fail> {
    let all = [
        each(
            &[
                Call::Log("one"),
                Call::Log(""),
                Call::Log("three"),
                Call::Cut(1),
                Call::Log("four"),
            ],
            ",,three,four",
        ),
        each(&[], ",,three,four"),
        each(&[Call::Cut(9), Call::Log("five")], ",five"),
        each(&[], ",five"),
    ];
    let wrong = first_wrong(&rt, "lsm_file_vault_log", &all)?;
    assert!(rt; wrong.is_none(), "{wrong:?}");
    Ok(())
}

// The frame of `one` has 19 bytes.
#[test]
fn a_torn_record_is_set_aside_by_the_next_one(rt: HostRuntime) -> Result<(), Fail> {
    let path = "lsm_file_vault_torn_log";
    let _ = fs::remove_dir_all(&rt, path);
    let _one = after(&rt, path, LogSync::Each, &[Call::Log("one")])?;
    let mut bytes = fs::read(&rt, "lsm_file_vault_torn_log/log")?;
    bytes.push(7)?;
    fs::write(&rt, "lsm_file_vault_torn_log/log", bytes.as_slice())?;
    let _two = after(&rt, path, LogSync::Each, &[Call::Log("two")])?;
    let has = after(&rt, path, LogSync::Each, &[])?;
    assert!(rt; has.as_slice() == b",one,two".as_slice(), "{has:?}");
    let lost = fs::read(&rt, "lsm_file_vault_torn_log/lost-log-19")?;
    assert!(rt; lost.as_slice() == b"\x07".as_slice(), "{lost:?}");
    fs::remove_dir_all(&rt, path)?;
    Ok(())
}

/// A sync between two records.
const ONE_SYNCED: [Call; 3] = [Call::Log("one"), Call::Sync, Call::Log("two")];

#[test]
fn records_are_there_as_their_sync_has_it(rt: HostRuntime) -> Result<(), Fail> {
    let path = "lsm_file_vault_synced";
    for (log_sync, left) in [
        (LogSync::Each, ",one,two"),
        (LogSync::Asked, ",one,two"),
        (LogSync::Gathered, ",one"),
    ] {
        let session = Session {
            log_sync,
            calls: &ONE_SYNCED,
            has: ",one,two",
        };
        let wrong = first_wrong(&rt, path, &[session, each(&[], left)])?;
        assert!(rt; wrong.is_none(), "{log_sync:?}: {wrong:?}");
    }
    Ok(())
}

// What is gathered is written before an edit is, and once it is 64 KiB.
#[test]
fn gathered_records_are_written(rt: HostRuntime) -> Result<(), Fail> {
    let all = [
        gathered(
            &[
                Call::Log("one"),
                Call::Log("two"),
                Call::Edit("edit"),
                Call::Log("lost"),
            ],
            ";edit,one,two,lost",
        ),
        gathered(
            &[Call::Log("three"), Call::Large(65_536), Call::Log("lost")],
            ";edit,one,two,three,65536,lost",
        ),
        each(&[], ";edit,one,two,three,65536"),
    ];
    let wrong = first_wrong(&rt, "lsm_file_vault_gathered", &all)?;
    assert!(rt; wrong.is_none(), "{wrong:?}");
    Ok(())
}

/// Cuts of all records and of a part.
const CHANGES: [Call; 11] = [
    Call::Cut(9),
    Call::Log("one"),
    Call::Log("two"),
    Call::Log("three"),
    Call::Cut(1),
    Call::Log("four"),
    Call::Cut(9),
    Call::Log("five"),
    Call::Log("six"),
    Call::Cut(1),
    Call::Log("seven"),
];

/// The same, with syncs between them.
const SYNCED: [Call; 15] = [
    Call::Cut(9),
    Call::Log("one"),
    Call::Log("two"),
    Call::Sync,
    Call::Log("three"),
    Call::Cut(1),
    Call::Log("four"),
    Call::Sync,
    Call::Cut(9),
    Call::Log("five"),
    Call::Log("six"),
    Call::Cut(1),
    Call::Log("seven"),
    Call::Sync,
    Call::Sync,
];

/// Prints what a vault has, makes calls of it, and prints how each ended. Returns what it had, and whether each call was made.
fn print_all<V: Vault>(
    rt: &HostRuntime,
    vault: &mut V,
    calls: &[Call],
) -> Result<(Vec<u8>, bool), Fail> {
    let found = told(rt.alloc(), vault)?;
    println!(rt; "found {found:?}")?;
    let mut are_made = true;
    for call in calls {
        match make(rt.alloc(), vault, *call) {
            Ok(()) => println!(rt; "done")?,
            Err(VaultError::Device) => {
                are_made = false;
                println!(rt; "refused")?;
            }
            Err(why) => Err(why)?,
        }
    }
    Ok((found, are_made))
}

fn changed(
    rt: &HostRuntime,
    path: &str,
    log_sync: LogSync,
    calls: &[Call],
) -> Result<(Vec<u8>, bool), Fail> {
    let mut vault = open_with(rt, path, log_sync)?.vault;
    let printed = print_all(rt, &mut vault, calls);
    drop(vault);
    printed
}

/// Opens a folder, prints what its log has, makes these changes of it, opens the folder again, and prints what its log has then. Returns
/// whether a change was refused, or the log has what it is to have.
fn change_in(
    rt: &HostRuntime,
    path: &str,
    log_sync: LogSync,
    changes: &[Call],
) -> Result<bool, Fail> {
    let (_before, are_made) = changed(rt, path, log_sync, changes)?;
    let (found, _) = changed(rt, path, log_sync, &[])?;
    let is_right = !are_made || found.as_slice() == b",six,seven".as_slice();
    if is_right {
        fs::remove_dir_all(rt, path)?;
    }
    Ok(is_right)
}

// `tests/crash` stops these three at each of their calls on files, and lets such calls fail: so they print, and begin with what they find.
#[test]
fn a_log_is_changed(rt: HostRuntime) -> Result<(), Fail> {
    let path = "lsm_file_vault_changes";
    assert!(rt; change_in(&rt, path, LogSync::Each, &CHANGES)?);
    Ok(())
}

#[test]
fn a_log_is_changed_and_synced_when_asked(rt: HostRuntime) -> Result<(), Fail> {
    let path = "lsm_file_vault_changes_asked";
    assert!(rt; change_in(&rt, path, LogSync::Asked, &SYNCED)?);
    Ok(())
}

#[test]
fn a_log_is_changed_and_gathered(rt: HostRuntime) -> Result<(), Fail> {
    let path = "lsm_file_vault_changes_gathered";
    assert!(rt; change_in(&rt, path, LogSync::Gathered, &SYNCED)?);
    Ok(())
}

#[test]
fn calls_on_files_have_texts(rt: HostRuntime) -> Result<(), Fail> {
    let alloc = rt.alloc();
    for (call, want) in [
        (FileCall::Create, "created"),
        (FileCall::List, "listed"),
        (FileCall::Open, "opened"),
        (FileCall::Read, "read"),
        (FileCall::Write, "written"),
        (FileCall::Sync, "synced"),
        (FileCall::Lock, "locked"),
    ] {
        let text = format!(in alloc; "{call}")?;
        assert!(rt; text.as_str() == want, "{text}");
    }
    let text = format!(in alloc; "{}", FolderError::OutOfMemory)?;
    assert!(rt; text.as_str() == "out of memory");
    Ok(())
}

// First the name of a table that is written is that of a folder, and then the folder of the store is gone.
#[test]
fn the_error_that_is_handed_out_is_the_last_one(rt: HostRuntime) -> Result<(), Fail> {
    let path = "lsm_file_vault_errors";
    let _ = fs::remove_dir_all(&rt, path);
    let mut opened = open_with(&rt, path, LogSync::Each)?;
    fs::create_dir(&rt, "lsm_file_vault_errors/new")?;
    let first = make(rt.alloc(), &mut opened.vault, Call::Put(1, "one"));
    fs::remove_dir_all(&rt, path)?;
    let last = make(rt.alloc(), &mut opened.vault, Call::Put(1, "one"));
    if first != Err(VaultError::Device) || last != Err(VaultError::Device) {
        return Err("out of memory, or not refused")?;
    }
    let kept = opened.incidents.take_error().map(|error| error.kind());
    assert_eq!(rt; kept, Some(io::ErrorKind::NotFound));
    Ok(())
}
