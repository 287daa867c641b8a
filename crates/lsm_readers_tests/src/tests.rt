//! A writer and its readers, on one thread and on two.

ghost use Rattle.std.specs.Prelude.{◌≡◌, ◌≤◌, ◌<◌, IfOk, OnOk, IsTrue, [], ◌∷◌};
ghost use Rattle.lsm_edit.specs.Edit.{IsEdit};
ghost use Rattle.lsm_edit.specs.Served.{AreAsRecorded};
ghost use Rattle.lsm_readers.specs.Publications.{last_published};

use bytes::Bytes;
use lsm_edit::{Edit, FileMeta, Served, Version, decode_edit, is_as_recorded};
use lsm_readers::{FollowerReader, LogName, NewLog, Publisher, readers};
use lsm_table::Table;
use std::alloc::Global;
use std::marker::Brand;
use std::process::Abort;
use std::sync::Wait;
use std::test::Fail;
use std::thread;
use std::thread::{Threads, join};

// The edits of an opening and of a flush of a, and the table that it makes: a put of a at sequence 1.
const EPOCH: &[u8] =
    b"\0\0\0\0\0\0\0\x01\x03\0\0\0\0\0\0\0\0\0\0\0\0\0\0\0\x01\0\0\0\0\0\0\0\x01\0\0\0\0\0\0\0\0";

const FLUSH: &[u8] =
    b"\0\0\0\0\0\0\0\x02\x01\0\0\0\0\0\0\0\x01\0\0\0\0\0\0\0\x01\0\0\0\0\0\0\0\x02\0\0\0\0\0\0\0\x01\0\0\0\0\0\0\0\x01\0\0\x01a\0\x01a\0\0\0\x30\0\0\0\x01";

const TABLE: &[u8] =
    b"LSMT\x01\0\0\x10\0\0\0\0\x01\0\0\0\x01\0\0\0\x10\0\x01a\0\0\0\0\0\0\x01\x01\0\x01a\0\0\0\0\0\0\x01\x01\0\0\0\x011";

fn edit_of(alloc: Global, bytes: &'static [u8]) -> Result<Edit, Fail>
    ensures { IfOk result IsEdit }
{
    Ok(decode_edit(alloc, Bytes::from_static(bytes))?)
}

// Whether it is as the record of the one file says.
fn is_recorded(files: &[FileMeta], table: &Table) -> bool
    ensures { IsTrue result → AreAsRecorded files.now (table.now ∷ []) }
{
    match files.split_first() {
        Some((file, rest)) => rest.is_empty() && is_as_recorded(file, table),
        None => false,
    }
}

// Version 2: a store that was opened and took a flush.
fn flushed(alloc: Global) -> Result<Served, Fail> {
    let mut version = Version::new(alloc);
    version.apply(&edit_of(alloc, EPOCH)?)?;
    version.apply(&edit_of(alloc, FLUSH)?)?;
    let table = Table::open(alloc, Bytes::from_static(TABLE))?;
    if !is_recorded(version.files(), &table) {
        return Err("another table")?;
    }
    let mut tables = Vec::new(alloc);
    tables.push(table)?;
    Ok(Served::from_tables(version, tables)?)
}

// The version after one more opening.
fn open_again(alloc: Global, served: &mut Served) -> Result<(), Fail>
    ensures { OnOk result (served.old.version.number < served.new.version.number) }
{
    if served.version().number() >= 2000 || served.version().epoch() >= 2000 {
        return Err("many versions")?;
    }
    let opening = Edit::epoch(alloc, served.version());
    served
        .advance(&opening, Vec::new(alloc))
        .map_err(|(why, _)| why)?;
    Ok(())
}

// Publishes the versions after this one, up to the last.
#[tactic(auto, using(lsm_readers::proofs::Adding::last_push))]
fn publish_to<J: LogName, R: Wait + Drop>(
    alloc: Global,
    writer: &mut Publisher<J, R>,
    mut served: Served,
    last: u64,
) -> Result<(), Fail>
    requires { (last_published writer.old.taken).version.number ≤ served.version.number }
{
    for _ in 0..2000 {
        if served.version().number() >= last {
            return Ok(());
        }
        open_again(alloc, &mut served)?;
        writer.publish(&served)?;
    }
    Err("not at the last version")?
}

fn word_of(found: Option<&[u8]>) -> &'static str {
    match found {
        None => "none",
        Some(value) if value == b"1".as_slice() => "1",
        Some(_) => "another",
    }
}

// Publishes the versions after version 2, up to the last.
fn publish_flushed<J: LogName, R: Wait + Drop>(
    alloc: Global,
    writer: &mut Publisher<J, R>,
    last: u64,
) -> Result<(), Fail>
    requires { writer.old.taken ≡ [] }
{
    publish_to(alloc, writer, flushed(alloc)?, last)
}

// At which version a reader answers, and what it answers of a key.
fn seen<J: LogName>(
    reader: &mut FollowerReader<J>,
    key: &[u8],
) -> Result<(u64, &'static str), Fail> {
    let (number, found) = reader.get(key)?;
    Ok((number.number(), word_of(found.as_deref())))
}

// What has to be dropped dearly is lent, so that no refusal drops it.
fn told<J: LogName, R: Wait + Drop>(alloc: Global, rt: R, log: NewLog) -> Result<(), Fail>
    requires { log ≡ J.log }
{
    let (mut writer, mut all) = readers::<J, R>(alloc, rt, log, 2)?;
    tell_one(alloc, &mut writer, &mut all)
}

fn tell_one<J: LogName, R: Wait + Drop>(
    alloc: Global,
    writer: &mut Publisher<J, R>,
    all: &mut [FollowerReader<J>],
) -> Result<(), Fail>
    requires { writer.old.taken ≡ [] }
{
    let [first, second] = all else {
        return Err("no reader")?;
    };
    let before = seen(first, b"a")?;
    publish_flushed(alloc, writer, 7)?;
    second.learn(writer.tell());
    let now = seen(second, b"a")?;
    let absent = seen(first, b"b")?;
    if before != (0, "none") || now != (7, "1") || absent != (7, "none") {
        return Err("another version or another value")?;
    }
    Ok(())
}

// Whether it comes to version 7, and never to an earlier version than before.
fn reads_to_seven<J: LogName>(reader: &mut FollowerReader<J>) -> bool {
    let mut last = 0;
    for _ in 0..2_000_000 {
        let now = match reader.get(b"a") {
            Ok((number, _value)) => number.number(),
            Err(_) => return false,
        };
        if now < last || now >= 7 {
            return now == 7;
        }
        last = now;
        thread::yield_now();
    }
    false
}

fn published_beside<J: LogName + Send + Sync, R: Threads + Wait + Sync>(
    alloc: Global,
    rt: &R,
    log: NewLog,
) -> Result<(), Fail>
    requires { log ≡ J.log }
{
    let (mut writer, mut all) = readers::<J, &R>(alloc, rt, log, 1)?;
    match all.first_mut() {
        Some(reader) => publish_beside(alloc, rt, &mut writer, reader),
        None => Err("no reader")?,
    }
}

fn publish_beside<'a, J: LogName + Send + Sync, R: Threads + Wait + Sync>(
    alloc: Global,
    rt: &'a R,
    writer: &mut Publisher<J, &'a R>,
    reader: &mut FollowerReader<J>,
) -> Result<(), Fail>
    requires { writer.old.taken ≡ [] }
{
    let (written, read) = join(
        rt,
        || publish_flushed(alloc, writer, 7),
        || reads_to_seven(reader),
    );
    written?;
    if !read {
        return Err("the reader went back, not on, or is out of memory")?;
    }
    Ok(())
}

fn caught_up<J: LogName, R: Wait + Drop>(alloc: Global, rt: R, log: NewLog) -> Result<(), Fail>
    requires { log ≡ J.log }
{
    let (mut writer, mut all) = readers::<J, R>(alloc, rt, log, 1)?;
    catch_up(alloc, &mut writer, &mut all)
}

fn catch_up<J: LogName, R: Wait + Drop>(
    alloc: Global,
    writer: &mut Publisher<J, R>,
    all: &mut [FollowerReader<J>],
) -> Result<(), Fail>
    requires { writer.old.taken ≡ [] }
{
    let [reader] = all else {
        return Err("no reader")?;
    };
    let served = flushed(alloc)?;
    catch_up_to(writer, &served)?;
    if seen(reader, b"a")? != (2, "1") {
        return Err("another version or another value")?;
    }
    Ok(())
}

// What a first try did not show for want of memory a second one shows. Then there is nothing to do.
#[tactic(auto, using(lsm_readers::proofs::Adding::in_step_again))]
fn catch_up_to<J: LogName, R: Wait + Drop>(
    writer: &mut Publisher<J, R>,
    served: &Served,
) -> Result<(), Fail>
    requires { writer.old.taken ≡ [] }
{
    if served.version().number() == 0 {
        return Err("no version")?;
    }
    if writer.catch_up(served).is_err() {
        writer.catch_up(served)?;
    }
    writer.catch_up(served)?;
    Ok(())
}

// A log has room for far more versions than these, and no key is refused, be it empty.
fn many_published<J: LogName, R: Wait + Drop>(alloc: Global, rt: R, log: NewLog) -> Result<(), Fail>
    requires { log ≡ J.log }
{
    let (mut writer, mut all) = readers::<J, R>(alloc, rt, log, 1)?;
    publish_many(alloc, &mut writer, &mut all)
}

fn publish_many<J: LogName, R: Wait + Drop>(
    alloc: Global,
    writer: &mut Publisher<J, R>,
    all: &mut [FollowerReader<J>],
) -> Result<(), Fail>
    requires { writer.old.taken ≡ [] }
{
    let [reader] = all else {
        return Err("no reader")?;
    };
    publish_flushed(alloc, writer, 1100)?;
    if seen(reader, b"")? != (1100, "none") {
        return Err("another version or another value")?;
    }
    Ok(())
}

#[test]
fn the_empty_key_is_read_after_a_thousand_publications(rt: HostRuntime) -> Result<(), Fail> {
    let log = NewLog::new();
    many_published::<Brand, _>(rt.alloc(), &rt, log)
}

#[test]
fn a_version_that_waits_is_shown_by_the_next_try(rt: HostRuntime) -> Result<(), Fail> {
    let log = NewLog::new();
    caught_up::<Brand, _>(rt.alloc(), &rt, log)
}

#[test]
fn a_reader_that_was_told_answers_at_what_was_told(rt: HostRuntime) -> Result<(), Fail> {
    let log = NewLog::new();
    told::<Brand, _>(rt.alloc(), &rt, log)
}

#[test]
fn a_reader_of_another_thread_goes_on_to_what_is_published(rt: HostRuntime) -> Result<(), Fail> {
    let log = NewLog::new();
    published_beside::<Brand, _>(rt.alloc(), &rt, log)
}
