//! A writer and its readers, at version 0.

ghost use Rattle.std.specs.Prelude.{◌≡◌, ◌<◌, ◌≤◌, [], IfOk, All, vec_len};

use crate::{
    FollowerReader, FollowerWriter, LogName, NewLog, Publication, Publisher, ReadersError, View,
};
use left_right::WriteHandle;
use lsm_edit::Served;
use std::alloc::Global;
use std::sync::Wait;

/// How many readers a writer has at most.
pub const MAX_READERS: usize = 4;

/// A writer and this many readers, which have seen version 0 alone. The writer keeps `rt`, by which it waits for readers.
/// Refuses: `NoReader` if a reader could not be made, `OutOfMemory`.
pub fn readers<J: LogName, R: Wait + Drop>(
    alloc: Global,
    rt: R,
    log: NewLog,
    count: usize,
) -> Result<(Publisher<J, R>, Vec<FollowerReader<J>>), ReadersError>
    requires log { log ≡ J.log }
    requires count { (0 < count) × (count ≤ MAX_READERS) }
    ensures writer { IfOk result (λ r. r.0 ≡ record { published = []; taken = [] }) }
    ensures readers { IfOk result (λ r. (vec_len r.1 ≡ count) × All (λ reader. reader ≡ []) r.1.items) }
{
    let (log, view) = log.named::<J>();
    let first = Publication::new(alloc, Served::new(alloc), view.copy());
    let second = Publication::new(alloc, Served::new(alloc), view.copy());
    let Ok(handle) = WriteHandle::new(alloc, rt, first, second, count) else {
        return Err(ReadersError::OutOfMemory);
    };
    let mut all = Vec::new(alloc);
    let seen = &view;
    for _i in 0..count {
        let reader = one_reader(&handle, seen)?;
        if all.reserve(1).is_err() {
            return Err(ReadersError::OutOfMemory);
        }
        all.push_reserved(reader);
    }
    Ok((FollowerWriter::new(alloc, handle, view, log), all))
}

fn one_reader<J: LogName, R: Wait + Drop>(
    handle: &WriteHandle<Publication<J>, Publication<J>, R>,
    view: &View<J>,
) -> Result<FollowerReader<J>, ReadersError>
    requires { view.now ≡ [] }
    ensures { IfOk result (λ reader. reader ≡ []) }
{
    match handle.handle() {
        Ok(reader) => Ok(FollowerReader::new(reader, view.copy())),
        Err(_) => Err(ReadersError::NoReader),
    }
}
