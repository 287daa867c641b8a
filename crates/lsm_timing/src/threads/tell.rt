//! What is printed of a run of threads.

use super::reads::{NONE, Reads};
use super::writer::{UNWRITTEN, Writing};
use crate::bench::Bench;
use std::io;

/// What threads did.
#[derive(Clone, Copy)]
pub(crate) struct Ends {
    pub(crate) writing: Writing,
    pub(crate) reads: Reads,
    // How claims ended.
    pub(crate) picked: u64,
    pub(crate) installed: u64,
    pub(crate) returned: u64,
    pub(crate) stale: u64,
    /// The version that the follower came to.
    pub(crate) followed: u64,
    /// How often there was no memory, but for reads.
    pub(crate) missed: u64,
}

/// Where no thread has done anything yet.
pub(crate) const NOTHING: Ends = Ends {
    writing: UNWRITTEN,
    reads: NONE,
    picked: 0,
    installed: 0,
    returned: 0,
    stale: 0,
    followed: 0,
    missed: 0,
};

/// Prints what changes from run to run on standard error, and on standard output that the store was closed.
pub(crate) fn tell_ends(bench: Bench, ends: Ends) -> io::Result<()> {
    let (writing, reads) = (ends.writing, ends.reads);
    let times = [
        ("threads_put", writing.entries, writing.time),
        ("threads_pause", 1, writing.longest),
        ("threads_get", reads.count, reads.time),
    ];
    for (name, count, time) in &times {
        let nanoseconds = time.as_nanos();
        eprintln!(bench.rt; "{name} {count} {nanoseconds}")?;
    }
    tell_counts(bench, ends)?;
    bench.rt.println("threads closed")
}

fn tell_counts(bench: Bench, ends: Ends) -> io::Result<()> {
    let counts = [
        ("threads_found", ends.reads.found),
        ("threads_followed", ends.followed),
        ("threads_picked", ends.picked),
        ("threads_installed", ends.installed),
        ("threads_returned", ends.returned),
        ("threads_stale", ends.stale),
        (
            "threads_missed_memory",
            ends.missed.wrapping_add(ends.reads.missed),
        ),
    ];
    for (name, count) in &counts {
        eprintln!(bench.rt; "{name} {count}")?;
    }
    Ok(())
}
