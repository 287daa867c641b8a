//! Whole threads over a store, for another script than the program's.

use bytes::Bytes;
use lsm_threads::{FollowerRead, KeyPuts, ThreadsReport, ThreadsScript, run_threads_of};
use std::test::Fail;

const SCRIPT: ThreadsScript = ThreadsScript {
    first: KeyPuts {
        key: b"c",
        values: [b"5", b"6"],
    },
    second: KeyPuts {
        key: b"x",
        values: [b"7", b"8"],
    },
    reads: &[b"x", b"c", b"a"],
};

const VALUES: [Option<&[u8]>; 3] = [Some(b"8"), Some(b"6"), None];

// Whether a read found this value.
fn is_found(found: &Option<Bytes>, wanted: Option<&[u8]>) -> bool {
    match (found, wanted) {
        (Some(found), Some(wanted)) => &found[..] == wanted,
        (None, None) => true,
        _ => false,
    }
}

// Whether the reads found the values, in turn.
fn are_found(reads: &[FollowerRead]) -> bool {
    match reads {
        [first, second, third] => {
            is_found(&first.value, VALUES[0])
                && is_found(&second.value, VALUES[1])
                && is_found(&third.value, VALUES[2])
        }
        _ => false,
    }
}

// Whether the coordinator is at version 7 with all of the script in its files, and the reads found the values.
fn is_right(report: &ThreadsReport) -> bool {
    report.shown.number.number() == 7
        && report.shown.flushed.number() == 4
        && are_found(report.reads.as_slice())
}

#[test]
fn threads_read_what_another_script_writes(rt: HostRuntime) -> Result<(), Fail> {
    let report = run_threads_of(&rt, rt.alloc(), &SCRIPT)?;
    if !is_right(&report) {
        return Err("another version, or other values")?;
    }
    Ok(())
}
