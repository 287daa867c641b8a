//! The command `threads`: runs a store that threads share, and writes what they found.

use crate::error::RunError;
use lsm_io::write_out;
use lsm_line::{write_bytes, write_line_end, write_number, write_shown, write_text};
use lsm_script::write_read;
use lsm_threads::{FollowerRead, ThreadsError, ThreadsReport, run_threads};
use std::alloc::{AllocError, Global};
use std::io::Write;
use std::sync::Wait;
use std::thread::Threads;

/// Runs the threads of one store, and writes how their claims ended, the coordinator's version, and a follower's reads. If memory runs out
/// in any of them nothing is written. A read that finds no version, and a history that is not what the threads recorded, are read faults.
pub fn show_threads<R: Threads + Wait + Sync, W: Write>(
    rt: &R,
    alloc: Global,
    writer: &mut W,
) -> Result<(), RunError> {
    let report = match run_threads(rt, alloc) {
        Ok(report) => report,
        Err(ThreadsError::ReadFault) => return Err(RunError::ReadFault),
        Err(ThreadsError::OutOfMemory) => return Err(RunError::OutOfMemory),
    };
    let mut out = Vec::new(alloc);
    write_report(alloc, &mut out, &report)?;
    Ok(write_out(writer, &mut out)?)
}

// A line for the claims, one for the version, and one for each read.
fn write_report(
    alloc: Global,
    out: &mut Vec<u8>,
    report: &ThreadsReport,
) -> Result<(), AllocError> {
    write_claims(out, report)?;
    write_shown(alloc, out, &report.shown)?;
    write_line_end(out)?;
    for read in &report.reads {
        write_read_of(out, read)?;
    }
    Ok(())
}

// `picked P installed I returned R stale S`
fn write_claims(out: &mut Vec<u8>, report: &ThreadsReport) -> Result<(), AllocError> {
    write_text(out, "picked ")?;
    write_number(out, report.picked)?;
    write_text(out, " installed ")?;
    write_number(out, report.installed)?;
    write_text(out, " returned ")?;
    write_number(out, report.returned)?;
    write_text(out, " stale ")?;
    write_number(out, report.stale)?;
    write_line_end(out)
}

// `K at N value V`, or `K at N none`
fn write_read_of(out: &mut Vec<u8>, read: &FollowerRead) -> Result<(), AllocError> {
    write_bytes(out, read.key)?;
    write_text(out, " ")?;
    write_read(out, read.at, &read.value)?;
    write_line_end(out)
}
