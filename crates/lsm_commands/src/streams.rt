//! The standard streams: a test that they are open, which comes before any file is opened.

use crate::CommandError;
use std::io::{Read, Write};

/// Whether the standard streams are open: the next file that is opened would take the place of one that is closed.
pub(crate) fn check_streams(rt: &HostRuntime) -> Result<(), CommandError> {
    let read = rt.stdin().read(&mut []);
    if read.is_err() {
        return Err(CommandError::ReadFault);
    }
    let written = rt.stdout().write(&[]);
    if written.is_err() {
        return Err(CommandError::WriteFault);
    }
    let written = rt.stderr().write(&[]);
    if written.is_err() {
        return Err(CommandError::WriteFault);
    }
    Ok(())
}
