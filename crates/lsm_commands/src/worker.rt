//! The command `worker`: jobs that come over a pipe.

use crate::{Screen, check_streams};
use lsm_io::{CountedReader, CountedWriter};
use lsm_msg::NodeIndex;
use lsm_options::REFUSED;
use std::io;
use std::process::ExitCode;

/// Merges the jobs that come as messages on standard input, as the worker of this number, and writes the messages that it sends to
/// standard output, until the input ends.
pub(crate) fn work_as(rt: &HostRuntime, number: u8) -> ExitCode {
    let Some(index) = NodeIndex::new(number) else {
        return ExitCode::from(REFUSED);
    };
    let screen = Screen::new(rt);
    if let Err(error) = check_streams(rt) {
        return screen.fail(&error);
    }
    let mut reader = CountedReader::new(rt.reader());
    let mut writer = CountedWriter::new(io::writer(rt));
    match lsm_pipe::work(rt.alloc(), index, &mut reader, &mut writer) {
        Ok(()) => ExitCode::SUCCESS,
        Err(error) => screen.fail(&error),
    }
}
