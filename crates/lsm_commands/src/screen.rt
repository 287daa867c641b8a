//! What a command shows on standard error: why it fails, and on a terminal how far it has come.

use lsm_file_vault::Incidents;
use lsm_key::Seq;
use lsm_options::FAILED;
use std::fmt::Display;
use std::io::{self, IsTerminal};
use std::process::ExitCode;

/// Standard error.
#[derive(Clone, Copy)]
pub(crate) struct Screen<'a> {
    rt: &'a HostRuntime,
    is_terminal: bool,
}

impl<'a> Screen<'a> {
    pub(crate) fn new(rt: &'a HostRuntime) -> Screen<'a> {
        Screen {
            rt,
            is_terminal: rt.stderr().is_terminal(),
        }
    }

    /// The same, which shows nothing of how far a command has come, on a terminal either.
    pub(crate) fn still(rt: &'a HostRuntime) -> Screen<'a> {
        Screen {
            rt,
            is_terminal: false,
        }
    }

    /// Reports an error, and returns the exit status after it.
    pub(crate) fn fail<E: Display>(&self, error: &E) -> ExitCode {
        self.report(error);
        ExitCode::from(FAILED)
    }

    /// Reports something in a line of its own.
    pub(crate) fn report<E: Display>(&self, what: &E) {
        let _ = eprintln!(self.rt; "{what}");
    }

    /// Reports lines, each with its end.
    pub(crate) fn report_lines<E: Display>(&self, what: &E) {
        let _ = eprint!(self.rt; "{what}");
    }

    /// Shows how far a command has come, on a terminal alone, in a line that the next one is written over.
    pub(crate) fn show<E: Display>(&self, what: &E) {
        if self.is_terminal {
            let _ = eprint!(self.rt; "\r{what}");
        }
    }

    /// Ends the line of what was shown.
    pub(crate) fn end_line(&self) {
        if self.is_terminal {
            let _ = self.rt.eprintln("");
        }
    }

    /// Shows that a folder is being opened.
    pub(crate) fn show_opening(&self, folder: &str) {
        if self.is_terminal {
            let _ = eprint!(self.rt; "opening {folder} .. ");
        }
    }

    /// Shows that a folder is being checked.
    pub(crate) fn show_checking(&self, folder: &str) {
        if self.is_terminal {
            let _ = eprintln!(self.rt; "checking {folder} ..");
        }
    }

    /// Shows what an opened store has.
    pub(crate) fn show_opened(&self, last: Seq, files: usize) {
        if self.is_terminal {
            let last = last.number();
            let _ = eprintln!(self.rt; "{last} operations, {files} files");
        }
    }

    /// Reports each file that was set aside in a folder since this was last asked.
    pub(crate) fn report_set_aside(&self, incidents: &Incidents) {
        for file in incidents.take_set_aside(self.rt.alloc()) {
            self.report(&file);
        }
    }

    /// Reports what the system says of a device that failed, if it did.
    pub(crate) fn report_device(&self, error: &Option<io::Error>) {
        if let Some(error) = error {
            let _ = eprintln!(self.rt; "the device failed: {error}");
        }
    }
}
