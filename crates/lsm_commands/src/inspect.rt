//! The commands `check` and `dump`: what the folder of a store holds. They change nothing there.

use crate::{CommandError, Screen};
use lsm_file_vault::{Contents, read};
use lsm_inspect::{Report, check, dump, dump_log};
use lsm_options::FAILED;
use std::io::ErrorKind;
use std::process::ExitCode;
use std::{fs, io};

/// Verifies each file of a folder, the log over what is flushed too, and prints what was found. The exit status is 0 only if nothing is damaged.
pub(crate) fn check_folder(rt: &HostRuntime, folder: &str) -> ExitCode {
    let screen = Screen::new(rt);
    match print_report(rt, folder, &screen) {
        Ok(true) => ExitCode::SUCCESS,
        Ok(false) => ExitCode::from(FAILED),
        Err(error) => screen.fail(&error),
    }
}

/// What a dump prints.
#[derive(Clone, Copy)]
pub(crate) enum Dumped {
    /// The entries of the tables.
    Tables,
    /// The records of the log.
    Log,
}

/// Prints what a folder holds, and reports what is damaged there. The exit status is 0 only if nothing is.
pub(crate) fn dump_folder(rt: &HostRuntime, folder: &str, dumped: Dumped) -> ExitCode {
    let screen = Screen::new(rt);
    match print_dump(rt, folder, dumped) {
        Ok(report) => {
            screen.report_lines(&report.faults());
            if report.is_whole() {
                ExitCode::SUCCESS
            } else {
                ExitCode::from(FAILED)
            }
        }
        Err(error) => screen.fail(&error),
    }
}

/// Reports what is damaged in a folder, if it can be read.
pub(crate) fn report_faults(rt: &HostRuntime, folder: &str, screen: &Screen<'_>) {
    if let Ok(report) = report_of(rt, folder) {
        screen.report_lines(&report.faults());
    }
}

fn report_of(rt: &HostRuntime, folder: &str) -> Result<Report, CommandError> {
    let contents = contents_of(rt, folder)?;
    Ok(check(rt.alloc(), &contents)?)
}

// What a folder holds. One that is not there is refused as one without a store.
fn contents_of(rt: &HostRuntime, folder: &str) -> Result<Contents, CommandError> {
    match fs::metadata(rt, folder) {
        Err(error) if error.kind() == ErrorKind::NotFound => {
            let folder = String::from_str(rt.alloc(), folder)?;
            Err(CommandError::NoStore(folder))
        }
        _ => Ok(read(rt, folder)?),
    }
}

// Returns whether nothing is damaged.
fn print_report(rt: &HostRuntime, folder: &str, screen: &Screen<'_>) -> Result<bool, CommandError> {
    screen.show_checking(folder);
    let report = report_of(rt, folder)?;
    let printed = println!(rt; "{report}");
    if printed.is_err() {
        return Err(CommandError::WriteFault);
    }
    Ok(report.is_whole())
}

// Prints the dump, and returns what is damaged.
fn print_dump(rt: &HostRuntime, folder: &str, dumped: Dumped) -> Result<Report, CommandError> {
    let contents = contents_of(rt, folder)?;
    let printed = match dumped {
        Dumped::Tables => dump(rt.alloc(), &contents, io::writer(rt)),
        Dumped::Log => dump_log(rt.alloc(), &contents, io::writer(rt)),
    };
    Ok(printed?)
}
