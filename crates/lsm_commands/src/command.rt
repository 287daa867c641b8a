//! The commands that go on, or that look at the files of a folder, by what their options ask for.

use crate::dispatching::dispatch_jobs;
use crate::inspect::{Dumped, check_folder, dump_folder};
use crate::serve::{serve_folder, serve_memory};
use crate::session::run_session;
use crate::worker::work_as;
use lsm_options::StoreCommand;
use std::process::ExitCode;

/// Runs a command of a store, and returns the exit status.
pub fn run_command(rt: &HostRuntime, command: StoreCommand<'_>) -> ExitCode {
    match command {
        StoreCommand::Store(place) => run_session(rt, place),
        StoreCommand::Check(folder) => check_folder(rt, folder),
        StoreCommand::DumpLog(folder) => dump_folder(rt, folder, Dumped::Log),
        StoreCommand::Dump(folder) => dump_folder(rt, folder, Dumped::Tables),
        StoreCommand::Serve(place) => serve_folder(rt, place),
        StoreCommand::ServeMemory(limits) => serve_memory(rt, limits),
        StoreCommand::Work(number) => work_as(rt, number),
        StoreCommand::Dispatch(place, number) => dispatch_jobs(rt, place, number),
    }
}
