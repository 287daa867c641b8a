//! The command `serve`: requests of Redis clients.

use crate::opening::store_over_streams;
use crate::{CommandError, Screen};
use lsm_io::{CountedReader, CountedWriter};
use lsm_key::Limits;
use lsm_options::Place;
use lsm_serve::serve;
use lsm_store::{Options, Store};
use lsm_vault::{MemoryVault, Vault};
use std::io;
use std::process::ExitCode;

/// Answers the requests of standard input on standard output, to the store of a folder, until the input ends. What was answered is
/// synced; the store is not flushed.
pub(crate) fn serve_folder(rt: &HostRuntime, place: Place<'_>) -> ExitCode {
    let screen = Screen::new(rt);
    let mut opened = match store_over_streams(rt, place, &screen) {
        Ok(opened) => opened,
        Err(status) => return status,
    };
    let status = serve_from(rt, &mut opened.store, &screen);
    screen.report_device(&opened.incidents.take_error());
    opened.close();
    status
}

/// The same, to a new store in memory, which is lost at the end.
pub(crate) fn serve_memory(rt: &HostRuntime, limits: Limits) -> ExitCode {
    let screen = Screen::new(rt);
    let vault = MemoryVault::new(rt.alloc());
    match Store::open(rt.alloc(), vault, Options { limits }) {
        Ok(store) => {
            let mut store = store;
            let status = serve_from(rt, &mut store, &screen);
            drop(store.close());
            status
        }
        Err((why, _vault)) => screen.fail(&CommandError::Store(why, None)),
    }
}

fn serve_from<V: Vault>(rt: &HostRuntime, store: &mut Store<V>, screen: &Screen<'_>) -> ExitCode {
    let mut reader = CountedReader::new(rt.reader());
    let mut writer = CountedWriter::new(io::writer(rt));
    match serve(rt.alloc(), store, &mut reader, &mut writer) {
        Ok(()) => ExitCode::SUCCESS,
        Err(error) => screen.fail(&error),
    }
}
