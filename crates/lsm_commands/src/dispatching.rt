//! The command `dispatch`: compactions that workers in other processes make.

ghost use Rattle.std.specs.Prelude.{◌≡◌};

use crate::made::Made;
use crate::opening::{OpenCoord, fail_to_open, open_coord};
use crate::{Screen, check_streams};
use lsm_coord::Coord;
use lsm_dispatch::{DispatchError, dispatch};
use lsm_io::{CountedReader, CountedWriter};
use lsm_msg::NodeIndex;
use lsm_options::{Place, REFUSED};
use lsm_store::Due;
use lsm_vault::Vault;
use std::alloc::Global;
use std::io;
use std::process::ExitCode;

/// Has the compactions of a folder's store made by this number of workers behind standard input and output, until none is due. What they
/// made, and what exceeds a job size limit, is reported.
pub(crate) fn dispatch_jobs(rt: &HostRuntime, place: Place<'_>, number: u8) -> ExitCode {
    let Some(workers) = NodeIndex::new(number) else {
        return ExitCode::from(REFUSED);
    };
    let screen = Screen::new(rt);
    if let Err(error) = check_streams(rt) {
        return screen.fail(&error);
    }
    let opened = match open_coord(rt, place, &screen) {
        Ok(opened) => opened,
        Err(error) => return fail_to_open(rt, place.folder, &screen, &error),
    };
    let OpenCoord { coord, incidents } = opened;
    let mut coord = coord;
    let before = edit_count(&mut coord);
    let mut reader = CountedReader::new(rt.reader());
    let mut writer = CountedWriter::new(io::writer(rt));
    let dispatched = dispatch(rt.alloc(), &mut coord, workers, &mut reader, &mut writer);
    if let Some(made) = made_since(rt.alloc(), &mut coord, before) {
        screen.report(&made);
    }
    let status = end(dispatched, &screen);
    screen.report_device(&incidents.take_error());
    drop(coord.close());
    status
}

// How many edits the store has, if there is memory to read them.
fn edit_count<V: Vault>(coord: &mut Coord<V>) -> Option<usize>
    ensures { coord.new.book ≡ coord.old.book }
{
    Some(coord.edits().ok()?.len())
}

// What the installs behind the first edits have made.
fn made_since<V: Vault>(
    alloc: Global,
    coord: &mut Coord<V>,
    before: Option<usize>,
) -> Option<Made> {
    let edits = coord.edits().ok()?;
    Made::by_edits(alloc, edits.get(before?..)?).ok()
}

// Reports how a dispatch ended, and returns the exit status.
fn end(dispatched: Result<Due, DispatchError>, screen: &Screen<'_>) -> ExitCode {
    match dispatched {
        Ok(Due::TooLarge) => {
            screen.report(&"what is due exceeds the job limits");
            ExitCode::SUCCESS
        }
        Ok(_) => ExitCode::SUCCESS,
        Err(error) => screen.fail(&error),
    }
}
