//! Opens the folder of a store, for its store or for its coordinator, and reports why one is not opened.

ghost use Rattle.std.specs.Prelude.{◌≡◌, [], IfOk};

use crate::inspect::report_faults;
use crate::{CommandError, Screen, check_streams};
use lsm_coord::Coord;
use lsm_file_vault::{FileCall, FileVault, FolderError, HostFolder, Incidents, Opened};
use lsm_options::Place;
use lsm_store::{Options, Store};
use std::fs;
use std::io::ErrorKind;
use std::process::ExitCode;

/// A vault in a folder.
pub(crate) type FolderVault = FileVault<HostFolder<HostRuntime>>;

/// A store in a folder.
pub(crate) type FolderStore = Store<FolderVault>;

/// A store in a folder that was opened, and what happens in the folder beside the results of its calls. It is closed in the end, and
/// never dropped: to drop a store is dear to prove.
pub(crate) struct OpenStore {
    pub(crate) store: FolderStore,
    pub(crate) incidents: Incidents,
}

/// The same, of the store's coordinator.
pub(crate) struct OpenCoord {
    pub(crate) coord: Coord<FolderVault>,
    pub(crate) incidents: Incidents,
}

impl OpenStore {
    /// Ends the store, and lets go of its folder.
    pub(crate) fn close(self) {
        let OpenStore { store, incidents } = self;
        drop(store.close());
        drop(incidents);
    }
}

/// The store of a folder, for a command that reads and writes the standard streams. If one of them or the store is not open the reason is
/// reported, and the exit status is returned.
pub(crate) fn store_over_streams(
    rt: &HostRuntime,
    place: Place<'_>,
    screen: &Screen<'_>,
) -> Result<OpenStore, ExitCode> {
    if let Err(error) = check_streams(rt) {
        return Err(screen.fail(&error));
    }
    match open_store(rt, place, screen) {
        Ok(opened) => Ok(opened),
        Err(error) => Err(fail_to_open(rt, place.folder, screen, &error)),
    }
}

/// Opens the folder, and the store that it has. Files that are set aside are reported.
pub(crate) fn open_store(
    rt: &HostRuntime,
    place: Place<'_>,
    screen: &Screen<'_>,
) -> Result<OpenStore, CommandError> {
    let Opened { vault, incidents } = open_vault(rt, place, screen)?;
    let options = Options {
        limits: place.limits,
    };
    match Store::open(rt.alloc(), vault, options) {
        Ok(store) => {
            screen.show_opened(store.latest_sequence(), store.show().files.len());
            screen.report_set_aside(&incidents);
            Ok(OpenStore { store, incidents })
        }
        Err((why, _vault)) => Err(refused(why, screen, &incidents)),
    }
}

/// The same, but a folder that is not there, or has no file, is refused, and none is made.
pub(crate) fn open_made_store(
    rt: &HostRuntime,
    place: Place<'_>,
    screen: &Screen<'_>,
) -> Result<OpenStore, CommandError> {
    if is_bare(rt, place.folder) {
        let folder = String::from_str(rt.alloc(), place.folder)?;
        return Err(CommandError::NoStore(folder));
    }
    open_store(rt, place, screen)
}

/// Opens the store's coordinator alone, for compactions that workers make. A folder that is not there is not made.
pub(crate) fn open_coord(
    rt: &HostRuntime,
    place: Place<'_>,
    screen: &Screen<'_>,
) -> Result<OpenCoord, CommandError>
    ensures { IfOk result (λ opened. opened.coord.book.live ≡ []) }
{
    require_there(rt, place.folder)?;
    let Opened { vault, incidents } = open_vault(rt, place, screen)?;
    match Coord::open(rt.alloc(), vault, place.limits) {
        Ok(coord) => {
            screen.report_set_aside(&incidents);
            Ok(OpenCoord { coord, incidents })
        }
        Err((why, _vault)) => Err(refused(why, screen, &incidents)),
    }
}

// Refuses a folder that is not there.
fn require_there(rt: &HostRuntime, folder: &str) -> Result<(), CommandError> {
    let Err(error) = fs::metadata(rt, folder) else {
        return Ok(());
    };
    let path = String::from_str(rt.alloc(), folder)?;
    let call = FileCall::Open;
    Err(CommandError::Folder(FolderError::Io { path, call, error }))
}

// Opens the folder.
fn open_vault(
    rt: &HostRuntime,
    place: Place<'_>,
    screen: &Screen<'_>,
) -> Result<Opened<HostRuntime>, CommandError> {
    screen.show_opening(place.folder);
    Ok(lsm_file_vault::open_with(rt, place.folder, place.log_sync)?)
}

/// Reports why a folder is not opened, and if its store is refused, why its device failed and what is damaged there. Returns the exit
/// status.
pub(crate) fn fail_to_open(
    rt: &HostRuntime,
    folder: &str,
    screen: &Screen<'_>,
    error: &CommandError,
) -> ExitCode {
    let status = screen.fail(error);
    if let CommandError::Store(_, device) = error {
        screen.report_device(device);
        report_faults(rt, folder, screen);
    }
    status
}

// Whether a folder is not there, or has no file. If that can't be seen, as of what is no folder, an opening says why.
fn is_bare(rt: &HostRuntime, folder: &str) -> bool {
    match fs::read_dir(rt, folder) {
        Ok(mut files) => files.next().is_none(),
        Err(error) => error.kind() == ErrorKind::NotFound,
    }
}

// Why a store is not opened. What was set aside all the same, before a device failed, is reported.
fn refused(
    why: lsm_versions::OpenError,
    screen: &Screen<'_>,
    incidents: &Incidents,
) -> CommandError {
    screen.report_set_aside(incidents);
    CommandError::Store(why, incidents.take_error())
}
