//! Opening a store in a folder: the vault of the folder, and then the store over it, with one error for both.

ghost use Rattle.std.specs.Prelude.{IfErr, IfOk};
ghost use Rattle.lsm.specs.Opening.{OpensSome, RefusesSome};

use crate::OpenError;
use lsm_file_vault::{FileVault, HostFolder, Incidents, LogSync};
use lsm_store::{Options, Store};

/// A vault in a folder.
pub type FolderVault = FileVault<HostFolder<HostRuntime>>;

/// A store in a folder.
pub type FolderStore = Store<FolderVault>;

/// A store in a folder that was opened, and what happens in the folder beside the results of its calls.
#[derive(Drop)]
pub struct Opened {
    pub store: FolderStore,
    pub incidents: Incidents,
}

/// Opens the store in the folder at `path`, and makes the folder if there is none; the folder above it has to be there. No other process
/// can open it until the store is dropped or this process ends. Each write is synced before it is answered.
///
/// Refuses: `Folder` if the folder or a file in it is refused, and then `Contents` if what the files hold makes no store. Want of memory
/// may come in any place.
pub fn open(rt: &HostRuntime, path: &str, options: Options) -> Result<FolderStore, OpenError>
    ensures ok { IfOk result (OpensSome options.limits) }
    ensures refused { IfErr result RefusesSome }
{
    let Opened { store, incidents } = open_with(rt, path, options, LogSync::Each)?;
    drop(incidents);
    Ok(store)
}

/// The same, with a log that is synced as `log_sync` says, and with what happens in the folder, such as files that are set aside.
pub fn open_with(
    rt: &HostRuntime,
    path: &str,
    options: Options,
    log_sync: LogSync,
) -> Result<Opened, OpenError>
    ensures ok { IfOk result (λ opened. OpensSome options.limits opened.store) }
    ensures refused { IfErr result RefusesSome }
{
    let lsm_file_vault::Opened { vault, incidents } = match lsm_file_vault::open_with(
        rt, path, log_sync,
    ) {
        Ok(opened) => opened,
        Err(why) => return Err(OpenError::of_folder(why)),
    };
    match Store::open(rt.alloc(), vault, options) {
        Ok(store) => Ok(Opened { store, incidents }),
        Err((why, _vault)) => Err(OpenError::of_contents(why)),
    }
}
