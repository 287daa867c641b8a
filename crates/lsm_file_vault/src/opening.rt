//! Opening the vault in a folder: what is locked, read and tested before there is a vault over it.

ghost use Rattle.std.specs.Prelude.{◌≡◌, IfOk};
ghost use Rattle.lsm_file_vault.specs.declared.log_sync.LogSync.TheVariants.{Each};

use crate::error::called;
use crate::host_folder::sync_folder;
use crate::listing::list;
use crate::names::{LOCK, file_path, table_path};
use crate::{Contents, FileCall, FileVault, Folder, FolderError, HostFolder, Incidents, LogSync};
use lsm_vault::Vault;
use std::alloc::Global;
use std::fs::{self, File, OpenOptions, TryLockError};
use std::rt::Files;

/// A vault that was opened, and what was found.
#[derive(Drop)]
pub struct Opened<R: Files + AllocGlobal + Drop>
where
    HostFolder<R>: Folder,
{
    pub vault: FileVault<HostFolder<R>>,
    /// What happens in the folder beside the results of the vault's calls.
    pub incidents: Incidents,
}

/// Opens the vault in the folder at `path`, and makes the folder if there is none; the folder above it has to be there. No other
/// process can open it until the vault is dropped or this process ends. Each record of the log is synced before it is answered.
///
/// Every file stays as it is: what is behind the last edit and the last log record is set aside only by the first edit that is
/// appended, and a table that is removed before is renamed then. So whoever opens a store refuses it, for what was read, before
/// anything was changed.
///
/// Of several reasons against it the first one in this order is reported: `NotAFolder`, `ForeignFile`, `Busy`, `MissingEdits`,
/// `DamagedEdits`, `DamagedLog`, `DamagedTable`. Then nothing was changed but that the folder was made and, if no file is foreign, its lock.
pub fn open(rt: &HostRuntime, path: &str) -> Result<Opened<HostRuntime>, FolderError>
    ensures failures { IfOk result (λ opened. ⟦<FileVault<HostFolder<HostRuntime>> as Vault>⟧.failures opened.vault ≡ 0) }
    ensures log_sync { IfOk result (λ opened. opened.vault.folder.log_file.log_sync ≡ Each) }
    ensures path { IfOk result (λ opened. opened.vault.folder.path.bytes.items ≡ path.now) }
{
    open_with(rt, path, LogSync::Each)
}

/// The same, with records of the log that are synced as `log_sync` says.
pub fn open_with(
    rt: &HostRuntime,
    path: &str,
    log_sync: LogSync,
) -> Result<Opened<HostRuntime>, FolderError>
    ensures failures { IfOk result (λ opened. ⟦<FileVault<HostFolder<HostRuntime>> as Vault>⟧.failures opened.vault ≡ 0) }
    ensures log_sync { IfOk result (λ opened. opened.vault.folder.log_file.log_sync ≡ log_sync) }
    ensures path { IfOk result (λ opened. opened.vault.folder.path.bytes.items ≡ path.now) }
{
    create_folder(rt, path)?;
    let _listing = list(rt, path)?;
    let lock = lock(rt, path)?;
    open_contents(rt.clone()?, path, Some(lock), log_sync)
}

/// Opens the vault in the folder at `path`, of which the caller knows that nobody else has it open, over any files.
pub fn open_unlocked<R: Files + AllocGlobal + Clone + Drop>(
    files: R,
    path: &str,
) -> Result<Opened<R>, FolderError>
    ensures failures { IfOk result (λ opened. ⟦<FileVault<HostFolder<R>> as Vault>⟧.failures opened.vault ≡ 0) }
    ensures log_sync { IfOk result (λ opened. opened.vault.folder.log_file.log_sync ≡ Each) }
    ensures path { IfOk result (λ opened. opened.vault.folder.path.bytes.items ≡ path.now) }
{
    create_folder(&files, path)?;
    open_contents(files, path, None, LogSync::Each)
}

/// Reads what the folder at `path` holds, and changes nothing there; damaged tables and torn bytes are reported. The folder is
/// refused while a process has it open, and not opened while it is read. Errors are as of `open`, but for damaged tables.
pub fn read(rt: &HostRuntime, path: &str) -> Result<Contents, FolderError> {
    is_there(rt, path)?;
    let _shared = lock_shared(rt, path)?;
    Contents::read(rt, path)
}

// Opens a folder that is there.
fn open_contents<R: Files + AllocGlobal + Clone + Drop>(
    files: R,
    path: &str,
    lock: Option<File>,
    log_sync: LogSync,
) -> Result<Opened<R>, FolderError>
    ensures failures { IfOk result (λ opened. ⟦<FileVault<HostFolder<R>> as Vault>⟧.failures opened.vault ≡ 0) }
    ensures log_sync { IfOk result (λ opened. opened.vault.folder.log_file.log_sync ≡ log_sync) }
    ensures path { IfOk result (λ opened. opened.vault.folder.path.bytes.items ≡ path.now) }
{
    let alloc = files.alloc();
    let contents = whole_contents(&files, path)?;
    let incidents = Incidents::new(alloc)?;
    let folder = HostFolder::new(files, path, &contents, lock, incidents.share()?, log_sync)?;
    let vault = FileVault::new(alloc, folder, contents.tables, contents.edits, contents.log);
    Ok(Opened { vault, incidents })
}

// What the folder holds. A damaged table is refused.
fn whole_contents<R: Files + AllocGlobal + Clone + Drop>(
    files: &R,
    path: &str,
) -> Result<Contents, FolderError> {
    let contents = Contents::read(files, path)?;
    if let Some(number) = contents.damaged_tables.first() {
        let number = *number;
        let file = table_path(files.alloc(), path, number)?;
        return Err(FolderError::DamagedTable { file, number });
    }
    Ok(contents)
}

// Whether the folder is there.
fn is_there<R: Files + AllocGlobal>(files: &R, path: &str) -> Result<bool, FolderError> {
    match fs::metadata(files, path) {
        Ok(found) => {
            if found.is_dir() {
                Ok(true)
            } else {
                let path = String::from_str(files.alloc(), path)?;
                Err(FolderError::NotAFolder { path })
            }
        }
        Err(_) => Ok(false),
    }
}

// Makes the folder if there is none, so that it outlives the process.
fn create_folder<R: Files + AllocGlobal>(files: &R, path: &str) -> Result<(), FolderError> {
    let alloc = files.alloc();
    if is_there(files, path)? {
        return Ok(());
    }
    let created = fs::create_dir(files, path);
    called(alloc, FileCall::Create, path, created)?;
    let above = file_path(alloc, path, "..")?;
    let synced = sync_folder(files, above.as_str());
    called(alloc, FileCall::Sync, above.as_str(), synced)
}

// Takes the folder for this process, until the file is dropped.
fn lock(rt: &HostRuntime, path: &str) -> Result<File, FolderError> {
    let alloc = rt.alloc();
    let name = file_path(alloc, path, LOCK)?;
    let opened = OpenOptions::new()
        .read(true)
        .write(true)
        .create(true)
        .open(rt, name.as_str());
    let file = called(alloc, FileCall::Open, name.as_str(), opened)?;
    match file.try_lock() {
        Ok(()) => Ok(file),
        Err(error) => Err(not_locked(alloc, path, name.as_str(), error)),
    }
}

// Keeps others from taking the folder, until the file is dropped. A folder that was never opened has no file to lock.
fn lock_shared(rt: &HostRuntime, path: &str) -> Result<Option<File>, FolderError> {
    let alloc = rt.alloc();
    let name = file_path(alloc, path, LOCK)?;
    let exists = fs::exists(rt, name.as_str());
    if !called(alloc, FileCall::Open, name.as_str(), exists)? {
        return Ok(None);
    }
    let opened = fs::open(rt, name.as_str());
    let file = called(alloc, FileCall::Open, name.as_str(), opened)?;
    match file.try_lock_shared() {
        Ok(()) => Ok(Some(file)),
        Err(error) => Err(not_locked(alloc, path, name.as_str(), error)),
    }
}

// Why a lock was not had.
fn not_locked(alloc: Global, path: &str, name: &str, error: TryLockError) -> FolderError {
    match error {
        TryLockError::WouldBlock => match String::from_str(alloc, path) {
            Ok(path) => FolderError::Busy { path },
            Err(_) => FolderError::OutOfMemory,
        },
        TryLockError::Error(error) => FolderError::io(alloc, FileCall::Lock, name, error),
    }
}
