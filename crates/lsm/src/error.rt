//! Why a store in a folder is not opened: the folder is refused, or what its files hold.

ghost use Rattle.lsm_vault.specs.Stored.{VaultValue};
ghost use Rattle.lsm_versions.specs.Opening.{OpenRefuses};
ghost use Rattle.lsm_coord.specs.Contract.Seats.{LogComesFirst};
ghost use Rattle.lsm.specs.Opening.{RefusesSome};

use lsm_file_vault::FolderError;
use thiserror::Error;

/// Why a store in a folder is not opened.
#[derive(Debug, Drop, Error)]
pub enum OpenError {
    /// Memory ran out. No edit and no log record is gone: open the folder again once there is more.
    #[error("out of memory")]
    OutOfMemory,
    /// The folder or one of its files is refused, which the reason names. Nothing was changed but that the folder was
    /// made and, if no file is foreign, its lock. Mend what is named, or open another folder.
    #[error(transparent)]
    Folder(FolderError),
    /// What the files hold makes no store, or a device failed while it was opened. No edit and no log record is gone.
    /// After a device failure the folder may be opened again; otherwise go back to a copy of it.
    #[error(transparent)]
    Contents(lsm_versions::OpenError),
}

impl OpenError {
    /// Why the folder is not opened.
    pub(crate) fn of_folder(why: FolderError) -> OpenError
        ensures { RefusesSome result }
    {
        match why {
            FolderError::OutOfMemory => OpenError::OutOfMemory,
            why => OpenError::Folder(why),
        }
    }

    /// Why what the folder holds is not opened.
    pub(crate) fn of_contents(why: lsm_versions::OpenError) -> OpenError
        ensures { (stored : VaultValue) → OpenRefuses stored why → LogComesFirst stored why → RefusesSome result }
    {
        match why {
            lsm_versions::OpenError::OutOfMemory => OpenError::OutOfMemory,
            why => OpenError::Contents(why),
        }
    }
}
