//! What happens in a folder beside the results of calls.

ghost use Rattle.std.specs.Prelude.{◌≡◌};

use lsm_key::FileNumber;
use std::alloc::{AllocError, Global};
use std::sync::{Arc, Mutex};
use std::{fmt, io, mem};

/// A file that was set aside: nobody reads it any more, and nothing is written over it.
#[derive(Drop)]
pub enum SetAside {
    /// The bytes that stood behind the last edit, in the file of this name.
    Edits { name: String, bytes: u64 },
    /// The bytes that stood behind the last record of the log, in the file of this name.
    Log { name: String, bytes: u64 },
    /// A table that no edit lists, under this name.
    Table { name: String, number: FileNumber },
}

impl fmt::Display for SetAside {
    fn fmt<W: fmt::Write>(&self, f: &mut fmt::Formatter<W>) -> fmt::Result {
        match self {
            SetAside::Edits { name, bytes } => write!(
                f,
                "{bytes} torn or damaged bytes behind the last edit are set aside in {name}"
            ),
            SetAside::Log { name, bytes } => write!(
                f,
                "{bytes} torn or damaged bytes behind the last log record are set aside in {name}"
            ),
            SetAside::Table { name, number } => {
                let number = number.number();
                write!(f, "the table {number} is set aside in {name}")
            }
        }
    }
}

/// What has happened in the folder of a vault beside the results of its calls. The folder shares it, so that it can be asked while a
/// store has the vault.
#[derive(Drop)]
pub struct Incidents {
    shared: Arc<Mutex<Seen>>,
}

// What was not asked for yet.
#[derive(Drop)]
struct Seen {
    set_aside: Vec<SetAside>,
    error: Option<io::Error>,
}

impl Incidents {
    pub(crate) fn new(alloc: Global) -> Result<Incidents, AllocError> {
        let seen = Seen {
            set_aside: Vec::new(alloc),
            error: None,
        };
        let shared = Arc::new(alloc, Mutex::new(seen))?;
        Ok(Incidents { shared })
    }

    /// The same, for another owner.
    pub(crate) fn share(&self) -> Result<Incidents, AllocError> {
        let shared = Arc::try_clone(&self.shared)?;
        Ok(Incidents { shared })
    }

    /// The files that were set aside since this was last asked, in the order in which they were.
    pub fn take_set_aside(&self, alloc: Global) -> Vec<SetAside> {
        let none = Vec::new(alloc);
        match self.shared.try_lock() {
            Some(mut seen) => mem::replace(&mut seen.set_aside, none),
            None => none,
        }
    }

    /// Why the operating system refused the last call that it refused, once. A refusal for memory is not kept.
    pub fn take_error(&self) -> Option<io::Error> {
        match self.shared.try_lock() {
            Some(mut seen) => seen.error.take(),
            None => None,
        }
    }

    /// Keeps why a call was refused, and returns what it has returned.
    pub(crate) fn noting(&self, returned: io::Result<()>) -> io::Result<()>
        ensures { result ≡ returned }
    {
        if let Err(error) = returned {
            if error.kind() != io::ErrorKind::OutOfMemory {
                self.note_error(error);
            }
        }
        returned
    }

    fn note_error(&self, error: io::Error) {
        if let Some(mut seen) = self.shared.try_lock() {
            seen.error = Some(error);
        }
    }

    /// Sees that one more file can be noted.
    pub(crate) fn reserve(&self) -> Result<(), AllocError> {
        match self.shared.try_lock() {
            Some(mut seen) => seen.set_aside.reserve(1),
            None => Ok(()),
        }
    }

    /// Notes a file that was set aside, for which room is reserved.
    pub(crate) fn note_set_aside(&self, file: SetAside) {
        if let Some(mut seen) = self.shared.try_lock() {
            let _ = seen.set_aside.push(file);
        }
    }
}
