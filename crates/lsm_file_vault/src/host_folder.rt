//! A folder of the operating system: the calls on files behind a vault. No clause tells of a file, so they stand apart, to be read.

ghost use Rattle.std.specs.Prelude.{◌≡◌, ◌<◌, ◌↔◌, ◌++◌, ◌∷◌, [], IfOk, IsTrue, OnOk, false, is_ok, if◌then◌else◌};
ghost use Rattle.lsm_file_vault.specs.LogFiles.{AreSynced};
ghost use Rattle.lsm_file_vault.specs.declared.log_sync.LogSync.TheVariants.{Each};

use crate::aside::{rename_lost_table, write_lost_bytes};
use crate::error::called;
use crate::frame::{frame_header, frames_of, put_frame};
use crate::log_file::LogFile;
use crate::names::{EDITS, NEW_FILE, file_path, table_path};
use crate::{Change, Contents, FileCall, Folder, FolderError, Incidents, LogSync, Notes, SetAside};
use bytes::{Bytes, BytesMut};
use lsm_key::FileNumber;
use std::alloc::Global;
use std::fs::{self, File, OpenFile, OpenOptions};
use std::io::{self, ErrorKind, Seek, SeekFrom, Write};
use std::rt::Files;
use std::snapshot::Snapshot;

/// A folder of the operating system: a file for each table, one for the edits, and one for the log. What a call leaves there is synced
/// before it returns `Ok`, but for records of the log: those are synced as `LogSync` says, and all of them before an edit is appended. If
/// that is refused, so is the edit; then neither a record nor an edit is taken until a cut has written the log anew, or the folder is
/// opened again.
///
/// No clause tells of a file. So `notes` stands for what the folder holds, and that each call makes the file calls which it notes is
/// to be read in its body.
#[derive(Drop)]
pub struct HostFolder<R: Files + AllocGlobal + Drop> {
    files: R,
    path: String,
    edits_file: R::File,
    // How many bytes the edits take in their file.
    edits_bytes: u64,
    // The folder was opened with bytes behind the edits, and no edit was appended yet. Until then a table that is removed is set
    // aside, since those bytes may be of an edit that names it.
    is_torn: bool,
    // These bytes, until they are set aside.
    torn: Bytes,
    log_file: LogFile<R>,
    // A table or a log that was never finished is there, until the first edit is appended.
    has_new: bool,
    // A refused edit may still stand behind the others, so no other one can follow them, and the tables that it names have to stay as
    // they are.
    is_broken: bool,
    // Held open for its lock.
    lock: Option<File>,
    incidents: Incidents,
    notes: Notes,
}

impl<R: Files + AllocGlobal + Drop> HostFolder<R> {
    /// The folder at `path` that was found to have these contents. The file of the edits and that of the log are made if there are
    /// none, and nothing else is changed.
    pub(crate) fn new(
        files: R,
        path: &str,
        contents: &Contents,
        lock: Option<File>,
        incidents: Incidents,
        log_sync: LogSync,
    ) -> Result<HostFolder<R>, FolderError>
        ensures tables { IfOk result (λ folder. ⟦<HostFolder<R> as Folder>⟧.tables folder ≡ contents.now.tables) }
        ensures edits { IfOk result (λ folder. ⟦<HostFolder<R> as Folder>⟧.edits folder ≡ contents.now.edits.items) }
        ensures log { IfOk result (λ folder. ⟦<HostFolder<R> as Folder>⟧.log folder ≡ contents.now.log.items) }
        ensures synced { IfOk result ⟦<HostFolder<R> as Folder>⟧.is_synced }
        ensures log_sync { IfOk result (λ folder. folder.log_file.log_sync ≡ log_sync) }
        ensures path { IfOk result (λ folder. folder.path.bytes.items ≡ path.now) }
        ensures torn { IfOk result (λ folder. (IsTrue folder.is_torn ↔ 0 < contents.now.torn_bytes) × (folder.torn ≡ contents.now.torn)) }
    {
        let torn = contents.torn.clone()?;
        let last = last_of(contents.edits.as_slice());
        let edits_file = ready_file(&files, path, EDITS, last, contents.edits_bytes)?;
        let log_file = LogFile::open(&files, path, contents, log_sync)?;
        called(
            files.alloc(),
            FileCall::Sync,
            path,
            sync_folder(&files, path),
        )?;
        let path = String::from_str(files.alloc(), path)?;
        Ok(HostFolder {
            files,
            path,
            edits_file,
            edits_bytes: contents.edits_bytes,
            is_torn: contents.torn_bytes > 0,
            torn,
            log_file,
            has_new: contents.has_new,
            is_broken: false,
            lock,
            incidents,
            notes: Notes::of(contents),
        })
    }

    // Refuses a change if a refused edit may still stand in its file: until the folder is opened again.
    fn refuse_if_broken(&self) -> io::Result<()> {
        if self.is_broken {
            return Err(io::Error::other("a refused edit may be in the file of the edits"));
        }
        Ok(())
    }

    // Writes a table beside its file, and gives it the file's name once it is whole on the disk.
    fn write_table(&self, number: FileNumber, table: &[u8]) -> io::Result<()> {
        self.refuse_if_broken()?;
        let path = self.path.as_str();
        let alloc = self.files.alloc();
        let new = file_path(alloc, path, NEW_FILE)?;
        // A file that is there is not written over: it may be another name of a table's file, as half a renaming leaves it.
        remove_if_there(&self.files, new.as_str())?;
        write_table_file(&self.files, new.as_str(), table)?;
        let named = table_path(alloc, path, number)?;
        fs::rename(&self.files, new.as_str(), named.as_str())?;
        sync_folder(&self.files, path)
    }

    // Removes a table's file, if there is one, or sets it aside if an edit that names it may be behind the others.
    fn remove_file(&self, number: FileNumber) -> io::Result<()> {
        self.refuse_if_broken()?;
        let path = self.path.as_str();
        let named = table_path(self.files.alloc(), path, number)?;
        if self.is_torn {
            self.set_table_aside(number, named.as_str())?;
        } else {
            remove_if_there(&self.files, named.as_str())?;
        }
        sync_folder(&self.files, path)
    }

    // Renames a table's file, if there is one.
    fn set_table_aside(&self, number: FileNumber, named: &str) -> io::Result<()> {
        self.incidents.reserve()?;
        let renamed = rename_lost_table(&self.files, self.path.as_str(), number, named)?;
        if let Some(name) = renamed {
            self.incidents
                .note_set_aside(SetAside::Table { name, number });
        }
        Ok(())
    }

    // Writes an edit behind the others, once the log is synced: else a power cut could leave a log that ends before what the edit says is
    // flushed. What a refused one may have left is cut off.
    fn write_edit(&mut self, edit: &[u8]) -> io::Result<()>
        ensures same { self.new.notes ≡ self.old.notes }
        ensures synced { OnOk result (AreSynced self.new.log_file.is_unsynced self.new.log_file.gathered.items) }
        ensures torn { OnOk result (self.new.is_torn ≡ false) }
    {
        self.refuse_if_broken()?;
        let mut framed = BytesMut::new(self.files.alloc());
        put_frame(&mut framed, edit)?;
        self.clear_opened()?;
        self.log_file.sync()?;
        let written = write_at(&mut self.edits_file, self.edits_bytes, framed.as_slice());
        match written {
            Ok(()) => {
                self.edits_bytes = self.edits_bytes.saturating_add(framed.len() as u64);
                self.is_torn = false;
            }
            Err(_) => self.is_broken = cut_at(&self.edits_file, self.edits_bytes).is_err(),
        }
        written
    }

    // What an opening leaves to the first append, since it changes nothing itself: what is behind the edits and behind the log is set
    // aside and cut off, and a table or a log that was never finished is removed.
    fn clear_opened(&mut self) -> io::Result<()>
        ensures { self.new.notes ≡ self.old.notes }
    {
        if self.is_torn {
            self.set_torn_aside()?;
            cut_at(&self.edits_file, self.edits_bytes)?;
        }
        self.log_file
            .clear_torn(&self.files, self.path.as_str(), &self.incidents)?;
        if self.has_new {
            let new = file_path(self.files.alloc(), self.path.as_str(), NEW_FILE)?;
            remove_if_there(&self.files, new.as_str())?;
            self.has_new = false;
        }
        Ok(())
    }

    // Keeps what is behind the edits in a file of its own. It is done once, though the append is tried again.
    fn set_torn_aside(&mut self) -> io::Result<()>
        ensures { self.new.notes ≡ self.old.notes }
    {
        if self.torn.is_empty() {
            return Ok(());
        }
        self.incidents.reserve()?;
        let torn = self.torn.as_slice();
        let path = self.path.as_str();
        let name = write_lost_bytes(&self.files, path, EDITS, self.edits_bytes, torn)?;
        let bytes = torn.len() as u64;
        self.incidents
            .note_set_aside(SetAside::Edits { name, bytes });
        self.torn = Bytes::new();
        Ok(())
    }
}

// The last edit alone, or none if there is none.
fn last_of(edits: &[Bytes]) -> &[Bytes] {
    &edits[edits.len().saturating_sub(1)..]
}

/// The file of this name, in which the edits or the log records take so many bytes; it is made if there is none. The last ones, which
/// are these, are written again with the same bytes and synced: if a sync of them has failed before the process ended, they are read
/// from memory and not on the disk, and another sync alone does not bring them there.
pub(crate) fn ready_file<R: Files + AllocGlobal>(
    files: &R,
    path: &str,
    name: &str,
    last: &[Bytes],
    bytes: u64,
) -> Result<R::File, FolderError> {
    let alloc = files.alloc();
    let name = file_path(alloc, path, name)?;
    let mut file = open_file(files, name.as_str())?;
    let written = write_again(alloc, &mut file, last, bytes);
    called(alloc, FileCall::Write, name.as_str(), written)?;
    called(alloc, FileCall::Sync, name.as_str(), file.sync_all())?;
    Ok(file)
}

// Opens a file, and makes it if there is none.
fn open_file<R: Files + AllocGlobal>(files: &R, file: &str) -> Result<R::File, FolderError> {
    let mut options = OpenOptions::new();
    options.read(true).write(true).create(true);
    let opened = options.open(files, file);
    called(files.alloc(), FileCall::Open, file, opened)
}

// Writes the last ones where they are already: at the end of so many bytes.
fn write_again<F: Seek + Write>(
    alloc: Global,
    file: &mut F,
    last: &[Bytes],
    bytes: u64,
) -> io::Result<()> {
    let framed = frames_of(alloc, last)?;
    let offset = bytes.saturating_sub(framed.len() as u64);
    put_at(file, offset, framed.as_slice())
}

/// Writes bytes to a file from this offset on.
pub(crate) fn put_at<F: Seek + Write>(file: &mut F, offset: u64, bytes: &[u8]) -> io::Result<()> {
    file.seek(SeekFrom::Start(offset))?;
    file.write_all(bytes)
}

/// The same, and syncs them.
pub(crate) fn write_at<F: Seek + Write + OpenFile>(
    file: &mut F,
    offset: u64,
    bytes: &[u8],
) -> io::Result<()> {
    put_at(file, offset, bytes)?;
    file.sync_data()
}

/// Cuts off what stands in a file from this offset on.
pub(crate) fn cut_at<F: OpenFile>(file: &F, offset: u64) -> io::Result<()> {
    file.set_len(offset)?;
    file.sync_all()
}

/// Removes a file, if there is one.
pub(crate) fn remove_if_there(files: &impl Files, name: &str) -> io::Result<()> {
    match fs::remove_file(files, name) {
        Err(error) if error.kind() != ErrorKind::NotFound => Err(error),
        _ => Ok(()),
    }
}

// Writes the frame of a table to a file of this name.
fn write_table_file<R: Files + AllocGlobal>(files: &R, name: &str, table: &[u8]) -> io::Result<()> {
    let mut header = BytesMut::new(files.alloc());
    frame_header(&mut header, table)?;
    write_file(files, name, header.as_slice(), table)?;
    Ok(())
}

/// Makes a file of this name, which no file has, writes two parts to it, and syncs it. If that fails, it is removed.
pub(crate) fn write_file<R: Files>(
    files: &R,
    name: &str,
    front: &[u8],
    rest: &[u8],
) -> io::Result<R::File> {
    let mut file = File::create_new(files, name)?;
    match write_parts(&mut file, front, rest) {
        Ok(()) => Ok(file),
        Err(error) => {
            let _ = fs::remove_file(files, name);
            Err(error)
        }
    }
}

// Writes two parts to a file, and syncs it.
fn write_parts<F: Write + OpenFile>(file: &mut F, front: &[u8], rest: &[u8]) -> io::Result<()> {
    file.write_all(front)?;
    file.write_all(rest)?;
    file.sync_all()
}

// Syncs the folder's list of files.
pub(crate) fn sync_folder(files: &impl Files, path: &str) -> io::Result<()> {
    fs::open(files, path)?.sync_all()
}

impl<R: Files + AllocGlobal + Drop> Folder for HostFolder<R> {
    ghost tables = { λ f. f.notes.tables };

    ghost edits = { λ f. f.notes.edits };

    ghost log = { λ f. f.notes.log };

    ghost is_synced = { λ f. AreSynced f.log_file.is_unsynced f.log_file.gathered.items };

    fn put_table(&mut self, number: FileNumber, table: &Bytes) -> io::Result<()> {
        self.incidents
            .noting(self.write_table(number, table.as_slice()))?;
        self.notes = self
            .notes
            .after(&Change::TablePut(number, Snapshot::of(table)));
        Ok(())
    }

    fn remove_table(&mut self, number: FileNumber) -> io::Result<()> {
        self.incidents.noting(self.remove_file(number))?;
        self.notes = self.notes.after(&Change::TableRemoved(number));
        Ok(())
    }

    fn append_edit(&mut self, edit: &Bytes) -> io::Result<()> {
        let written = self.write_edit(edit.as_slice());
        self.incidents.noting(written)?;
        self.notes = self.notes.after(&Change::EditAppended(Snapshot::of(edit)));
        Ok(())
    }

    fn append_log(&mut self, logged: &Bytes) -> io::Result<()>
        ensures log { self.new.notes.log ≡ (if is_ok result then self.old.notes.log ++ logged.now ∷ [] else self.old.notes.log) }
        ensures tables { self.new.notes.tables ≡ self.old.notes.tables }
        ensures edits { self.new.notes.edits ≡ self.old.notes.edits }
        ensures synced { OnOk result (self.old.log_file.log_sync ≡ Each → AreSynced self.new.log_file.is_unsynced self.new.log_file.gathered.items) }
    {
        let path = self.path.as_str();
        let written = self
            .log_file
            .append(&self.files, path, &self.incidents, logged.as_slice());
        self.incidents.noting(written)?;
        self.notes = self.notes.after(&Change::LogAppended(Snapshot::of(logged)));
        Ok(())
    }

    fn cut_log(&mut self, count: usize, left: &[Bytes]) -> io::Result<()> {
        let path = self.path.as_str();
        let cut = self
            .log_file
            .cut(&self.files, path, &self.incidents, count, left);
        self.incidents.noting(cut)?;
        self.notes = self.notes.after(&Change::LogCut(count));
        Ok(())
    }

    fn sync_log(&mut self) -> io::Result<()> {
        let synced = self.log_file.sync();
        self.incidents.noting(synced)
    }
}
