//! The file of a folder's log: a frame for each record.

ghost use Rattle.std.specs.Prelude.{◌≡◌, ◌<◌, ◌↔◌, ◌++◌, [], IfOk, IsErr, IsOk, IsTrue, OnErr, OnOk, false, if◌then◌else◌, is_err, length, take, true};
ghost use Rattle.lsm_file_vault.specs.Frames.{frame, frames};
ghost use Rattle.lsm_file_vault.specs.LogFiles.{IsShort, AreSynced, cuts_none, gathered_after, is_late, is_unsynced_after, place_after, place_behind};
ghost use Rattle.lsm_file_vault.specs.declared.log_sync.LogSync.TheVariants.{Each};

use crate::aside::write_lost_bytes;
use crate::frame::{frames_of, put_frame};
use crate::host_folder::{
    cut_at, put_at, ready_file, remove_if_there, sync_folder, write_at, write_file,
};
use crate::names::{LOG, NEW_FILE, file_path};
use crate::{Contents, FolderError, Incidents, LogSync, SetAside};
use bytes::{Bytes, BytesMut};
use std::fs::{self, OpenFile};
use std::io;
use std::rt::Files;

// How many bytes of frames are gathered before they are written: enough that a call costs little for each record, and few enough to
// lose with a process that is killed.
const MOST_GATHERED: usize = 64 * 1024;

// Room for more than this is let go once it is empty: one large record has made it.
const MOST_ROOM: usize = 4 * MOST_GATHERED;

/// The file of a folder's log, open. What a cut leaves in it is synced before it returns `Ok`, and what is appended as `LogSync` says.
#[derive(Drop)]
pub(crate) struct LogFile<R: Files + AllocGlobal + Drop> {
    file: R::File,
    log_sync: LogSync,
    // How many bytes the records take in it, those that are gathered left out.
    bytes: u64,
    // The frames of the last records, which are not written yet.
    gathered: BytesMut,
    // Records that are written were not synced since.
    is_unsynced: bool,
    // The file was opened with bytes behind the records, which are not cut off yet.
    is_torn: bool,
    // These bytes, until they are set aside.
    torn: Bytes,
    // A refused record may still stand behind the others, records may be missing that a refused sync was to bring to the disk, or the
    // file may not be the one that has the log's name there. So no record can follow until a cut has written the log anew, or the
    // folder is opened again.
    is_broken: bool,
}

impl<R: Files + AllocGlobal + Drop> LogFile<R> {
    /// The file of the log in the folder at `path`, which was found to have these contents. It is made if there is none, and the folder
    /// has to be synced then. All records are written again and synced: a process before this one may have ended after a sync that
    /// failed, or without one.
    pub(crate) fn open(
        files: &R,
        path: &str,
        contents: &Contents,
        log_sync: LogSync,
    ) -> Result<LogFile<R>, FolderError>
        ensures synced { IfOk result (λ file. AreSynced file.is_unsynced file.gathered.items) }
        ensures log_sync { IfOk result (λ file. file.log_sync ≡ log_sync) }
        ensures bytes { IfOk result (λ file. file.bytes ≡ contents.now.log_bytes) }
        ensures torn { IfOk result (λ file. (IsTrue file.is_torn ↔ 0 < contents.now.torn_log_bytes) × (file.torn ≡ contents.now.torn_log)) }
        ensures doubt { IfOk result (λ file. file.is_broken ≡ false) }
    {
        let torn = contents.torn_log.clone()?;
        let file = ready_file(
            files,
            path,
            LOG,
            contents.log.as_slice(),
            contents.log_bytes,
        )?;
        Ok(LogFile {
            file,
            log_sync,
            bytes: contents.log_bytes,
            gathered: BytesMut::new(files.alloc()),
            is_unsynced: false,
            is_torn: contents.torn_log_bytes > 0,
            torn,
            is_broken: false,
        })
    }

    /// Adds a record behind the others: to those that are gathered, or to the file. A refused one is in neither; what it may have left in
    /// the file is cut off, and if that is refused too, the log is broken, and takes no record.
    pub(crate) fn append(
        &mut self,
        files: &R,
        path: &str,
        incidents: &Incidents,
        logged: &[u8],
    ) -> io::Result<()>
        ensures synced { OnOk result (self.old.log_sync ≡ Each → AreSynced self.new.is_unsynced self.new.gathered.items) }
        ensures gathered { OnOk result (self.new.gathered.items ≡ gathered_after self.old.log_sync (self.old.gathered.items ++ frame logged.now)) }
        ensures unsynced { OnOk result (self.new.is_unsynced ≡ is_unsynced_after self.old.log_sync (self.old.gathered.items ++ frame logged.now) self.old.is_unsynced) }
        ensures bytes { OnOk result (self.new.bytes ≡ place_after self.old.log_sync (self.old.gathered.items ++ frame logged.now) self.old.bytes) }
        ensures kept { OnErr result ((self.new.gathered.items ≡ self.old.gathered.items) × (self.new.is_unsynced ≡ self.old.is_unsynced) × (self.new.bytes ≡ self.old.bytes)) }
        ensures few { IsShort self.old.gathered.items → IsShort self.new.gathered.items }
        ensures torn { OnOk result (self.new.is_torn ≡ false) }
        ensures broken { self.old.is_broken ≡ true → IsErr result × (self.new.is_broken ≡ true) }
        ensures doubt { OnOk result (self.new.is_broken ≡ false) }
        ensures log_sync { self.new.log_sync ≡ self.old.log_sync }
    {
        self.refuse_if_broken()?;
        self.clear_torn(files, path, incidents)?;
        let before = self.gathered.len();
        let added = self.add(logged);
        if added.is_err() {
            self.gathered.truncate(before);
        }
        if self.gathered.is_empty() && self.gathered.capacity() > MOST_ROOM {
            self.gathered = BytesMut::new(files.alloc());
        }
        added
    }

    // Gathers the frame of a record, and writes what is gathered when it is time. If that is refused, a part of the frame, or all of it,
    // may be gathered.
    fn add(&mut self, logged: &[u8]) -> io::Result<()>
        requires { self.old.is_broken ≡ false }
        ensures synced { OnOk result (self.old.log_sync ≡ Each → AreSynced self.new.is_unsynced self.new.gathered.items) }
        ensures gathered { OnOk result (self.new.gathered.items ≡ gathered_after self.old.log_sync (self.old.gathered.items ++ frame logged.now)) }
        ensures unsynced { OnOk result (self.new.is_unsynced ≡ is_unsynced_after self.old.log_sync (self.old.gathered.items ++ frame logged.now) self.old.is_unsynced) }
        ensures bytes { OnOk result (self.new.bytes ≡ place_after self.old.log_sync (self.old.gathered.items ++ frame logged.now) self.old.bytes) }
        ensures kept { OnErr result ((take (length self.old.gathered.items) self.new.gathered.items ≡ self.old.gathered.items) × (self.new.is_unsynced ≡ self.old.is_unsynced) × (self.new.bytes ≡ self.old.bytes)) }
        ensures torn { self.new.is_torn ≡ self.old.is_torn }
        ensures doubt { OnOk result (self.new.is_broken ≡ false) }
        ensures log_sync { self.new.log_sync ≡ self.old.log_sync }
    {
        put_frame(&mut self.gathered, logged)?;
        if self.log_sync == LogSync::Gathered && self.gathered.len() < MOST_GATHERED {
            return Ok(());
        }
        self.write_gathered()
    }

    // Writes what is gathered behind the others, and syncs it if each record is to be synced.
    fn write_gathered(&mut self) -> io::Result<()>
        ensures synced { OnOk result (self.old.log_sync ≡ Each → AreSynced self.new.is_unsynced self.new.gathered.items) }
        ensures gathered { OnOk result (self.new.gathered.items ≡ []) }
        ensures unsynced { OnOk result (self.new.is_unsynced ≡ is_late self.old.log_sync) }
        ensures bytes { OnOk result (self.new.bytes ≡ place_behind self.old.bytes self.old.gathered.items) }
        ensures kept { OnErr result ((self.new.gathered.items ≡ self.old.gathered.items) × (self.new.is_unsynced ≡ self.old.is_unsynced) × (self.new.bytes ≡ self.old.bytes)) }
        ensures torn { self.new.is_torn ≡ self.old.is_torn }
        ensures doubt { OnOk result (self.new.is_broken ≡ self.old.is_broken) }
        ensures log_sync { self.new.log_sync ≡ self.old.log_sync }
    {
        let is_synced = self.log_sync == LogSync::Each;
        let written = if is_synced {
            write_at(&mut self.file, self.bytes, self.gathered.as_slice())
        } else {
            put_at(&mut self.file, self.bytes, self.gathered.as_slice())
        };
        match written {
            Ok(()) => {
                self.count_gathered();
                self.is_unsynced = !is_synced;
            }
            Err(_) => {
                let _ = self.cut_refused();
            }
        }
        written
    }

    // Cuts off what a refused write may have left. If that is refused too, the log is broken.
    fn cut_refused(&mut self) -> io::Result<()>
        ensures doubt { self.new.is_broken ≡ is_err result }
        ensures same { self.new ≡ record (self.old) { is_broken = self.new.is_broken } }
    {
        let cut = cut_at(&self.file, self.bytes);
        self.is_broken = cut.is_err();
        cut
    }

    // What was gathered stands in the file.
    fn count_gathered(&mut self)
        ensures gathered { self.new.gathered.items ≡ [] }
        ensures bytes { self.new.bytes ≡ place_behind self.old.bytes self.old.gathered.items }
        ensures same { self.new ≡ record (self.old) { bytes = self.new.bytes; gathered = self.new.gathered } }
    {
        self.bytes = self.bytes.saturating_add(self.gathered.len() as u64);
        self.gathered.clear();
    }

    /// Syncs the records that were appended since the last sync, and writes those of them that are gathered. If it is refused, the log is
    /// broken, and each sync after it is refused until it no longer is.
    pub(crate) fn sync(&mut self) -> io::Result<()>
        ensures synced { OnOk result (AreSynced self.new.is_unsynced self.new.gathered.items) }
        ensures none { AreSynced self.old.is_unsynced self.old.gathered.items → IsOk result × (self.new ≡ self.old) }
        ensures bytes { OnOk result ((AreSynced self.old.is_unsynced self.old.gathered.items → ⊥) → self.new.bytes ≡ place_behind self.old.bytes self.old.gathered.items) }
        ensures kept { OnErr result ((self.new.gathered.items ≡ self.old.gathered.items) × (self.new.is_unsynced ≡ self.old.is_unsynced) × (self.new.bytes ≡ self.old.bytes)) }
        ensures few { IsShort self.old.gathered.items → IsShort self.new.gathered.items }
        ensures refused { OnOk result (self.old.is_broken ≡ true → AreSynced self.old.is_unsynced self.old.gathered.items) }
        ensures doubt { self.new.is_broken ≡ (if is_err result then true else self.old.is_broken) }
        ensures rest { (self.new.is_torn ≡ self.old.is_torn) × (self.new.log_sync ≡ self.old.log_sync) }
    {
        if self.is_synced() {
            return Ok(());
        }
        self.refuse_if_broken()?;
        self.sync_gathered()?;
        self.count_gathered();
        self.is_unsynced = false;
        Ok(())
    }

    // Writes what is gathered, and syncs the file. In doubt until it is synced: another sync after one that fails does not bring to the
    // disk what that one was to bring.
    fn sync_gathered(&mut self) -> io::Result<()>
        ensures doubt { self.new.is_broken ≡ is_err result }
        ensures same { self.new ≡ record (self.old) { file = self.new.file; is_broken = self.new.is_broken } }
    {
        self.is_broken = true;
        write_at(&mut self.file, self.bytes, self.gathered.as_slice())?;
        self.is_broken = false;
        Ok(())
    }

    // Whether each record is in the file and synced.
    fn is_synced(&self) -> bool
        ensures { IsTrue result ↔ AreSynced self.now.is_unsynced self.now.gathered.items }
    {
        !self.is_unsynced && self.gathered.is_empty()
    }

    fn refuse_if_broken(&self) -> io::Result<()>
        ensures { is_err result ≡ self.now.is_broken }
    {
        if !self.is_broken {
            return Ok(());
        }
        if self.is_synced() {
            return Err(io::Error::other("a refused record may be in the file of the log"));
        }
        Err(io::Error::other("records of the log may not be on the disk"))
    }

    /// Cuts this many records off the front, or all if there are fewer; these are left, and are synced. A log that is broken is written
    /// anew, and no longer broken then. One that is refused leaves a broken log broken, and brings no record to the disk or back.
    pub(crate) fn cut(
        &mut self,
        files: &R,
        path: &str,
        incidents: &Incidents,
        count: usize,
        left: &[Bytes],
    ) -> io::Result<()>
        ensures none { OnOk result (cuts_none self.old.is_broken count self.old.bytes self.old.gathered.items ≡ true → self.new ≡ self.old) }
        ensures cut { OnOk result (cuts_none self.old.is_broken count self.old.bytes self.old.gathered.items ≡ false → AreSynced self.new.is_unsynced self.new.gathered.items × (self.new.bytes ≡ length (frames left.now)) × (self.new.is_torn ≡ false)) }
        ensures kept { OnErr result (AreSynced self.new.is_unsynced self.new.gathered.items ↔ AreSynced self.old.is_unsynced self.old.gathered.items) }
        ensures few { IsShort self.old.gathered.items → IsShort self.new.gathered.items }
        ensures doubt { OnOk result (self.new.is_broken ≡ false) }
        ensures broken { OnErr result (self.old.is_broken ≡ true → self.new.is_broken ≡ true) }
        ensures log_sync { self.new.log_sync ≡ self.old.log_sync }
    {
        let has_none = self.bytes == 0 && self.gathered.is_empty();
        if !self.is_broken && (count == 0 || has_none) {
            return Ok(());
        }
        self.clear_torn(files, path, incidents)?;
        if left.is_empty() && !self.is_broken {
            self.cut_all()
        } else {
            self.write_anew(files, path, left)
        }
    }

    /// Sets aside what the opening found behind the records, and cuts it off.
    pub(crate) fn clear_torn(
        &mut self,
        files: &R,
        path: &str,
        incidents: &Incidents,
    ) -> io::Result<()>
        ensures torn { self.new.is_torn ≡ (if is_err result then self.old.is_torn else false) }
        ensures same { self.new ≡ record (self.old) { is_torn = self.new.is_torn; torn = self.new.torn } }
    {
        if self.is_torn {
            self.set_torn_aside(files, path, incidents)?;
            cut_at(&self.file, self.bytes)?;
            self.is_torn = false;
        }
        Ok(())
    }

    // Keeps what is behind the records in a file of its own. It is done once, though the change is tried again.
    fn set_torn_aside(&mut self, files: &R, path: &str, incidents: &Incidents) -> io::Result<()>
        ensures aside { OnOk result (self.new.torn ≡ []) }
        ensures same { self.new ≡ record (self.old) { torn = self.new.torn } }
    {
        if self.torn.is_empty() {
            return Ok(());
        }
        incidents.reserve()?;
        let torn = self.torn.as_slice();
        let name = write_lost_bytes(files, path, LOG, self.bytes, torn)?;
        let bytes = torn.len() as u64;
        incidents.note_set_aside(SetAside::Log { name, bytes });
        self.torn = Bytes::new();
        Ok(())
    }

    // Cuts off all records.
    fn cut_all(&mut self) -> io::Result<()>
        ensures synced { OnOk result (AreSynced self.new.is_unsynced self.new.gathered.items) }
        ensures kept { OnErr result (self.new ≡ record (self.old) { is_broken = self.new.is_broken }) }
        ensures bytes { OnOk result (self.new.bytes ≡ 0) }
        ensures doubt { OnOk result (self.new.is_broken ≡ false) }
        ensures broken { OnErr result (self.old.is_broken ≡ true → self.new.is_broken ≡ true) }
        ensures rest { (self.new.is_torn ≡ self.old.is_torn) × (self.new.log_sync ≡ self.old.log_sync) }
    {
        self.file.set_len(0)?;
        self.sync_cut()?;
        self.bytes = 0;
        self.gathered.clear();
        self.is_unsynced = false;
        Ok(())
    }

    // Syncs a file whose records were cut off. In doubt until it is synced: they may be on the disk, or not.
    fn sync_cut(&mut self) -> io::Result<()>
        ensures doubt { self.new.is_broken ≡ is_err result }
        ensures same { self.new ≡ record (self.old) { is_broken = self.new.is_broken } }
    {
        self.is_broken = true;
        self.file.sync_all()?;
        self.is_broken = false;
        Ok(())
    }

    // Writes these records to a new file, and gives it the log's name once they are whole on the disk.
    fn write_anew(&mut self, files: &R, path: &str, left: &[Bytes]) -> io::Result<()>
        ensures synced { OnOk result (AreSynced self.new.is_unsynced self.new.gathered.items) }
        ensures kept { OnErr result (AreSynced self.new.is_unsynced self.new.gathered.items ↔ AreSynced self.old.is_unsynced self.old.gathered.items) }
        ensures few { IsShort self.old.gathered.items → IsShort self.new.gathered.items }
        ensures bytes { OnOk result (self.new.bytes ≡ length (frames left.now)) }
        ensures doubt { OnOk result (self.new.is_broken ≡ false) }
        ensures broken { OnErr result (self.old.is_broken ≡ true → self.new.is_broken ≡ true) }
        ensures rest { (self.new.is_torn ≡ self.old.is_torn) × (self.new.log_sync ≡ self.old.log_sync) }
    {
        let alloc = files.alloc();
        let framed = frames_of(alloc, left)?;
        let new = file_path(alloc, path, NEW_FILE)?;
        let named = file_path(alloc, path, LOG)?;
        // A file that is there is not written over: it may be another name of a file, as half a renaming leaves it.
        remove_if_there(files, new.as_str())?;
        let file = write_file(files, new.as_str(), framed.as_slice(), &[])?;
        let bytes = framed.len() as u64;
        self.rename_new(files, path, new.as_str(), named.as_str(), file, bytes)
    }

    // Gives the new file, which has this many bytes of records, the log's name. Which file has that name is in doubt from the renaming on
    // until the folder is synced: a record that is written to one could be lost with it.
    fn rename_new(
        &mut self,
        files: &R,
        path: &str,
        new: &str,
        named: &str,
        file: R::File,
        bytes: u64,
    ) -> io::Result<()>
        ensures synced { OnOk result (AreSynced self.new.is_unsynced self.new.gathered.items) }
        ensures kept { OnErr result (AreSynced self.new.is_unsynced self.new.gathered.items ↔ AreSynced self.old.is_unsynced self.old.gathered.items) }
        ensures few { IsShort self.old.gathered.items → IsShort self.new.gathered.items }
        ensures bytes { OnOk result (self.new.bytes ≡ bytes) }
        ensures doubt { self.new.is_broken ≡ is_err result }
        ensures rest { (self.new.is_torn ≡ self.old.is_torn) × (self.new.log_sync ≡ self.old.log_sync) }
    {
        self.is_broken = true;
        fs::rename(files, new, named)?;
        self.file = file;
        self.bytes = bytes;
        // The file that may still have the name on the disk lacks what was not synced there.
        self.is_unsynced = !self.is_synced();
        self.gathered.clear();
        sync_folder(files, path)?;
        self.is_unsynced = false;
        self.is_broken = false;
        Ok(())
    }
}
