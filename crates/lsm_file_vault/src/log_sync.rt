//! When the log of a folder is synced.

/// When a folder writes the records of its log, and when it syncs them. In each way all that was answered before a `sync_log` that
/// returned `Ok` is lost neither with the process nor by a power cut, if the disk keeps what it said it synced. An edit is appended
/// only behind such a sync.
#[derive(Clone, Copy, Debug, PartialEq, Eq)]
pub enum LogSync {
    /// Each record is written and synced before it is answered. A process that is killed loses no record that was answered, and a
    /// power cut or a crash of the system takes none.
    Each,
    /// Each record is written before it is answered, and synced when it is asked for. A process that is killed loses no record that
    /// was answered; a power cut or a crash of the system may take the last ones, all from some record on. If the file system keeps a
    /// later block of them and loses an earlier one, the next opening refuses the log as damaged.
    Asked,
    /// Records are kept in memory, 64 KiB of them at most, until a sync is asked for. A process that is killed, or ends without one,
    /// may lose the last ones too, all from some record on.
    Gathered,
}
