//! What stands on a node's line for an event.

use lsm_world::Reply;

/// How a mark looks.
#[derive(Clone, Copy)]
pub(crate) enum Mark {
    /// A write, a read, or another event that makes no version.
    Plain,
    Freeze,
    /// A flush: a new table, and the version that has it.
    Flush,
    /// A job that was picked.
    Pick,
    /// A result that was installed: a new version.
    Install,
    /// A follower moved to a version.
    Version,
    /// A node was started anew.
    Restart,
    Refused,
}

/// The mark of a reply.
pub(crate) fn mark_of(reply: &Reply) -> Mark {
    match reply {
        Reply::Froze(_) => Mark::Freeze,
        Reply::Flushed(_) => Mark::Flush,
        Reply::Picked(_, _) => Mark::Pick,
        Reply::Installed(_, _) => Mark::Install,
        Reply::Advanced(_) => Mark::Version,
        Reply::Restarted(_, _, _) | Reply::RestartedWorker(_) | Reply::RestartedFollower(_) => {
            Mark::Restart
        }
        Reply::Refused(_) => Mark::Refused,
        _ => Mark::Plain,
    }
}

impl Mark {
    /// Its name, which is also the class that gives it its colour.
    pub(crate) fn name(self) -> &'static str {
        match self {
            Mark::Plain => "event",
            Mark::Freeze => "freeze",
            Mark::Flush => "flush",
            Mark::Pick => "pick",
            Mark::Install => "install",
            Mark::Version => "version",
            Mark::Restart => "restart",
            Mark::Refused => "refused",
        }
    }

    /// Its outline as steps of a path, from the mark's middle.
    pub(crate) fn outline(self) -> &'static str {
        match self {
            Mark::Plain => "m-3 0a3 3 0 1 0 6 0a3 3 0 1 0-6 0z",
            Mark::Freeze => "m-5 0l5-5l5 5l-5 5z",
            Mark::Flush => "m-5-5h10v10h-10z",
            Mark::Pick => "m-5-5l10 5l-10 5z",
            Mark::Install => "m-6 0l6-6l6 6l-6 6z",
            Mark::Version => "m-5 0a5 5 0 1 0 10 0a5 5 0 1 0-10 0z",
            Mark::Restart => "m-7-2h14v4h-14z",
            Mark::Refused => "m-5-5l10 10m0-10l-10 10",
        }
    }
}
