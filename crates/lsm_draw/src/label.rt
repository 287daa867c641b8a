//! The label beside a mark: what the event did, in few words.

use lsm_world::Reply;
use std::fmt;

/// A reply in few words. Of a refusal it is the reply's own line.
#[derive(Clone, Copy)]
pub(crate) struct Label<'a> {
    pub reply: &'a Reply,
    /// The reply's line: ASCII.
    pub line: &'a str,
}

impl fmt::Display for Label<'_> {
    fn fmt<W: fmt::Write>(&self, f: &mut fmt::Formatter<W>) -> fmt::Result {
        match self.reply {
            Reply::Scanned(pairs) => write!(f, "range {}", pairs.len()),
            Reply::Got(_) => f.write_str("read"),
            Reply::ReadAt(version, _) => write!(f, "read at {}", version.number()),
            Reply::Shown(shown) => write!(f, "show {}", shown.number.number()),
            Reply::Flushed(made) => {
                let (version, file) = (made.number.number(), made.file.number());
                write!(f, "version {version} file {file}")
            }
            Reply::Picked(job, _) => write!(f, "job {}", job.id),
            Reply::Installed(version, _) => write!(f, "version {}", version.number()),
            Reply::Collecting(missing, _) => write!(f, "collecting {missing}"),
            Reply::Merged(_) => f.write_str("merged"),
            Reply::Waiting(missing, _) => write!(f, "waiting {missing}"),
            Reply::Restarted(epoch, _, _) => write!(f, "epoch {epoch}"),
            Reply::RestartedWorker(_) | Reply::RestartedFollower(_) => f.write_str("restarted"),
            Reply::Trimmed(floor, _) => write!(f, "floor {}", floor.number()),
            Reply::Asked(_) => f.write_str("ask"),
            Reply::Served(_) => f.write_str("served"),
            _ => f.write_str(self.line),
        }
    }
}
