//! Why a script is refused: its first faulty line, and what is wrong there.

use lsm_line::Reason;

/// The first fault of a script. Lines are numbered from 1, and every line counts, an empty one too.
#[derive(Clone, Copy, Debug, PartialEq, Eq)]
pub struct Fault {
    pub line: u64,
    pub reason: Reason,
}
