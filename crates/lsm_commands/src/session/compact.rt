//! The command `compact`, of a session and of the program: compactions one after another, with their count on the
//! screen.

use super::lines::write_refused;
use crate::Screen;
use lsm_line::write_text;
use lsm_store::{Due, Store, StoreError};
use lsm_vault::Vault;
use std::alloc::AllocError;
use std::fmt;

/// How many compactions were made, as it is shown.
#[derive(Clone, Copy)]
struct Compactions(u64);

impl fmt::Display for Compactions {
    fn fmt<W: fmt::Write>(&self, f: &mut fmt::Formatter<W>) -> fmt::Result {
        write!(f, "compactions {}", self.0)
    }
}

/// Runs the compactions that are due, shows how many were made, and writes what is still due.
pub(crate) fn compact<V: Vault>(
    store: &mut Store<V>,
    screen: &Screen<'_>,
    out: &mut Vec<u8>,
) -> Result<(), AllocError> {
    match compact_all(store, screen) {
        Ok(due) => write_due(out, due),
        Err(why) => write_refused(out, why),
    }
}

/// Appends what is still due, without the end of a line.
pub(crate) fn write_due(out: &mut Vec<u8>, due: Due) -> Result<(), AllocError> {
    match due {
        Due::TooLarge => write_text(out, "compacted but for what exceeds the job limits"),
        Due::Nothing | Due::More => write_text(out, "compacted"),
    }
}

/// Runs compactions, one after another, until no level needs one, and shows how many were made.
pub(crate) fn compact_all<V: Vault>(
    store: &mut Store<V>,
    screen: &Screen<'_>,
) -> Result<Due, StoreError> {
    let mut due = Ok(Due::More);
    let mut count = 0;
    for made in 1..u64::MAX {
        due = store.compact(1);
        if due != Ok(Due::More) {
            break;
        }
        count = made;
        screen.show(&Compactions(count));
    }
    if count > 0 {
        screen.end_line();
    }
    due
}
