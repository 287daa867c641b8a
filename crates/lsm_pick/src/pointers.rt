//! Compact pointers: where each level goes on.

ghost use Rattle.std.specs.Prelude.{◌≡◌, ◌≤◌};
ghost use Rattle.lsm_key.specs.declared.limits.TheConstants.{MAX_JOB_LEVEL};
ghost use Rattle.lsm_pick.specs.After.{pointer_at};

use bytes::Bytes;
use lsm_edit::FileMeta;
use lsm_key::MAX_JOB_LEVEL;
use std::marker::Model;

/// The key after which each level that can be due below level 0 goes on, empty at first: what was merged last is
/// merged again only after all other files of its level. Whatever the keys are, a pick follows the rule: they
/// determine only how much is written in the end.
#[derive(Debug, Drop)]
pub struct CompactPointers {
    keys: [Bytes; MAX_JOB_LEVEL as usize],
}

impl Model for CompactPointers {
    ghost use Rattle.lsm_pick.specs.After.{CompactPointersValue};

    ghost Value = { CompactPointersValue };

    ghost view = { λ pointers. record { keys = pointers.keys } };
}

impl CompactPointers {
    /// Each level begins at its least key.
    pub fn new() -> CompactPointers {
        CompactPointers {
            keys: [
                Bytes::new(),
                Bytes::new(),
                Bytes::new(),
                Bytes::new(),
                Bytes::new(),
            ],
        }
    }

    /// Moves the pointer of a job's level to the greatest key of the job's inputs there. Not to the end of its hull:
    /// that is among the keys of the level's next file, which would be passed over. Shares the key; a key that can't be
    /// shared leaves the pointer.
    pub fn follow(&mut self, level: u8, inputs: &[FileMeta]) {
        if level == 0 || level > MAX_JOB_LEVEL {
            return;
        }
        let Some(last) = last_key(level, inputs) else {
            return;
        };
        match last.clone() {
            Ok(key) => self.keys[level as usize - 1] = key,
            Err(_) => {}
        }
    }

    /// The key after which the level goes on.
    pub(crate) fn at(&self, level: u8) -> &[u8]
        requires some { 1 ≤ level }
        requires most { level ≤ MAX_JOB_LEVEL }
        ensures { result.now ≡ pointer_at self.now level }
    {
        self.keys[level as usize - 1].as_slice()
    }
}

// The greatest key of the files of a level.
fn last_key(level: u8, files: &[FileMeta]) -> Option<&Bytes> {
    let mut last: Option<&Bytes> = None;
    for file in files {
        if file.level == level {
            last = later(last, &file.largest);
        }
    }
    last
}

// The greater one of two keys.
fn later<'a>(last: Option<&'a Bytes>, key: &'a Bytes) -> Option<&'a Bytes> {
    match last {
        Some(last) if last.as_slice().cmp(key.as_slice()).is_gt() => Some(last),
        _ => Some(key),
    }
}
