//! The files of a version that were read so far, with an index of their ranges.

ghost use Rattle.std.specs.Prelude.{◌≡◌, ◌++◌, ◌∷◌, [], List, true, false, IfOk, OnOk};
ghost use Rattle.std.specs.List.{list_any};
ghost use Rattle.lsm_key.specs.Order.{key_le};
ghost use Rattle.lsm_edit.specs.declared.file.FileMeta.{FileMeta};
ghost use Rattle.lsm_edit.specs.EarlierFiles.{AreIndexedFiles};
ghost use Rattle.lsm_edit.specs.File.{meets_file};

use crate::FileMeta;
use bytes::Bytes;
use std::alloc::{AllocError, Global};
use std::collections::BTreeMap;
use std::marker::Model;

/// Where files begin, by level and smallest key, and where each ends.
type Ends = BTreeMap<(u8, Bytes), Bytes>;

/// Files of which no two of a level overlap, unless it is level 0.
///
/// Invariant: `ends` has the range of each file from level 1 up, by its level and smallest key, and no other range. No file ends before
/// it begins, and two files of one such level whose ranges meet begin with the same key.
#[derive(Drop)]
pub(crate) struct EarlierFiles {
    files: Vec<FileMeta>,
    // Of the files from level 1 up.
    ends: Ends,
}

impl Model for EarlierFiles {
    ghost Value = { List FileMeta };

    ghost view = { λ e. e.files.items };

    ghost invariant = { λ e. AreIndexedFiles e.ends e.files.items };
}

impl EarlierFiles {
    /// No files. Allocates nothing.
    pub(crate) fn new(alloc: Global) -> EarlierFiles
        ensures { result ≡ [] }
    {
        EarlierFiles {
            files: Vec::new(alloc),
            ends: BTreeMap::new(alloc),
        }
    }

    /// Whether a file of the level, if it is not level 0, overlaps the keys from `smallest` to `largest`. O(log n): of
    /// files that do not overlap, only the last one that begins by `largest` may.
    pub(crate) fn meet(
        &self,
        level: u8,
        smallest: &Bytes,
        largest: &Bytes,
    ) -> Result<bool, AllocError>
        ensures { IfOk result (λ meets. meets ≡ list_any (meets_file level smallest.now largest.now) self.now) }
    {
        if level == 0 {
            return Ok(false);
        }
        let last = (level, largest.clone()?);
        match self.ends.range(..=last).next_back() {
            Some((begin, end)) => Ok(begin.0 == level && smallest.cmp(end).is_le()),
            None => Ok(false),
        }
    }

    /// With one more file, which overlaps none of its level, if it is not level 0. O(log n).
    pub(crate) fn with(self, file: FileMeta) -> Result<EarlierFiles, AllocError>
        requires ordered { key_le file.smallest file.largest ≡ true }
        requires apart { list_any (meets_file file.level file.smallest file.largest) self ≡ false }
        ensures { IfOk result (λ files. files ≡ self ++ file ∷ []) }
    {
        let EarlierFiles {
            mut files,
            mut ends,
        } = self;
        mark(&mut ends, &file)?;
        files.push(file)?;
        Ok(EarlierFiles { files, ends })
    }

    /// The files alone. Allocates nothing.
    pub(crate) fn into_vec(self) -> Vec<FileMeta>
        ensures { result.items ≡ self }
    {
        self.files
    }
}

// Marks where a file begins and ends, unless its level is 0.
fn mark(ends: &mut Ends, file: &FileMeta) -> Result<(), AllocError>
    requires ordered { key_le file.now.smallest file.now.largest ≡ true }
    ensures { OnOk result ((files : List FileMeta) → AreIndexedFiles ends.old files
        → list_any (meets_file file.now.level file.now.smallest file.now.largest) files ≡ false
        → AreIndexedFiles ends.new (files ++ file.now ∷ [])) }
{
    if file.level == 0 {
        return Ok(());
    }
    let begin = (file.level, file.smallest.clone()?);
    ends.insert(begin, file.largest.clone()?)?;
    Ok(())
}
