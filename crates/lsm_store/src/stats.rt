//! What a level of a store has.

ghost use Rattle.std.specs.Prelude.{◌≡◌, length};
ghost use Rattle.lsm_pick.specs.Due.{of_level};
ghost use Rattle.lsm_store.specs.Stats.{IsLevelStats, saturated_sum};

use lsm_edit::FileMeta;
use std::fmt;

/// What a level of a store has. The sums saturate.
#[derive(Clone, Copy, Debug, PartialEq, Eq)]
pub struct LevelStats {
    /// How many files.
    pub files: usize,
    /// The length of their tables, in bytes.
    pub bytes: u64,
    /// How many entries they have: each version of a key is one, and so is a deletion.
    pub entries: u64,
}

/// `N files B bytes E entries`.
impl fmt::Display for LevelStats {
    fn fmt<W: fmt::Write>(&self, f: &mut fmt::Formatter<W>) -> fmt::Result {
        let (files, bytes, entries) = (self.files, self.bytes, self.entries);
        write!(f, "{files} files {bytes} bytes {entries} entries")
    }
}

/// What the files of a level have.
pub fn stats_of(files: &[FileMeta], level: u8) -> LevelStats
    ensures { IsLevelStats files.now level result }
{
    LevelStats {
        files: count_of(files, level),
        bytes: bytes_of(files, level),
        entries: entries_of(files, level),
    }
}

fn count_of(files: &[FileMeta], level: u8) -> usize
    ensures { result ≡ length (of_level level files.now) }
{
    files.iter().filter(|file| file.level == level).count()
}

fn bytes_of(files: &[FileMeta], level: u8) -> u64
    ensures { result ≡ saturated_sum (λ f. f.bytes) (of_level level files.now) }
{
    let mut total = 0u64;
    for file in files {
        if file.level == level {
            total = total.saturating_add(file.bytes as u64);
        }
    }
    total
}

fn entries_of(files: &[FileMeta], level: u8) -> u64
    ensures { result ≡ saturated_sum (λ f. f.entries) (of_level level files.now) }
{
    let mut total = 0u64;
    for file in files {
        if file.level == level {
            total = total.saturating_add(file.entries as u64);
        }
    }
    total
}
