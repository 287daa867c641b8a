//! Measuring the table of entries that come one at a time: how many blocks and how many bytes it has, and its version.

ghost use Rattle.std.specs.Prelude.{◌≡◌, ◌+◌, ◌*◌, ◌<◌, ◌≤◌, ◌++◌, [], ◌∷◌, ℕ, List, length, nat_lt, if◌then◌else◌};
ghost use Rattle.lsm_key.specs.declared.entry.Entry.{Entry};
ghost use Rattle.lsm_key.specs.Entries.{IsEntry};
ghost use Rattle.lsm_key.specs.Limits.{entry_weight};
ghost use Rattle.lsm_table.specs.Measuring.{IsWithinWeight, IsMeasured};
ghost use Rattle.lsm_table.specs.Tables.{table_of};

use lsm_key::{ENTRY_OVERHEAD, Entry, MAX_SHORT_KEY_BYTES, MAX_TABLE_BYTES};

// The bytes of a header.
const HEADER_BYTES: usize = 17;

// The bytes of a block in the index, other than its last key.
const INDEX_OVERHEAD: usize = 14;

/// What entries measure, cut into blocks at a target: the blocks that are closed, the last one, and all entries.
#[derive(Clone, Copy)]
pub(crate) struct Measure {
    /// How many blocks are closed: an entry came when they had as many bytes as the target.
    pub(crate) closed: u32,
    /// The bytes of those blocks in the index.
    pub(crate) index: usize,
    /// The bytes of the last block.
    pub(crate) last: usize,
    /// The bytes of the key of the last entry.
    pub(crate) last_key: usize,
    /// The bytes of all entries.
    pub(crate) weight: usize,
    /// The version that their keys need.
    pub(crate) version: u8,
}

impl Measure {
    /// Of no entries.
    pub(crate) fn new() -> Measure
        ensures { (target : ℕ) → IsMeasured target [] result }
    {
        Measure {
            closed: 0,
            index: 0,
            last: 0,
            last_key: 0,
            weight: 0,
            version: 1,
        }
    }

    /// With one more entry, which has so many bytes in its key and in its block. It begins a block if the last one has as many bytes as
    /// the target.
    pub(crate) fn grown(&self, target: u32, key: usize, len: usize) -> Measure
        requires target { 1 ≤ target }
        requires light { IsWithinWeight self.now }
        requires small { self.now.weight ≤ MAX_TABLE_BYTES }
        requires fits { len ≤ MAX_TABLE_BYTES }
        ensures measured { (es : List Entry) (e : Entry) → key ≡ length e.ikey.key → len ≡ entry_weight e → IsMeasured target es self.now → IsMeasured target (es ++ e ∷ []) result }
        ensures small { result.weight ≤ 2 * MAX_TABLE_BYTES }
        ensures room { self.now.last < target → result.last ≡ self.now.last + len }
        ensures full { target ≤ self.now.last → result.last ≡ len }
    {
        let weight = self.weight + len;
        let version = version_with(self.version, key);
        if self.last < target as usize {
            Measure {
                closed: self.closed,
                index: self.index,
                last: self.last + len,
                last_key: key,
                weight,
                version,
            }
        } else {
            Measure {
                closed: self.closed + 1,
                index: self.index + (INDEX_OVERHEAD + self.last_key),
                last: len,
                last_key: key,
                weight,
                version,
            }
        }
    }

    /// The bytes of the table of the entries.
    pub(crate) fn table_len(&self) -> usize
        requires light { IsWithinWeight self.now }
        requires small { self.now.weight ≤ 2 * MAX_TABLE_BYTES }
        ensures { (target : ℕ) (es : List Entry) → 1 ≤ target → 0 < length es → IsMeasured target es self.now → result ≡ length (table_of target es) }
    {
        HEADER_BYTES + self.index + (INDEX_OVERHEAD + self.last_key) + self.weight
    }
}

// The version of some entries and of one more, whose key has so many bytes.
fn version_with(version: u8, key: usize) -> u8
    ensures { result ≡ (if nat_lt MAX_SHORT_KEY_BYTES key then 2 else version) }
{
    if key > MAX_SHORT_KEY_BYTES {
        2
    } else {
        version
    }
}

/// The bytes of an entry in its block.
pub(crate) fn entry_len(e: &Entry) -> usize
    requires { IsEntry e.now }
    ensures value { result ≡ entry_weight e.now }
    ensures small { result ≤ MAX_TABLE_BYTES }
{
    ENTRY_OVERHEAD + e.ikey.key.len() + e.value.len()
}
