//! What a scan reads: each memtable, each table of level 0, and each deeper level.

ghost use Rattle.std.specs.Prelude.{◌≡◌, IfOk};
ghost use Rattle.lsm_key.specs.Order.{precedes};
ghost use Rattle.lsm_key.specs.Visible.{lent_entry};
ghost use Rattle.lsm_table.specs.Heads.{IsRefilled};
ghost use Rattle.lsm_coord.specs.Inner.Sources.{IsRead, source_entry};

use lsm_block::BlockEntry;
use lsm_edit::LevelCursor;
use lsm_key::{Entry, EntryRef, compare_place};
use lsm_mem::MemtableCursor;
use lsm_table::Head;
use std::alloc::AllocError;

/// A memtable read up to an entry: that one where it lies, and those that are left behind it.
#[derive(Drop)]
pub(crate) struct MemtableHead<'a> {
    entry: &'a Entry,
    rest: MemtableCursor<'a>,
}

/// A table of level 0 or the tables of a deeper level, read up to an entry in the same way.
#[derive(Drop)]
pub(crate) struct TablesHead<'a> {
    entry: BlockEntry<'a>,
    rest: LevelCursor<'a>,
}

/// A source of a scan, read up to an entry.
#[derive(Drop)]
pub(crate) enum Source<'a> {
    Memtable(MemtableHead<'a>),
    Tables(TablesHead<'a>),
}

impl<'a> MemtableHead<'a> {
    // Goes on to the next entry, if there is one.
    fn advance(&mut self) -> bool
        ensures { IsRefilled self.old.rest result self.new.entry.now self.new.rest }
    {
        match self.rest.next() {
            Some(next) => {
                self.entry = next;
                true
            }
            None => false,
        }
    }
}

impl<'a> TablesHead<'a> {
    // Goes on to the next entry, if there is one.
    fn advance(&mut self) -> bool
        ensures { IsRefilled self.old.rest result self.new.entry self.new.rest }
    {
        match self.rest.next() {
            Some(next) => {
                self.entry = next;
                true
            }
            None => false,
        }
    }
}

impl<'a> Source<'a> {
    /// What a memtable has left, if it has an entry left.
    pub(crate) fn of_memtable(cursor: MemtableCursor<'a>) -> Option<Source<'a>>
        ensures { IsRead cursor.entry result }
    {
        let mut rest = cursor;
        let entry = rest.next()?;
        Some(Source::Memtable(MemtableHead { entry, rest }))
    }

    /// What tables have left, if they have an entry left.
    pub(crate) fn of_tables(cursor: LevelCursor<'a>) -> Option<Source<'a>>
        ensures { IsRead cursor.entry result }
    {
        let mut rest = cursor;
        let entry = rest.next()?;
        Some(Source::Tables(TablesHead { entry, rest }))
    }

    /// The entry, which borrows the bytes.
    pub(crate) fn entry(&self) -> EntryRef<'a>
        ensures { lent_entry result ≡ source_entry self.now }
    {
        match self {
            Source::Memtable(head) => EntryRef {
                key: head.entry.ikey.key.as_slice(),
                seq: head.entry.ikey.seq,
                kind: head.entry.ikey.kind,
                value: head.entry.value.as_slice(),
            },
            Source::Tables(head) => head.entry.entry(),
        }
    }

    /// The entry, which shares the bytes.
    pub(crate) fn shared(&self) -> Result<Entry, AllocError>
        ensures { IfOk result (λ e. e ≡ source_entry self.now) }
    {
        match self {
            Source::Memtable(head) => head.entry.clone(),
            Source::Tables(head) => head.entry.shared(),
        }
    }
}

impl<'a> Head for Source<'a> {
    ghost use Rattle.lsm_coord.specs.Inner.Sources.{left_behind, source_entry};

    ghost entry = { source_entry };

    ghost left = { left_behind };

    fn advance(&mut self) -> bool {
        match self {
            Source::Memtable(head) => head.advance(),
            Source::Tables(head) => head.advance(),
        }
    }

    fn precedes(&self, other: &Source<'a>) -> bool {
        match (self, other) {
            (Source::Tables(one), Source::Tables(two)) => one.entry.precedes(&two.entry),
            (Source::Memtable(one), _) => {
                let two = other.entry();
                compare_place(&one.entry.ikey, two.key, two.seq).is_lt()
            }
            (Source::Tables(one), Source::Memtable(two)) => {
                let one = one.entry.entry();
                compare_place(&two.entry.ikey, one.key, one.seq).is_gt()
            }
        }
    }
}
