//! Scans of the store: a merge of the memtables, the tables of level 0 and the deeper levels, which ends at its limit.
//! A read of one key merges nothing, and stands apart.

ghost use Rattle.std.specs.Prelude.{◌≡◌, [], ◌∷◌, ◌++◌, IfOk, IfErr, OnOk, filter};
ghost use Rattle.std.specs.Option.{option_map};
ghost use Rattle.lsm_key.specs.Order.{key_le};
ghost use Rattle.lsm_key.specs.Places.{all_entries};
ghost use Rattle.lsm_key.specs.Visible.{lent_entry};
ghost use Rattle.lsm_table.specs.Heads.{AllInOrder, has_entry};
ghost use Rattle.lsm_edit.specs.Served.{IsServed};
ghost use Rattle.lsm_coord.specs.Model.Event.{Scan};
ghost use Rattle.lsm_coord.specs.Contract.Shows.{Follows};
ghost use Rattle.lsm_coord.specs.Contract.Calls.{IsPoint, ScanRefuses, Scans};
ghost use Rattle.lsm_coord.specs.Contract.Value.{everything};
ghost use Rattle.lsm_coord.specs.Contract.Replies.{scan_reply};
ghost use Rattle.lsm_coord.specs.Inner.Scan.{AreFirstPairs, is_hidden, pair_of};
ghost use Rattle.lsm_coord.specs.Inner.Sources.{source_lists, source_entry};

use super::Coord;
use crate::CoordError;
use crate::snapshot::SnapId;
use crate::source::Source;
use bytes::Bytes;
use lsm_edit::LevelCursor;
use lsm_key::{EntryRef, Kind, Seq};
use lsm_mem::MemtableCursor;
use lsm_table::Heads;
use lsm_vault::Vault;
use std::alloc::{AllocError, Global};

impl<V: Vault> Coord<V> {
    /// The first `limit` keys at or after `lo` and before `hi` that have a value, latest or at a live snapshot:
    /// ascending, each with its value. Shares the bytes. It stops at its limit: O(log n) to
    /// begin, and O(log s) for each entry returned or skipped, of s memtables, tables of level 0 and deeper levels.
    pub fn scan(
        &self,
        lo: &[u8],
        hi: &[u8],
        at: Option<SnapId>,
        limit: u64,
    ) -> Result<Vec<(Bytes, Bytes)>, CoordError>
        ensures step { Follows self.now (Scan lo.now hi.now at limit) (scan_reply result) self.now }
        ensures refused { IfErr result (ScanRefuses self.now at) }
    {
        let Some(point) = self.point_of(at) else {
            return Err(CoordError::NoSnapshot);
        };
        let pairs = self.pairs_between(lo, hi, point, limit)?;
        Ok(pairs)
    }

    // What a scan returns.
    fn pairs_between(
        &self,
        lo: &[u8],
        hi: &[u8],
        point: Seq,
        limit: u64,
    ) -> Result<Vec<(Bytes, Bytes)>, AllocError>
        requires { IsPoint self.now point }
        ensures { IfOk result (λ pairs. Scans self.now point lo.now hi.now limit pairs.items) }
    {
        let sources = self.sources_from(lo)?;
        let heads = Heads::new(self.alloc, sources)?;
        first_pairs(self.alloc, heads, hi, point, limit)
    }

    // All entries whose key is at or after `lo`.
    fn sources_from(&self, lo: &[u8]) -> Result<Vec<Source<'_>>, AllocError>
        ensures all { IfOk result (λ sources. all_entries (source_lists sources.items) ≡ filter (λ e. key_le lo.now e.ikey.key) (everything self.now)) }
        ensures order { IfOk result (λ sources. AllInOrder (source_lists sources.items)) }
        ensures sound { IsServed self.now.served }
    {
        let tables = self.versions.served().cursors_from(lo)?;
        let mut sources = Vec::with_capacity(self.alloc, tables.len() + 2)?;
        push_memtable(&mut sources, self.active.cursor_from(lo)?)?;
        if let Some(frozen) = &self.frozen {
            push_memtable(&mut sources, frozen.memtable.cursor_from(lo)?)?;
        }
        push_tables(&mut sources, tables)?;
        Ok(sources)
    }
}

// Appends what a memtable has left, if it has an entry left.
fn push_memtable<'a>(
    sources: &mut Vec<Source<'a>>,
    cursor: MemtableCursor<'a>,
) -> Result<(), AllocError>
    ensures { OnOk result (source_lists sources.new.items ≡ source_lists sources.old.items ++ filter has_entry (cursor.entry ∷ [])) }
{
    match Source::of_memtable(cursor) {
        Some(source) => Ok(sources.push(source)?),
        None => Ok(()),
    }
}

// Appends what tables have left, of those that have an entry left.
fn push_tables<'a>(
    sources: &mut Vec<Source<'a>>,
    tables: Vec<LevelCursor<'a>>,
) -> Result<(), AllocError>
    ensures { OnOk result (source_lists sources.new.items ≡ source_lists sources.old.items ++ filter has_entry tables.entry.items) }
{
    for cursor in tables {
        if let Some(source) = Source::of_tables(cursor) {
            sources.push(source)?;
        }
    }
    Ok(())
}

// The first pairs of what the heads have left.
fn first_pairs<'a>(
    alloc: Global,
    heads: Heads<Source<'a>>,
    hi: &[u8],
    point: Seq,
    limit: u64,
) -> Result<Vec<(Bytes, Bytes)>, AllocError>
    requires { AllInOrder (source_lists heads) }
    ensures { IfOk result (λ pairs. AreFirstPairs point hi.now limit (all_entries (source_lists heads.entry)) pairs.items) }
{
    let mut left = heads;
    let mut pairs = Vec::new(alloc);
    let mut before: Option<EntryRef<'a>> = None;
    while (pairs.len() as u64) < limit {
        let Some(first) = left.first() else {
            return Ok(pairs);
        };
        let entry = first.entry();
        if entry.key.cmp(hi).is_ge() {
            return Ok(pairs);
        }
        if !hides(point, &before, &entry) {
            push_pair(&mut pairs, first)?;
            before = Some(entry);
        }
        left.advance();
    }
    Ok(pairs)
}

// Appends the key and the value of a put.
fn push_pair(pairs: &mut Vec<(Bytes, Bytes)>, entry: &Source<'_>) -> Result<(), AllocError>
    ensures { OnOk result (pairs.new.items ≡ pairs.old.items ++ pair_of (source_entry entry.now)) }
{
    let shared = entry.shared()?;
    match shared.ikey.kind {
        Kind::Put => pairs.push((shared.ikey.key, shared.value))?,
        Kind::Delete => {}
    }
    Ok(())
}

// Whether the entry is not visible at the read sequence, or a newer one of its key was.
fn hides(point: Seq, before: &Option<EntryRef<'_>>, entry: &EntryRef<'_>) -> bool
    ensures { result ≡ is_hidden point (option_map lent_entry before.now) (lent_entry entry.now) }
{
    if entry.seq > point {
        return true;
    }
    match before {
        None => false,
        Some(seen) => seen.key == entry.key,
    }
}
