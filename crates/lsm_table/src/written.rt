//! What is written of a table while its entries come.

ghost use Rattle.std.specs.Prelude.{◌≡◌, ℕ, ◌+◌, ◌<◌, ◌≤◌, ◌++◌, [], ◌∷◌, List, None, Some, length, nat_lt, IfErr, IfOk, OnErr, OnOk};
ghost use Rattle.std.specs.Int.{w32, to_be_bytes};
ghost use Rattle.std.specs.Option.{option_map};
ghost use Rattle.lsm_key.specs.declared.entry.Entry.{Entry};
ghost use Rattle.lsm_key.specs.Entries.{IsEntry};
ghost use Rattle.lsm_key.specs.Visible.{lent_entry};
ghost use Rattle.lsm_block.specs.Blocks.{entries, entry};
ghost use Rattle.lsm_block.specs.BlockReading.{may_follow, last_of};
ghost use Rattle.lsm_table.specs.Building.{IsLastEnd, IsNextEntry, IsDraftWritten, add_fault, finish_fault, BuilderRefuses};
ghost use Rattle.lsm_table.specs.Tables.{IsTable, IsTarget, end_key, table_of, target_of};

use crate::building::BuildError;
use crate::headroom::WithHeadroom;
use crate::measuring::{Measure, entry_len};
use crate::writing::{write_header, write_line};
use bytes::{BufMut, Bytes, BytesMut};
use lsm_block::entry_in;
use lsm_key::{Entry, EntryRef, MAX_TABLE_BYTES, u16_in};
use std::alloc::{AllocError, Global};
use std::cmp::Ordering;
use std::marker::Model;

// The bytes of a key's length and of a trailer.
const END_OVERHEAD: usize = 10;

/// The entries of a table being built, as its blocks, and the index of those that are closed.
///
/// Invariant: the blocks are the bytes of entries that are sound and in order, whose table has at most `MAX_TABLE_BYTES`. The count, the
/// index, where the last one begins and the measure are those of these entries.
#[derive(Drop)]
pub(crate) struct Written {
    target: u32,
    /// How many entries there are.
    count: u32,
    /// What the index says of the closed blocks.
    index: BytesMut,
    /// The blocks, without a gap, and room for what comes before them in the table.
    blocks: WithHeadroom,
    /// Where the last entry begins among them.
    last: usize,
    measure: Measure,
}

impl Model for Written {
    ghost use Rattle.lsm_block.specs.Indexed.{block_entries};
    ghost use Rattle.lsm_table.specs.Building.{Draft, IsDraftWritten};

    ghost Value = { Draft };

    ghost view = { λ w. record { target = w.target; entries = block_entries w.blocks.items } };

    ghost invariant = { λ w. IsDraftWritten w.target (block_entries w.blocks.items) w.count w.index.items w.blocks.items w.last w.measure };
}

impl Written {
    /// Of no entries, whose blocks are cut at the target, in bytes.
    pub(crate) fn new(alloc: Global, target: u32) -> Written
        requires { IsTarget target }
        ensures { result ≡ record { target = target; entries = [] } }
    {
        Written {
            target,
            count: 0,
            index: BytesMut::new(alloc),
            blocks: WithHeadroom::new(alloc),
            last: 0,
            measure: Measure::new(),
        }
    }

    /// Whether there is no room for one more entry.
    pub(crate) fn is_full(&self, entry: &Entry) -> bool
        requires { IsEntry entry.now }
        ensures { result ≡ nat_lt MAX_TABLE_BYTES (length (table_of self.now.target (self.now.entries ++ entry.now ∷ []))) }
    {
        let key = entry.ikey.key.len();
        let measure = self.measure.grown(self.target, key, entry_len(entry));
        measure.table_len() > MAX_TABLE_BYTES
    }

    /// Whether the entry may come after the last one.
    pub(crate) fn may_take(&self, entry: &Entry) -> bool
        ensures { result ≡ may_follow (last_of self.now.entries) entry.now }
    {
        match self.last() {
            None => true,
            Some(last) => comes_first(&last, entry),
        }
    }

    /// Adds the entry of these bytes, which may come after the last one. A refusal changes nothing.
    pub(crate) fn push(&mut self, bytes: &[u8]) -> Result<(), BuildError>
        requires { (e : Entry) × IsNextEntry self.old.entries bytes.now e }
        ensures ok { (e : Entry) → IsNextEntry self.old.entries bytes.now e → OnOk result ((add_fault self.old e ≡ None) × (self.new ≡ record { target = self.old.target; entries = self.old.entries ++ e ∷ [] })) }
        ensures err { OnErr result (self.new ≡ self.old) }
        ensures refused { (e : Entry) → IsNextEntry self.old.entries bytes.now e → IfErr result (BuilderRefuses (add_fault self.old e)) }
    {
        let measure = self.measure.grown(self.target, key_len(bytes), bytes.len());
        if measure.table_len() > MAX_TABLE_BYTES {
            return Err(BuildError::TableFull);
        }
        self.blocks.reserve(bytes.len())?;
        close_full(
            &mut self.index,
            self.target,
            &self.measure,
            self.blocks.as_slice(),
            self.last,
        )?;
        self.last = self.blocks.len();
        self.blocks.extend_reserved(bytes);
        self.count += 1;
        self.measure = measure;
        Ok(())
    }

    /// The last entry. Allocates nothing.
    pub(crate) fn last(&self) -> Option<EntryRef<'_>>
        ensures { option_map lent_entry result ≡ last_of self.now.entries }
    {
        if self.count == 0 {
            return None;
        }
        match entry_in(&self.blocks.as_slice()[self.last..]) {
            Ok((entry, _)) => Some(entry),
            Err(_) => unreachable!(),
        }
    }

    /// How many bytes the entries take in blocks.
    pub(crate) fn weight(&self) -> usize
        ensures { result ≡ length (entries self.now.entries) }
    {
        self.measure.weight
    }

    /// Takes the table of the entries out, and leaves none. A refusal changes nothing.
    pub(crate) fn take(&mut self, alloc: Global) -> Result<Bytes, BuildError>
        ensures found { IfOk result (λ b. IsTable b self.old.entries × (target_of b ≡ self.old.target)) }
        ensures empty { OnOk result (self.new ≡ record { target = self.old.target; entries = [] }) }
        ensures err { OnErr result (self.new ≡ self.old) }
        ensures refused { IfErr result (BuilderRefuses (finish_fault self.old.entries)) }
    {
        if self.count == 0 {
            return Err(BuildError::EmptyTable);
        }
        let front = self.front(alloc)?;
        let table = self.blocks.take_behind(alloc, front.as_slice())?;
        self.count = 0;
        self.index.clear();
        self.last = 0;
        self.measure = Measure::new();
        Ok(table)
    }

    // What a table of one or more entries has before its blocks: the header and the index.
    fn front(&self, alloc: Global) -> Result<BytesMut, AllocError>
        requires { 0 < length self.now.entries }
        ensures { IfOk result (λ front. (b : List ℕ) → b ≡ front.items ++ entries self.now.entries → IsTable b self.now.entries × (target_of b ≡ self.now.target)) }
    {
        let measure = &self.measure;
        let len = measure.table_len() - measure.weight;
        let mut front = BytesMut::with_capacity(alloc, len)?;
        let blocks = measure.closed + 1;
        write_header(&mut front, measure.version, self.target, self.count, blocks)?;
        front.put_slice(self.index.as_slice())?;
        let end = end_in(self.blocks.as_slice(), self.last, measure.last_key);
        write_line(&mut front, measure.last as u32, end)?;
        Ok(front)
    }

    /// Makes room for a table that is about as large as one with these bytes before its blocks and in them. Without memory there is less.
    pub(crate) fn make_room(&mut self, front: usize, blocks: usize)
        requires { self.old.entries ≡ [] }
        ensures { self.new ≡ self.old }
    {
        let room = front.saturating_add(front / 16);
        let _ = self
            .blocks
            .make_room(room, blocks.saturating_add(blocks / 128));
    }
}

// Whether an entry comes before another one.
fn comes_first(last: &EntryRef<'_>, entry: &Entry) -> bool
    ensures { result ≡ may_follow (Some (lent_entry last.now)) entry.now }
{
    match last.key.cmp(entry.ikey.key.as_slice()) {
        Ordering::Less => true,
        Ordering::Greater => false,
        Ordering::Equal => entry.ikey.seq < last.seq,
    }
}

// How many bytes the key of an entry has, of whose bytes they are the first two.
fn key_len(bytes: &[u8]) -> usize
    requires { (e : Entry) × IsEntry e × (bytes.now ≡ entry e) }
    ensures { (e : Entry) → IsEntry e → bytes.now ≡ entry e → result ≡ length e.ikey.key }
{
    match u16_in(bytes, BuildError::OutOfMemory) {
        Ok((len, _)) => len as usize,
        Err(_) => unreachable!(),
    }
}

// The bytes of the key and of the trailer of the last entry, which begins there and whose key has so many.
fn end_in(blocks: &[u8], last: usize, key: usize) -> &[u8]
    requires { (es : List Entry) × IsLastEnd es blocks.now last key }
    ensures { (es : List Entry) → IsLastEnd es blocks.now last key → result.now ≡ end_key (last_of es) }
{
    &blocks[last..last + (END_OVERHEAD + key)]
}

// Appends the last block to the index if it is full. A refusal appends nothing.
fn close_full(
    index: &mut BytesMut,
    target: u32,
    measure: &Measure,
    blocks: &[u8],
    last: usize,
) -> Result<(), AllocError>
    requires { (es : List Entry) × IsDraftWritten target es (length es) index.old.items blocks.now last measure.now }
    ensures room { measure.now.last < target → OnOk result (index.new.items ≡ index.old.items) }
    ensures full { (es : List Entry) → IsDraftWritten target es (length es) index.old.items blocks.now last measure.now → target ≤ measure.now.last → OnOk result (index.new.items ≡ index.old.items ++ (to_be_bytes w32 measure.now.last ++ end_key (last_of es))) }
    ensures err { OnErr result (index.new.items ≡ index.old.items) }
{
    if measure.last < target as usize {
        return Ok(());
    }
    let end = end_in(blocks, last, measure.last_key);
    write_line(index, measure.last as u32, end)
}
