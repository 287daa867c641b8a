//! Reading blocks that follow one another without a gap, in one order.

ghost use Rattle.std.specs.Prelude.{◌≡◌, ◌+◌, ◌≤◌, ◌<◌, ◌++◌, [], Ok, IfOk, IfErr, OnOk, OnErr, length, take, drop};
ghost use Rattle.std.specs.Option.{option_map};
ghost use Rattle.lsm_key.specs.Reading.{Fails};
ghost use Rattle.lsm_key.specs.Visible.{lent_entry};
ghost use Rattle.lsm_block.specs.Blocks.{entries};
ghost use Rattle.lsm_block.specs.BlockReading.{entries_at, last_of};
ghost use Rattle.lsm_block.specs.Reader.{ReaderValue};

use crate::block::Block;
use crate::fault::BlockError;
use crate::indexing::{Indexed, index_more, last_in, no_index};
use bytes::Bytes;
use lsm_key::{EntryRef, MAX_KEY_BYTES};
use std::alloc::{AllocError, Global};
use std::marker::Model;

/// A reader of blocks that follow one another: it has read some of them from the front, and all their entries are in order. No key that it
/// reads has more bytes than its limit.
///
/// Invariant: the first `read` bytes are whole entries in order, maybe none, and the index is that of these entries. `max_key` is at
/// most `MAX_KEY_BYTES`.
#[derive(Debug, Drop)]
pub struct BlocksReader {
    bytes: Bytes,
    read: usize,
    index: Indexed,
    max_key: usize,
}

impl Model for BlocksReader {
    ghost use Rattle.std.specs.Prelude.{◌≤◌, drop};
    ghost use Rattle.lsm_key.specs.declared.limits.TheConstants.{MAX_KEY_BYTES};
    ghost use Rattle.lsm_block.specs.Indexed.{IsReadTo, entries_before};
    ghost use Rattle.lsm_block.specs.Reader.{ReaderValue};

    ghost Value = { ReaderValue };

    ghost view = { λ r. record { limit = r.max_key; entries = entries_before r.bytes r.read; rest = drop r.read r.bytes } };

    ghost invariant = { λ r. IsReadTo r.bytes r.read r.index × (r.max_key ≤ MAX_KEY_BYTES) };
}

impl BlocksReader {
    /// A reader of these bytes that has read no block, for keys of at most `max_key` bytes, which is no more than `MAX_KEY_BYTES`. The hints
    /// are what most of their keys begin with, and about how many entries they have: any will do.
    pub fn new(
        alloc: Global,
        bytes: Bytes,
        front: Bytes,
        about: usize,
        max_key: usize,
    ) -> Result<BlocksReader, AllocError>
        requires { max_key ≤ MAX_KEY_BYTES }
        ensures { IfOk result (λ r. (r.entries ≡ []) × (r.rest ≡ bytes) × (r.limit ≡ max_key)) }
    {
        let index = no_index(alloc, front, about, bytes.len())?;
        Ok(BlocksReader {
            bytes,
            read: 0,
            index,
            max_key,
        })
    }

    /// Reads the next block, which has `len` bytes, and whose entries must come after those of the blocks before it. After a
    /// refusal it has read no block: it is as it was when it was new.
    pub fn read(&mut self, len: usize) -> Result<(), BlockError>
        requires { len ≤ length self.old.rest }
        ensures ok { OnOk result ((entries_at self.old.limit (len + 1) self.old.entries (take len self.old.rest) ≡ Ok self.new.entries) × (self.new.rest ≡ drop len self.old.rest)) }
        ensures err { IfErr result (λ e. Fails e (entries_at self.old.limit (len + 1) self.old.entries (take len self.old.rest))) }
        ensures limit { self.new.limit ≡ self.old.limit }
        ensures none { OnErr result ((self.new.entries ≡ []) × (self.new.rest ≡ entries self.old.entries ++ self.old.rest)) }
    {
        // Proof hint: the end is no more than this, which is a length.
        let _most = self.bytes.len();
        let end = self.read + len;
        let bytes = self.bytes.as_slice();
        match index_more(&mut self.index, bytes, self.read, end, self.max_key) {
            Ok(()) => {
                self.read = end;
                Ok(())
            }
            Err(fault) => {
                // What was found is not that of the bytes read: nothing of it is kept.
                self.index.forget();
                self.read = 0;
                Err(fault)
            }
        }
    }

    /// The last entry that it has read. Allocates nothing.
    pub fn last(&self) -> Option<EntryRef<'_>>
        ensures { option_map lent_entry result ≡ last_of self.now.entries }
    {
        last_in(&self.bytes.as_slice()[..self.read], &self.index)
    }

    /// How many entries it has read.
    pub fn count(&self) -> usize
        ensures { result ≡ length self.now.entries }
    {
        self.index.count
    }

    /// How many bytes come after the blocks that it has read.
    pub fn left(&self) -> usize
        ensures { result ≡ length self.now.rest }
    {
        self.bytes.len() - self.read
    }

    /// The blocks, all of which were read, as one: their entries are in order, without a gap.
    pub fn finish(self, alloc: Global) -> Result<Block, AllocError>
        requires some { 0 < length self.entries }
        requires all { self.rest ≡ [] }
        ensures { IfOk result (λ b. b ≡ self.entries) }
    {
        let BlocksReader { bytes, index, .. } = self;
        Block::with_index(alloc, bytes, index)
    }
}
