//! Blocks: one or more entries in the order of their internal keys, without a gap.

ghost use Rattle.std.specs.Prelude.{◌≡◌, ◌≤◌, List, [], IfOk, Ok, Some, filter, length, slice_get};
ghost use Rattle.std.specs.Option.{option_map};
ghost use Rattle.lsm_key.specs.declared.entry.Entry.{Entry};
ghost use Rattle.lsm_key.specs.Visible.{visible, lent_entry};
ghost use Rattle.lsm_key.specs.Order.{is_between, key_le};
ghost use Rattle.lsm_key.specs.Reading.{Gives};
ghost use Rattle.lsm_block.specs.Blocks.{IsBlock};
ghost use Rattle.lsm_block.specs.BlockReading.{read_block, last_of};
ghost use Rattle.lsm_block.specs.Handles.{IsPartAt, IsHandle, IsHandleFor};
ghost use Rattle.lsm_block.specs.Indexed.{IsIndexedBlock, block_entries};
ghost use Rattle.lsm_block.specs.Spans.{IsSpan};

use crate::cursor::Cursor;
use crate::fault::BlockError;
use crate::fences::{Fences, get_in};
use crate::handle::{BlockHandle, handle_in};
use crate::indexing::{Indexed, index_block};
use crate::ranges::{entries_between, entries_in, lower_in};
use crate::reading::read_entry;
use bytes::Bytes;
use lsm_key::{Entry, EntryRef, MAX_KEY_BYTES, Seq, know_bytes};
use std::alloc::{AllocError, Global};
use std::marker::Model;
use std::sync::Arc;

/// A block: its bytes, and fences for look-ups. Its entries are read where they lie. Its copies share all.
///
/// Invariant: the bytes are one block, and the index is that of its entries: each fence is at one of them, and their count and
/// where the last one begins are noted.
#[derive(Debug, Drop)]
pub struct Block {
    bytes: Bytes,
    index: Arc<Indexed>,
}

impl Model for Block {
    ghost use Rattle.std.specs.Prelude.{List};
    ghost use Rattle.lsm_key.specs.declared.entry.Entry.{Entry};
    ghost use Rattle.lsm_block.specs.Indexed.{IsIndexedBlock, block_entries};

    ghost Value = { List Entry };

    ghost view = { λ b. block_entries b.bytes };

    ghost invariant = { λ b. IsIndexedBlock b.bytes b.index.value };
}

impl Block {
    /// The block of these bytes, whose index was found.
    pub(crate) fn with_index(
        alloc: Global,
        bytes: Bytes,
        index: Indexed,
    ) -> Result<Block, AllocError>
        requires { IsIndexedBlock bytes index }
        ensures { IfOk result (λ b. b ≡ block_entries bytes) }
    {
        let index = Arc::new(alloc, index)?;
        Ok(Block { bytes, index })
    }

    /// The same block. It shares the bytes and the fences.
    pub fn copy(&self) -> Result<Block, AllocError>
        ensures { IfOk result (λ copy. copy ≡ self.now) }
    {
        let bytes = self.bytes.clone()?;
        let index = Arc::try_clone(&self.index)?;
        Ok(Block { bytes, index })
    }

    /// The entry of the key with the greatest sequence at most `at`. Allocates nothing.
    pub fn seek(&self, key: &[u8], at: Seq) -> Option<EntryRef<'_>>
        ensures { option_map lent_entry result ≡ visible self.now key.now at }
    {
        let fences: &Fences = &self.index.fences;
        get_in(self.bytes.as_slice(), fences, key, at)
    }

    /// A cursor at its first entry.
    pub fn cursor(&self) -> Cursor<'_>
        ensures { result ≡ self.now }
    {
        Cursor::new(&self.bytes, 0)
    }

    /// A cursor at the first entry whose key is at or after `lo`. O(log n) for n fences.
    pub fn cursor_from(&self, lo: &[u8]) -> Cursor<'_>
        ensures { result ≡ filter (λ e. key_le lo.now e.ikey.key) self.now }
    {
        let place = lower_in(self.bytes.as_slice(), &self.index.fences, lo);
        Cursor::new(&self.bytes, place)
    }

    /// The handle of the entries among which a look-up of the key ends: at most some tens of them but for versions of one key, or all
    /// of them for a key before the first one. Allocates nothing.
    pub fn handle(&self, key: &[u8]) -> BlockHandle
        ensures { IsHandleFor self.now key.now result }
    {
        handle_in(self.bytes.as_slice(), &self.index.fences, key)
    }

    /// The entries of a handle, as a block of their own. Shares the bytes.
    pub fn part(&self, alloc: Global, handle: BlockHandle) -> Result<Block, AllocError>
        requires { IsHandle self.now handle }
        ensures { IfOk result (IsPartAt self.now handle) }
    {
        // Proof hint: the end is no more than this, which is a length.
        let _most = self.bytes.len();
        let end = handle.offset + handle.size;
        let bytes = self.bytes.slice(handle.offset..end)?;
        match decode_with_hints(alloc, bytes, Bytes::new(), 0, MAX_KEY_BYTES) {
            Ok(part) => Ok(part),
            // Memory ran out: whole entries of a block have no fault.
            Err(_) => Err(AllocError),
        }
    }

    /// The entries whose key is at or after `lo` and before `hi`, in order. Shares the bytes.
    pub fn range(&self, alloc: Global, lo: &[u8], hi: &[u8]) -> Result<Vec<Entry>, AllocError>
        ensures { IfOk result (λ list. list.items ≡ filter (is_between lo.now hi.now) self.now) }
    {
        entries_between(alloc, &self.bytes, &self.index.fences, lo, hi)
    }

    /// The entries, in order. Shares the bytes.
    pub fn entries(&self, alloc: Global) -> Result<Vec<Entry>, AllocError>
        ensures { IfOk result (λ list. list.items ≡ self.now) }
    {
        entries_in(alloc, &self.bytes, self.index.count)
    }

    /// Its bytes.
    pub fn bytes(&self) -> &[u8]
        ensures { IsSpan result.now self.now }
    {
        self.bytes.as_slice()
    }

    /// How many entries it has.
    pub fn count(&self) -> usize
        ensures { result ≡ length self.now }
    {
        self.index.count
    }

    /// The first entry. Shares the bytes.
    pub fn first(&self) -> Result<Entry, AllocError>
        ensures { IfOk result (λ e. slice_get self.now 0 ≡ Some e) }
    {
        let mut rest = self.bytes.clone()?;
        match read_entry(&mut rest) {
            Ok(entry) => Ok(entry),
            // Memory ran out: a block has no fault.
            Err(_) => Err(AllocError),
        }
    }

    /// The last entry. Shares the bytes.
    pub fn last(&self) -> Result<Entry, AllocError>
        ensures { IfOk result (λ e. last_of self.now ≡ Some e) }
    {
        let mut rest = self.bytes.slice(self.index.last..)?;
        match read_entry(&mut rest) {
            Ok(entry) => Ok(entry),
            // Memory ran out: a block has no fault.
            Err(_) => Err(AllocError),
        }
    }
}

/// The block that the bytes encode, all of them. Shares the bytes. No key has more than `max_key` bytes, which is no more than
/// `MAX_KEY_BYTES`. The hints are what most of its keys begin with, and about how many entries it has. Any will do: with good ones a look-up
/// is fast, and no memory is moved.
pub fn decode_with_hints(
    alloc: Global,
    bytes: Bytes,
    front: Bytes,
    about: usize,
    max_key: usize,
) -> Result<Block, BlockError>
    requires { max_key ≤ MAX_KEY_BYTES }
    ensures { Gives (λ b. b) result (read_block max_key bytes) }
{
    know_bytes(&bytes);
    let index = index_block(alloc, bytes.as_slice(), front, about, max_key)?;
    Ok(Block::with_index(alloc, bytes, index)?)
}

/// The block that the bytes encode, all of them. Shares the bytes. No key has more than `max_key` bytes, which is no more than
/// `MAX_KEY_BYTES`: a longer one is a `BadLength`.
pub fn decode_block(alloc: Global, bytes: Bytes, max_key: usize) -> Result<Block, BlockError>
    requires { max_key ≤ MAX_KEY_BYTES }
    // What is decoded encodes to these bytes.
    ensures found { IfOk result (λ b. IsBlock max_key bytes b) }
    // What encodes to these bytes is decoded, unless memory runs out.
    ensures only { (es : List Entry) → IsBlock max_key bytes es → Gives (λ b. b) result (Ok es) }
    // The fault is the first one.
    ensures exact { Gives (λ b. b) result (read_block max_key bytes) }
{
    know_bytes(&bytes);
    decode_with_hints(alloc, bytes, Bytes::new(), 0, max_key)
}
