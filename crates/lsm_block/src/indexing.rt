//! Reading the bytes of a block once: whether they are one, how many entries it has, where the last one begins, and fences.

ghost use Rattle.std.specs.Prelude.{◌≡◌, ◌+◌, ◌-◌, ◌≤◌, ◌++◌, ◌∷◌, [], List, Ok, IfOk, IfErr, OnOk, length, take, drop};
ghost use Rattle.std.specs.Option.{option_map};
ghost use Rattle.std.specs.Ordering.{is_lt};
ghost use Rattle.lsm_key.specs.declared.entry.Entry.{Entry};
ghost use Rattle.lsm_key.specs.Order.{place_cmp};
ghost use Rattle.lsm_key.specs.Reading.{Fails, Reads};
ghost use Rattle.lsm_key.specs.Visible.{lent_entry};
ghost use Rattle.lsm_block.specs.Blocks.{entries};
ghost use Rattle.lsm_block.specs.BlockReading.{entries_at, last_of, next_at, read_block};
ghost use Rattle.lsm_block.specs.Fences.{AreFences};
ghost use Rattle.lsm_block.specs.Indexed.{AreIndexed, IsLastKey, IsReadTo, block_entries, entries_before};
ghost use Rattle.lsm_block.specs.Spans.{IsSpan};

use crate::fault::{BlockError, BlockFault};
use crate::fences::Fences;
use crate::lent::{entry_in, entry_within};
use bytes::Bytes;
use lsm_key::{ENTRY_OVERHEAD, EntryRef, MAX_KEY_BYTES, Refused, Seq, know_slice};
use std::alloc::{AllocError, Global};
use std::cmp::Ordering;

/// What one walk over a block's bytes finds: fences, the count of entries, and where the last one begins.
#[derive(Debug, Drop)]
pub(crate) struct Indexed {
    pub(crate) fences: Fences,
    pub(crate) count: usize,
    pub(crate) last: usize,
}

impl Indexed {
    /// Of what was found nothing is kept: no entry is found yet.
    pub(crate) fn forget(&mut self)
        ensures { AreIndexed [] self.new }
    {
        self.fences.clear();
        self.count = 0;
        self.last = 0;
    }
}

// Whether an entry comes after this key at this sequence.
fn comes_after(entry: &EntryRef<'_>, key: &[u8], seq: Seq) -> bool
    ensures { result ≡ is_lt (place_cmp key.now seq entry.now.key.now entry.now.seq) }
{
    match key.cmp(entry.key) {
        Ordering::Less => true,
        Ordering::Greater => false,
        Ordering::Equal => entry.seq < seq,
    }
}

// The next entry, which must come after the one before it, of this key and sequence: before the first one stands the empty key. Its own key
// has at most `max_key` bytes.
fn next_in<'a>(
    key: &[u8],
    seq: Seq,
    rest: &'a [u8],
    max_key: usize,
) -> Result<(EntryRef<'a>, &'a [u8]), BlockFault>
    requires { max_key ≤ MAX_KEY_BYTES }
    ensures { (es : List Entry) → IsLastKey es key.now seq → Reads (λ x. (lent_entry x.0, x.1.now)) result (next_at max_key es rest.now) }
{
    let (entry, after) = match entry_within(rest, max_key) {
        Ok(found) => found,
        Err(fault) => return Err(fault),
    };
    if !comes_after(&entry, key, seq) {
        return Err(BlockFault::OutOfOrder);
    }
    Ok((entry, after))
}

// Adds the fence of the entry of this key. Its place has at most 32 bits: for a longer block there is no memory.
fn add_fence(fences: &mut Fences, key: &[u8], place: usize) -> Result<(), AllocError>
    ensures { (es : List Entry) (e : Entry) → AreFences fences.old.front es fences.old.prefixes.items fences.old.places.items → place ≡ length (entries es) → e.ikey.key ≡ key.now → OnOk result (AreFences fences.new.front (es ++ e ∷ []) fences.new.prefixes.items fences.new.places.items) }
{
    match u32::try_from(place) {
        Ok(place) => fences.push(key, place),
        Err(_) => Err(AllocError),
    }
}

/// No entry found yet. Room is reserved for the fences of `about` entries, if `len` bytes can hold so many.
pub(crate) fn no_index(
    alloc: Global,
    front: Bytes,
    about: usize,
    len: usize,
) -> Result<Indexed, AllocError>
    ensures { IfOk result (λ found. AreIndexed [] found) }
{
    let room = about.min(len / ENTRY_OVERHEAD);
    let fences = Fences::with_capacity(alloc, front, room)?;
    Ok(Indexed {
        fences,
        count: 0,
        last: 0,
    })
}

// Reads the entries from `begin` to the end of the bytes. The last one before them is of this key and sequence. No key of theirs has more than
// `max_key` bytes.
fn walk_on<'a>(
    found: &mut Indexed,
    bytes: &'a [u8],
    begin: usize,
    last_key: &'a [u8],
    last_seq: Seq,
    max_key: usize,
) -> Result<(), BlockError>
    requires limit { max_key ≤ MAX_KEY_BYTES }
    requires known { IsReadTo bytes.now begin found.old }
    requires last { IsLastKey (entries_before bytes.now begin) last_key.now last_seq }
    ensures ok { OnOk result ((entries_at max_key (length (drop begin bytes.now) + 1) (entries_before bytes.now begin) (drop begin bytes.now) ≡ Ok (entries_before bytes.now (length bytes.now))) × IsReadTo bytes.now (length bytes.now) found.new) }
    ensures err { IfErr result (λ e. Fails e (entries_at max_key (length (drop begin bytes.now) + 1) (entries_before bytes.now begin) (drop begin bytes.now))) }
{
    know_slice(bytes);
    let mut rest = &bytes[begin..];
    let mut key = last_key;
    let mut seq = last_seq;
    loop {
        let place = bytes.len() - rest.len();
        let (entry, after) = match next_in(key, seq, rest, max_key) {
            Ok(found) => found,
            Err(fault) => return Err(Refused::Fault(fault)),
        };
        add_fence(&mut found.fences, entry.key, place)?;
        found.count += 1;
        found.last = place;
        if after.is_empty() {
            return Ok(());
        }
        key = entry.key;
        seq = entry.seq;
        rest = after;
    }
}

/// The last entry that was found in the bytes, which end behind it. Allocates nothing.
pub(crate) fn last_in<'a>(bytes: &'a [u8], found: &Indexed) -> Option<EntryRef<'a>>
    requires { (es : List Entry) × IsSpan bytes.now es × AreIndexed es found.now }
    ensures { (es : List Entry) → IsSpan bytes.now es → AreIndexed es found.now → option_map lent_entry result ≡ last_of es }
{
    if found.count == 0 {
        return None;
    }
    match entry_in(&bytes[found.last..]) {
        Ok((entry, _)) => Some(entry),
        // A span has no fault.
        Err(_) => None,
    }
}

/// Reads the entries from `begin` to `end`, after those that were found before `begin`: no key of theirs has more than `max_key` bytes. After
/// a refusal what was found is of no use.
pub(crate) fn index_more(
    found: &mut Indexed,
    bytes: &[u8],
    begin: usize,
    end: usize,
    max_key: usize,
) -> Result<(), BlockError>
    requires limit { max_key ≤ MAX_KEY_BYTES }
    requires known { IsReadTo bytes.now begin found.old }
    requires order { begin ≤ end }
    requires within { end ≤ length bytes.now }
    ensures ok { OnOk result ((entries_at max_key (end - begin + 1) (entries_before bytes.now begin) (take (end - begin) (drop begin bytes.now)) ≡ Ok (entries_before bytes.now end)) × IsReadTo bytes.now end found.new) }
    ensures err { IfErr result (λ e. Fails e (entries_at max_key (end - begin + 1) (entries_before bytes.now begin) (take (end - begin) (drop begin bytes.now)))) }
{
    match last_in(&bytes[..begin], found) {
        Some(last) => walk_on(found, &bytes[..end], begin, last.key, last.seq, max_key),
        None => walk_on(found, &bytes[..end], begin, &[], Seq::new(0), max_key),
    }
}

/// The index of the block that the bytes encode, all of them: no key has more than `max_key` bytes. Room is reserved for the fences
/// of `about` entries, if the bytes can hold so many.
pub(crate) fn index_block(
    alloc: Global,
    bytes: &[u8],
    front: Bytes,
    about: usize,
    max_key: usize,
) -> Result<Indexed, BlockError>
    requires { max_key ≤ MAX_KEY_BYTES }
    ensures ok { IfOk result (λ found. (read_block max_key bytes.now ≡ Ok (block_entries bytes.now)) × IsReadTo bytes.now (length bytes.now) found) }
    ensures err { IfErr result (λ e. Fails e (read_block max_key bytes.now)) }
{
    let mut found = no_index(alloc, front, about, bytes.len())?;
    match index_more(&mut found, bytes, 0, bytes.len(), max_key) {
        Ok(()) => Ok(found),
        Err(fault) => Err(fault),
    }
}
