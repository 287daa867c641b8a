//! Blocks of three entries and of two, field by field: beginnings, changes, limits on their keys; and the calls that no table makes.

ghost use Rattle.std.specs.Prelude.{◌≤◌};

use bytes::Bytes;
use lsm_block::{Block, BlockFault, Cursor, decode_block, encode_block};
use lsm_key::{Entry, MAX_KEY_BYTES, MAX_SHORT_KEY_BYTES, Refused};
use std::alloc::{AllocError, Global};
use std::process::Abort;
use std::test::Fail;

mod field;

use field::Field::{self, Key, KeyLength, Kind, Sequence, Value, ValueLength};
use field::{EntryFields, bytes_of, changed};

const PUT_A: EntryFields = [
    KeyLength(1),
    Key(b"a"),
    Sequence(2),
    Kind(1),
    ValueLength(1),
    Value(b"x"),
];

const DELETE_A: EntryFields = [
    KeyLength(1),
    Key(b"a"),
    Sequence(1),
    Kind(0),
    ValueLength(0),
    Value(b""),
];

const PUT_BC: EntryFields = [
    KeyLength(2),
    Key(b"bc"),
    Sequence(3),
    Kind(1),
    ValueLength(0),
    Value(b""),
];

const LATER_DELETE_A: EntryFields = [
    KeyLength(1),
    Key(b"a"),
    Sequence(2),
    Kind(0),
    ValueLength(0),
    Value(b""),
];

const EARLIER_PUT_A: EntryFields = [
    KeyLength(1),
    Key(b"a"),
    Sequence(1),
    Kind(1),
    ValueLength(1),
    Value(b"1"),
];

// The blocks of the tests, which keep every rule: of two keys, and of one.
const THREE: [EntryFields; 3] = [PUT_A, DELETE_A, PUT_BC];

const TWO: [EntryFields; 2] = [LATER_DELETE_A, EARLIER_PUT_A];

// The fault of the bytes as a block of keys of at most so many bytes, or none.
fn fault_of(alloc: Global, bytes: &[u8], max_key: usize) -> Result<Option<BlockFault>, Fail>
    requires { max_key ≤ MAX_KEY_BYTES }
{
    let bytes = Bytes::copy_from_slice(alloc, bytes)?;
    match decode_block(alloc, bytes, max_key) {
        Ok(_) => Ok(None),
        Err(Refused::Fault(fault)) => Ok(Some(fault)),
        Err(Refused::OutOfMemory) => Err("out of memory")?,
    }
}

// Whether some of the entries from the front, but not none, have so many bytes.
fn is_end(alloc: Global, entries: &[EntryFields], length: usize) -> Result<bool, AllocError> {
    let mut end = 0usize;
    for entry in entries {
        end = end.saturating_add(bytes_of(alloc, entry)?.len());
        if end == length {
            return Ok(true);
        }
    }
    Ok(false)
}

// Each beginning of the bytes of these entries is a shorter block, or truncated.
fn see_beginnings(
    rt: &impl Abort,
    alloc: Global,
    entries: &[EntryFields],
    bytes: &[u8],
) -> Result<(), Fail> {
    for length in 0..bytes.len() {
        let found = fault_of(alloc, &bytes[..length], MAX_KEY_BYTES)?;
        let is_block = is_end(alloc, entries, length)?;
        let want = if is_block { None } else { SHORT };
        assert!(rt; found == want, "{length}");
    }
    Ok(())
}

#[test]
fn a_beginning_is_shorter_or_truncated(rt: HostRuntime) -> Result<(), Fail> {
    let bytes = bytes_of(rt.alloc(), THREE.as_flattened())?;
    see_beginnings(&rt, rt.alloc(), &THREE, &bytes)
}

#[test]
fn a_beginning_of_versions_is_shorter_or_truncated(rt: HostRuntime) -> Result<(), Fail> {
    let bytes = bytes_of(rt.alloc(), TWO.as_flattened())?;
    see_beginnings(&rt, rt.alloc(), &TWO, &bytes)
}

// A block, which fields of which of its entries have other values, and the fault that the bytes then have, or none.
type Row = (
    &'static [EntryFields],
    &'static [(usize, Field)],
    Option<BlockFault>,
);

const LENGTH: Option<BlockFault> = Some(BlockFault::BadLength);

const KIND: Option<BlockFault> = Some(BlockFault::BadKind);

const ORDER: Option<BlockFault> = Some(BlockFault::OutOfOrder);

const SHORT: Option<BlockFault> = Some(BlockFault::Truncated);

const ROWS: [Row; 31] = [
    // A key's length.
    (&THREE, &[(0, KeyLength(0))], LENGTH),
    (&THREE, &[(0, KeyLength(4_097))], LENGTH),
    (&THREE, &[(0, KeyLength(257))], SHORT),
    (&THREE, &[(2, KeyLength(255))], SHORT),
    // A trailer's kind and sequence.
    (&THREE, &[(0, Kind(2))], KIND),
    (&THREE, &[(1, Kind(255))], KIND),
    (&THREE, &[(0, Sequence(0))], KIND),
    (&THREE, &[(1, Sequence(0))], KIND),
    // A value's length: of a put, and of a deletion.
    (&THREE, &[(0, ValueLength(65_537))], LENGTH),
    (&THREE, &[(0, ValueLength(4_278_190_081))], LENGTH),
    (&THREE, &[(0, ValueLength(255))], SHORT),
    (&THREE, &[(2, ValueLength(1))], SHORT),
    (&THREE, &[(1, ValueLength(1))], LENGTH),
    // The order: keys, and the sequences of one key.
    (&THREE, &[(0, Key(b"b"))], ORDER),
    (&THREE, &[(1, Key(b"`"))], ORDER),
    (&THREE, &[(1, Sequence(2))], ORDER),
    (&THREE, &[(0, Sequence(1))], ORDER),
    (&THREE, &[(2, Key(b"`c"))], ORDER),
    // Other entries.
    (&THREE, &[(0, Value(b"y"))], None),
    (&THREE, &[(1, Kind(1))], None),
    (&THREE, &[(2, Key(b"ac"))], None),
    // No entry, one changed field, and of two faults the first.
    (&[], &[], SHORT),
    (&TWO, &[(0, KeyLength(0))], LENGTH),
    (&TWO, &[(0, KeyLength(4_097))], LENGTH),
    (&TWO, &[(0, Kind(2))], KIND),
    (&TWO, &[(0, Sequence(0))], KIND),
    (&TWO, &[(0, ValueLength(1))], LENGTH),
    (&TWO, &[(1, ValueLength(65_537))], LENGTH),
    (&TWO, &[(0, Sequence(1))], ORDER),
    (&TWO, &[(0, Kind(2)), (0, ValueLength(1))], KIND),
    (&TWO, &[(0, Sequence(1)), (1, ValueLength(257))], SHORT),
];

// The fault of the bytes of fields, or none.
fn fault_of_fields(
    alloc: Global,
    fields: &[Field],
    max_key: usize,
) -> Result<Option<BlockFault>, Fail> {
    let bytes = bytes_of(alloc, fields)?;
    fault_of(alloc, &bytes, max_key.min(MAX_KEY_BYTES))
}

// The fault of a block with some fields changed, or none.
fn fault_with(
    alloc: Global,
    entries: &[EntryFields],
    changes: &[(usize, Field)],
) -> Result<Option<BlockFault>, Fail> {
    let changed = changed(alloc, entries, changes)?;
    fault_of_fields(alloc, changed.as_flattened(), MAX_KEY_BYTES)
}

#[test]
fn each_fault_of_a_block(rt: HostRuntime) -> Result<(), Fail> {
    for (entries, changes, want) in ROWS {
        let found = fault_with(rt.alloc(), entries, changes)?;
        assert!(rt; found == want, "{changes:?}");
    }
    Ok(())
}

// The first fields of a block, whose last one has a fault: what follows it is not missed.
const BEGINNINGS: [(&[Field], Option<BlockFault>); 3] = [
    (&[KeyLength(0)], LENGTH),
    (&[KeyLength(1), Key(b"a"), Sequence(2), Kind(2)], KIND),
    (
        &[
            KeyLength(1),
            Key(b"a"),
            Sequence(2),
            Kind(0),
            ValueLength(1),
        ],
        LENGTH,
    ),
];

#[test]
fn a_fault_comes_before_what_is_missing(rt: HostRuntime) -> Result<(), Fail> {
    for (fields, want) in BEGINNINGS {
        let found = fault_of_fields(rt.alloc(), fields, MAX_KEY_BYTES)?;
        assert!(rt; found == want, "{fields:?}");
    }
    Ok(())
}

// Whole blocks, the limit on their keys, and the fault that the bytes then have, or none.
const LIMITS: [(&[EntryFields], usize, Option<BlockFault>); 6] = [
    (&THREE, 4_096, None),
    (&TWO, 4_096, None),
    (&THREE, 2, None),
    (&THREE, 1, LENGTH),
    (&[PUT_A, DELETE_A], 1, None),
    (&THREE, 0, LENGTH),
];

#[test]
fn keys_are_within_their_limit(rt: HostRuntime) -> Result<(), Fail> {
    for (entries, max_key, want) in LIMITS {
        let found = fault_of_fields(rt.alloc(), entries.as_flattened(), max_key)?;
        assert!(rt; found == want, "{max_key}");
    }
    Ok(())
}

// The block of a put of nothing at sequence 1, whose key has so many bytes.
fn block_of_key(alloc: Global, length: u16) -> Result<Vec<u8>, AllocError> {
    let mut bytes = bytes_of(alloc, &[KeyLength(length)])?;
    bytes.resize(usize::from(length).saturating_add(2), b'a')?;
    let rest = bytes_of(alloc, &[Sequence(1), Kind(1), ValueLength(0)])?;
    bytes.extend_from_slice(&rest)?;
    Ok(bytes)
}

// Its faults as a block of keys of any length, and as one of short keys.
fn faults_of_key(
    alloc: Global,
    length: u16,
) -> Result<(Option<BlockFault>, Option<BlockFault>), Fail> {
    let bytes = block_of_key(alloc, length)?;
    let any = fault_of(alloc, &bytes, MAX_KEY_BYTES)?;
    Ok((any, fault_of(alloc, &bytes, MAX_SHORT_KEY_BYTES)?))
}

// A key's length, and both faults.
const KEYS: [(u16, Option<BlockFault>, Option<BlockFault>); 4] = [
    (1_024, None, None),
    (1_025, None, LENGTH),
    (4_096, None, LENGTH),
    (4_097, LENGTH, LENGTH),
];

#[test]
fn a_key_has_at_most_4096_bytes(rt: HostRuntime) -> Result<(), Fail> {
    for (length, want, want_short) in KEYS {
        let found = faults_of_key(rt.alloc(), length)?;
        assert!(rt; found == (want, want_short), "{length}");
    }
    Ok(())
}

// The block of three entries.
fn block_of_three(alloc: Global) -> Result<Block, Fail> {
    let bytes = Bytes::from_vec(bytes_of(alloc, THREE.as_flattened())?)?;
    match decode_block(alloc, bytes, MAX_KEY_BYTES) {
        Ok(block) => Ok(block),
        Err(Refused::Fault(_)) => Err("no block")?,
        Err(Refused::OutOfMemory) => Err("out of memory")?,
    }
}

// What the entries of a block are written as.
fn written(alloc: Global, block: &Block) -> Result<Bytes, AllocError> {
    // Proof hint: the entries of a block are in order.
    let (_bytes, count) = (block.bytes(), block.count());
    let entries = block.entries(alloc)?;
    if count == 0 {
        return Ok(Bytes::new());
    }
    encode_block(alloc, &entries)
}

fn sequence_of(entry: &Entry) -> u64 {
    entry.ikey.seq.number()
}

// The sequence of the next entry, which is one of its own.
fn next_sequence(cursor: &mut Cursor<'_>) -> Result<Option<u64>, AllocError> {
    match cursor.next()? {
        Some(entry) => Ok(Some(sequence_of(&entry))),
        None => Ok(None),
    }
}

// The sequences of the entries that a cursor gives if it is asked four times.
fn sequences(alloc: Global, block: &Block) -> Result<Vec<u64>, Fail> {
    let mut seqs = Vec::new(alloc);
    let mut cursor = block.cursor();
    for _ in 0..4 {
        if let Some(seq) = next_sequence(&mut cursor)? {
            seqs.push(seq)?;
        }
    }
    Ok(seqs)
}

// A block is lent to what sees it, so that no assertion drops it.
fn see_three(rt: &impl Abort, alloc: Global, block: &Block) -> Result<(), Fail> {
    assert!(rt; written(alloc, block)?.as_slice() == block.bytes());
    assert!(rt; sequences(alloc, block)?.as_slice() == [2, 1, 3].as_slice());
    let between = block.range(alloc, b"a", b"bc")?;
    assert!(rt; between.len() == 2);
    Ok(())
}

#[test]
fn entries_are_written_as_they_were(rt: HostRuntime) -> Result<(), Fail> {
    let block = block_of_three(rt.alloc())?;
    see_three(&rt, rt.alloc(), &block)
}
