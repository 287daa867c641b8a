//! Examples of what no clause says: that calls succeed, and that the limits and the order are the ones that are meant.

ghost use Rattle.std.specs.Prelude.{◌≡◌};

use bytes::{BufMut, Bytes, BytesMut};
use lsm_key::{
    Batch, Entry, InternalKey, Items, KeyError, KeyRangeRef, Kind, Limits, MAX_NUMBER, Op, Refused,
    Seq, compare_place, read_key, read_piece, read_ranged_u8, read_ranged_u32, read_ranged_u64,
    read_trailer, read_u8, read_u16, read_u32, read_u64, write_key, write_trailer,
};
use std::alloc::{AllocError, Global};
use std::cmp::Ordering;
use std::test::Fail;

// `len` bytes.
fn bytes_of(alloc: Global, len: usize) -> Result<Bytes, AllocError> {
    let bytes = vec![in alloc; 7u8; len]?;
    Bytes::copy_from_slice(alloc, bytes.as_slice())
}

// A put of a key and a value of these lengths.
fn op_of(alloc: Global, key: usize, value: usize) -> Result<Op, AllocError> {
    Ok(Op::Put(bytes_of(alloc, key)?, bytes_of(alloc, value)?))
}

fn ikey_of(key: &'static [u8], seq: Seq, kind: Kind) -> InternalKey
    ensures { (result.key ≡ key.now) × (result.seq ≡ seq) }
{
    InternalKey {
        key: Bytes::from_static(key),
        seq,
        kind,
    }
}

#[test]
fn a_push_keeps_to_the_lengths(rt: HostRuntime) -> Result<(), Fail> {
    for (key, value, want) in [
        (1, 0, Ok(())),
        (4096, 65_536, Ok(())),
        (4097, 65_536, Err(KeyError::KeyTooLong)),
        (4096, 65_537, Err(KeyError::ValueTooLong)),
        (4097, 65_537, Err(KeyError::KeyTooLong)),
        (0, 65_537, Err(KeyError::EmptyKey)),
    ] {
        let mut batch = Batch::new(rt.alloc());
        let pushed = batch.push(op_of(rt.alloc(), key, value)?);
        assert_eq!(rt; pushed, want, "a key of {key} bytes, a value of {value}");
    }
    Ok(())
}

#[test]
fn a_batch_holds_a_thousand_operations(rt: HostRuntime) -> Result<(), Fail> {
    let mut batch = Batch::new(rt.alloc());
    for _ in 0..1000 {
        batch.push(op_of(rt.alloc(), 1, 0)?)?;
    }
    let full = batch.push(op_of(rt.alloc(), 1, 0)?);
    assert_eq!(rt; full, Err(KeyError::BatchFull));
    assert_eq!(rt; batch.ops().len(), 1000);
    assert_eq!(rt; batch.weight(), 15_000);
    Ok(())
}

#[test]
fn a_batch_weighs_four_million_bytes(rt: HostRuntime) -> Result<(), Fail> {
    let mut batch = Batch::new(rt.alloc());
    for _ in 0..60 {
        batch.push(op_of(rt.alloc(), 1024, 64_962)?)?;
    }
    for (value, want) in [(39_977, Err(KeyError::BatchFull)), (39_976, Ok(()))] {
        let pushed = batch.push(op_of(rt.alloc(), 10, value)?);
        assert_eq!(rt; pushed, want, "a value of {value}");
    }
    let last = batch.push(Op::Delete(Bytes::from_static(b"k")));
    assert!(rt; last == Err(KeyError::BatchFull));
    assert_eq!(rt; batch.weight(), 4_000_000);
    Ok(())
}

#[test]
fn a_vector_becomes_a_batch(rt: HostRuntime) -> Result<(), Fail> {
    for (key, want) in [(1, Ok(91)), (0, Err(KeyError::EmptyKey))] {
        let first = op_of(rt.alloc(), 2, 60)?;
        let second = op_of(rt.alloc(), key, 0)?;
        let ops = vec![in rt.alloc(); first, second]?;
        let weight = Batch::from_vec(ops).map(|batch| batch.weight());
        assert_eq!(rt; weight, want, "a key of {key} bytes");
    }
    Ok(())
}

#[test]
fn limits_have_six_borders(rt: HostRuntime) {
    for (l0, base, block, within) in [
        (1, 1, 1, true),
        (1000, 1_000_000_000_000, 16_777_216, true),
        (0, 1, 1, false),
        (1, 0, 1, false),
        (1, 1, 0, false),
        (1001, 1, 1, false),
        (1, 1_000_000_000_001, 1, false),
        (1, 1, 16_777_217, false),
    ] {
        let found = Limits::new(l0, base, block).is_some();
        assert!(rt;
            found == within,
            "{l0} files, {base} bytes, blocks of {block}"
        );
    }
}

#[test]
fn a_range_has_both_its_ends(rt: HostRuntime) {
    let range = KeyRangeRef {
        lo: b"b".as_slice(),
        hi: b"d".as_slice(),
    };
    for (lo, hi, overlaps, encloses) in [
        (b"a".as_slice(), b"b".as_slice(), true, false),
        (b"b".as_slice(), b"d".as_slice(), true, true),
        (b"d\x00".as_slice(), b"e".as_slice(), false, false),
    ] {
        let other = KeyRangeRef { lo, hi };
        let hull = range.hull_with(other);
        assert!(rt; range.overlaps(other) == overlaps && range.encloses(other) == encloses);
        assert!(rt; hull.encloses(range) && hull.encloses(other));
    }
    assert!(rt; range.contains(b"d") && !range.contains(b"a"));
}

// Internal keys in their order: a key, a sequence and a kind.
const IN_ORDER: [(&[u8], u64, Kind); 9] = [
    (b"", 1, Kind::Put),
    (b"a", 300, Kind::Delete),
    (b"a", 2, Kind::Put),
    (b"a", 2, Kind::Delete),
    (b"a", 1, Kind::Put),
    (b"a\x00", 9, Kind::Put),
    (b"ab", 1, Kind::Put),
    (b"b", Seq::MAX, Kind::Put),
    (b"\xff", 5, Kind::Put),
];

// One of them.
fn key_at(place: usize) -> InternalKey {
    let (key, seq, kind) = IN_ORDER[place % 9];
    ikey_of(key, Seq::new(seq.min(Seq::MAX)), kind)
}

#[test]
fn internal_keys_are_in_order(rt: HostRuntime) {
    for pair in 0..81usize {
        let (i, j) = (pair / 9, pair % 9);
        let (one, other) = (key_at(i), key_at(j));
        assert!(rt; one.cmp(&other) == i.cmp(&j), "{i} and {j}");
        assert!(rt;
            (one == other, one < other) == (i == j, i < j),
            "{i} and {j}"
        );
    }
}

#[test]
fn a_place_after_another(rt: HostRuntime) {
    let ikey = ikey_of(b"a", Seq::new(2), Kind::Put);
    let place = compare_place(&ikey, b"a", Seq::new(3));
    assert!(rt; place == Ordering::Greater);
}

#[test]
fn operations_leave_entries(rt: HostRuntime) -> Result<(), Fail> {
    for (seq, kind, value) in [(7, Kind::Put, b"vw".as_slice()), (8, Kind::Delete, b"")] {
        let key = Bytes::from_static(b"k");
        let op = match kind {
            Kind::Put => Op::Put(key, Bytes::from_static(value)),
            Kind::Delete => Op::Delete(key),
        };
        let Entry { ikey, value: left } = op.entry(Seq::new(seq))?;
        let key_is_same = op.key().as_slice() == b"k".as_slice();
        let value_is_same = op.value_len() == value.len() && left.as_slice() == value;
        let wanted = ikey_of(b"k", Seq::new(seq), kind);
        assert!(rt; key_is_same && value_is_same && ikey == wanted, "at {seq}");
    }
    Ok(())
}

// A key and a trailer of a put at sequence 515.
const FIELDS: [u8; 13] = *b"\x00\x03key\x00\x00\x00\x00\x00\x02\x03\x01";

#[test]
fn a_key_and_a_trailer_are_written(rt: HostRuntime) -> Result<(), Fail> {
    let mut out = BytesMut::new(rt.alloc());
    write_key(&mut out, b"key")?;
    write_trailer(&mut out, Seq::new(515), Kind::Put)?;
    assert!(rt; out.as_slice() == FIELDS.as_slice());
    Ok(())
}

#[test]
fn a_key_and_a_trailer_are_read(rt: HostRuntime) -> Result<(), Fail> {
    let mut rest = Bytes::copy_from_slice(rt.alloc(), &FIELDS)?;
    let key = read_key(&mut rest, 3, "short", "bad")?;
    assert!(rt; key.as_slice() == b"key".as_slice());
    let trailer = read_trailer(&mut rest, "short", "bad")?;
    assert!(rt; trailer == (Seq::new(515), Kind::Put) && rest.is_empty());
    Ok(())
}

// A number of each width, from the front.
fn numbers_of(rest: &mut Bytes) -> Result<(u8, u16, u32, u64), Refused<&'static str>> {
    Ok((
        read_u8(rest, "short")?,
        read_u16(rest, "short")?,
        read_u32(rest, "short")?,
        read_u64(rest, "short")?,
    ))
}

#[test]
fn numbers_and_a_piece_are_read(rt: HostRuntime) -> Result<(), Fail> {
    let spelled = b"\x01\x02\x03\x04\x05\x06\x07\x08\x09\x0a\x0b\x0c\x0d\x0e\x0f!";
    let mut rest = Bytes::copy_from_slice(rt.alloc(), spelled)?;
    let numbers = numbers_of(&mut rest)?;
    assert!(rt; numbers == (1, 0x0203, 0x0405_0607, 0x0809_0a0b_0c0d_0e0f));
    let piece = read_piece(&mut rest, 1, "short")?;
    assert!(rt; piece.as_slice() == b"!".as_slice() && rest.is_empty());
    Ok(())
}

#[test]
fn numbers_keep_to_their_range(rt: HostRuntime) {
    for (low, high, fault) in [
        (1, 1, None),
        (0, 9, None),
        (2, 9, Some(Refused::Fault("bad"))),
        (0, 0, Some(Refused::Fault("bad"))),
    ] {
        let mut rest = Bytes::from_static(b"\x01\x00\x00\x00\x01\x00\x00\x00\x00\x00\x00\x00\x01");
        let one = read_ranged_u8(&mut rest, low, high, "short", "bad");
        let two = read_ranged_u32(&mut rest, u32::from(low), u32::from(high), "short", "bad");
        let three = read_ranged_u64(&mut rest, u64::from(low), u64::from(high), "short", "bad");
        assert!(rt; one == fault.map_or(Ok(1), Err), "from {low} to {high}");
        assert!(rt; two == fault.map_or(Ok(1), Err), "from {low} to {high}");
        assert!(rt; three == fault.map_or(Ok(1), Err), "from {low} to {high}");
        let end = read_ranged_u64(&mut rest, 0, MAX_NUMBER, "short", "bad");
        assert!(rt; end == Err(Refused::Fault("short")));
    }
}

#[test]
fn items_are_a_vector(rt: HostRuntime) -> Result<(), Fail> {
    let mut items = Items::new(rt.alloc());
    assert!(rt; items.is_empty());
    items.push(4)?;
    items.push(5)?;
    assert_eq!(rt; items.len(), 2);
    let vec = items.into_vec();
    let items = Items::from_vec(vec);
    assert_eq!(rt; items.as_slice(), [4, 5].as_slice());
    Ok(())
}
