//! Look-ups through a cache that holds fewer blocks than they ask for; and the bytes of a table that is built of entries, which no program asks.

mod beside;

ghost use Rattle.lsm_key.specs.Entries.{IsEntry, longest};
ghost use Rattle.std.specs.Prelude.{◌≤◌, IfOk, length};

use bytes::{Bytes, BytesMut};
use lsm_cache::{BlockCache, CachedTable, copy_entry, copy_value};
use lsm_key::{Entry, InternalKey, Kind, Seq};
use lsm_table::{BuildError, Table, TableBuilder};
use std::alloc::{AllocError, Global};
use std::marker::Model;
use std::num::NonZeroUsize;
use std::test::Fail;

// Of the key a: at sequence 2 a deletion, at sequence 1 a put of 1, each in a block of its own.
const TWO_BLOCKS: [u8; 78] = [
    0x4c, 0x53, 0x4d, 0x54, 1, 0, 0, 0, 1, 0, 0, 0, 2, 0, 0, 0, 2, //
    0, 0, 0, 0x0f, 0, 1, 0x61, 0, 0, 0, 0, 0, 0, 2, 0, //
    0, 0, 0, 0x10, 0, 1, 0x61, 0, 0, 0, 0, 0, 0, 1, 1, //
    0, 1, 0x61, 0, 0, 0, 0, 0, 0, 2, 0, 0, 0, 0, 0, //
    0, 1, 0x61, 0, 0, 0, 0, 0, 0, 1, 1, 0, 0, 0, 1, 0x31,
];

// Two tables under the numbers 1 and 2, and a cache: by the invariant it holds no other blocks under these, so look-ups may be asked.
#[derive(Drop)]
struct Shelf {
    first: Table,
    second: Table,
    cache: BlockCache,
}

impl Model for Shelf {
    ghost use Rattle.std.specs.Prelude.{ℕ};
    ghost use Rattle.lsm_cache.specs.Cached.{HoldsBlocks};

    ghost Value = { ℕ };

    ghost view = { λ s. 0 };

    ghost invariant = { λ s. HoldsBlocks 1 s.first.entries s.cache × HoldsBlocks 2 s.second.entries s.cache };
}

impl Shelf {
    fn new(
        alloc: Global,
        first: Table,
        second: Table,
        capacity: NonZeroUsize,
    ) -> Result<Shelf, AllocError> {
        let cache = BlockCache::new(alloc, capacity)?;
        Ok(Shelf {
            first,
            second,
            cache,
        })
    }

    // What a look-up in the first table copies.
    fn of_first(
        &mut self,
        alloc: Global,
        key: &[u8],
        at: Seq,
    ) -> Result<Option<Entry>, AllocError> {
        CachedTable::new(1, &self.first).get(&mut self.cache, alloc, key, at)
    }

    // The same of the second one.
    fn of_second(
        &mut self,
        alloc: Global,
        key: &[u8],
        at: Seq,
    ) -> Result<Option<Entry>, AllocError> {
        CachedTable::new(2, &self.second).get(&mut self.cache, alloc, key, at)
    }

    // Loads the block of a key of the first table.
    fn load(&mut self, alloc: Global, key: &[u8]) {
        CachedTable::new(1, &self.first).load(&mut self.cache, alloc, key);
    }

    // A copy of what a look-up in the first table lends.
    fn lent(&self, alloc: Global, key: &[u8], at: Seq) -> Result<Option<Entry>, AllocError> {
        match CachedTable::new(1, &self.first).seek(&self.cache, key, at) {
            None => Ok(None),
            Some(entry) => Ok(Some(copy_entry(alloc, entry)?)),
        }
    }

    // The value that a read of the first table gives.
    fn value(&self, alloc: Global, key: &[u8], at: Seq) -> Result<Option<Bytes>, AllocError> {
        match CachedTable::new(1, &self.first).seek(&self.cache, key, at) {
            None => Ok(None),
            Some(entry) => copy_value(alloc, entry),
        }
    }

    fn clear(&mut self) {
        self.cache.clear();
    }

    fn held(&self) -> usize {
        self.cache.len()
    }
}

// Proof hint: nothing is claimed about the builder afterwards.
fn add(builder: &mut TableBuilder, entry: Entry) -> Result<(), BuildError>
    requires { IsEntry entry }
{
    builder.add(entry)
}

// The key of a number: k00 to k99.
fn key_of(number: u8) -> [u8; 3] {
    [b'k', b'0' + number / 10 % 10, b'0' + number % 10]
}

// A put of that key. Its value is so long that look-ups ask the cache.
fn long_put(alloc: Global, number: u8, seq: Seq) -> Result<Entry, AllocError>
    requires { 1 ≤ seq }
    ensures { IfOk result (λ e. IsEntry e) }
{
    let key = Bytes::copy_from_slice(alloc, &key_of(number))?;
    let value = BytesMut::zeroed(alloc, 65_536 - usize::from(number))?.freeze()?;
    let kind = Kind::Put;
    Ok(Entry {
        ikey: InternalKey { key, seq, kind },
        value,
    })
}

// A table of 20 long values, whose sequences are the numbers of the keys and `more`.
fn long_table(alloc: Global, more: u8) -> Result<Table, Fail>
    requires { 1 ≤ more }
{
    let mut builder = TableBuilder::new(alloc, 4096);
    for number in 0..20 {
        let seq = Seq::new(u64::from(number) + u64::from(more));
        add(&mut builder, long_put(alloc, number, seq)?)?;
    }
    Ok(builder.finish_open()?)
}

// The sequence of what was found, and how long its value is.
fn told(found: &Option<Entry>) -> Option<(u64, usize)> {
    match found {
        None => None,
        Some(entry) => Some((entry.ikey.seq.number(), entry.value.len())),
    }
}

// What is found of a key in a table of long values.
fn wanted(number: u8, more: u8) -> Option<(u64, usize)> {
    let seq = u64::from(number) + u64::from(more);
    Some((seq, 65_536 - usize::from(number)))
}

// Two tables of the same layout, whose sequences differ.
fn long_shelf(alloc: Global, capacity: NonZeroUsize) -> Result<Shelf, Fail> {
    let first = long_table(alloc, 1)?;
    let second = long_table(alloc, 101)?;
    Ok(Shelf::new(alloc, first, second, capacity)?)
}

// The worked example, twice.
fn short_shelf(alloc: Global) -> Result<Shelf, Fail> {
    let first = Table::open(alloc, Bytes::copy_from_slice(alloc, &TWO_BLOCKS)?)?;
    let second = first.copy()?;
    Ok(Shelf::new(alloc, first, second, NonZeroUsize::MIN)?)
}

// Two versions of a key, each so long that look-ups ask the cache, in a block of its own; twice.
fn version_shelf(alloc: Global) -> Result<Shelf, Fail> {
    let mut builder = TableBuilder::new(alloc, 1);
    add(&mut builder, long_put(alloc, 0, Seq::new(2))?)?;
    add(&mut builder, long_put(alloc, 0, Seq::new(1))?)?;
    let first = builder.finish_open()?;
    let second = first.copy()?;
    Ok(Shelf::new(alloc, first, second, NonZeroUsize::MIN)?)
}

// Without memory a cache holds fewer blocks, and answers are the same.
fn are_so_many(held: usize, count: usize) -> Result<(), Fail> {
    if held < count {
        Err("too few blocks are held, or out of memory")?;
    }
    Ok(())
}

// Whether a look-up in the first table finds of a key what it should.
fn is_of_first(alloc: Global, shelf: &mut Shelf, number: u8) -> Result<bool, AllocError> {
    let found = shelf.of_first(alloc, &key_of(number), Seq::new(200))?;
    Ok(told(&found) == wanted(number, 1))
}

// The same in the second one.
fn is_of_second(alloc: Global, shelf: &mut Shelf, number: u8) -> Result<bool, AllocError> {
    let found = shelf.of_second(alloc, &key_of(number), Seq::new(200))?;
    Ok(told(&found) == wanted(number, 101))
}

// The first of these keys of which one of both tables, asked by turns, shows something else.
fn wrong_key(alloc: Global, shelf: &mut Shelf, numbers: &[u8]) -> Result<Option<u8>, AllocError> {
    for number in numbers {
        if !is_of_first(alloc, shelf, *number)? || !is_of_second(alloc, shelf, *number)? {
            return Ok(Some(*number));
        }
    }
    Ok(None)
}

// The first of these keys, up to these sequences, of which there is an entry.
fn found_key(
    alloc: Global,
    shelf: &mut Shelf,
    asked: &[(&[u8], Seq)],
) -> Result<Option<usize>, AllocError> {
    for (i, (key, at)) in asked.iter().enumerate() {
        if shelf.of_first(alloc, key, *at)?.is_some() {
            return Ok(Some(i));
        }
    }
    Ok(None)
}

// The first of these keys of which something else is lent, once its block is loaded, than is copied.
fn unlike_key(alloc: Global, shelf: &mut Shelf, numbers: &[u8]) -> Result<Option<u8>, AllocError> {
    for number in numbers {
        let key = key_of(*number);
        shelf.load(alloc, &key);
        let lent = shelf.lent(alloc, &key, Seq::new(40))?;
        let copied = shelf.of_first(alloc, &key, Seq::new(40))?;
        if lent != copied {
            return Ok(Some(*number));
        }
    }
    Ok(None)
}

// The first sequence at which a look-up of a key with two versions finds something else than these, which are asked by turns, twice.
fn wrong_version(
    alloc: Global,
    shelf: &mut Shelf,
    key: &[u8],
    later: (u64, usize),
    earlier: (u64, usize),
) -> Result<Option<u64>, AllocError> {
    for (at, want) in [(2, later), (1, earlier), (2, later), (1, earlier)] {
        if told(&shelf.of_first(alloc, key, Seq::new(at))?) != Some(want) {
            return Ok(Some(at));
        }
    }
    Ok(None)
}

// What the tests say stands behind the last use of a shelf: each way out with one would be proved to let it go.

#[test]
fn the_worked_row(rt: HostRuntime) -> Result<(), Fail> {
    let mut shelf = short_shelf(rt.alloc())?;
    let wrong = wrong_version(rt.alloc(), &mut shelf, b"a", (2, 0), (1, 1));
    drop(shelf);
    let wrong = wrong?;
    assert!(rt; wrong.is_none(), "at {wrong:?}");
    Ok(())
}

#[test]
fn versions_of_a_key_are_found_through_the_cache(rt: HostRuntime) -> Result<(), Fail> {
    let mut shelf = version_shelf(rt.alloc())?;
    let (later, earlier) = ((2, 65_536), (1, 65_536));
    let wrong = wrong_version(rt.alloc(), &mut shelf, &key_of(0), later, earlier);
    let held = shelf.held();
    drop(shelf);
    let wrong = wrong?;
    assert!(rt; wrong.is_none(), "at {wrong:?}");
    assert!(rt; held <= 1);
    are_so_many(held, 1)
}

#[test]
fn keys_of_different_blocks_are_asked_in_turn(rt: HostRuntime) -> Result<(), Fail> {
    let mut shelf = long_shelf(rt.alloc(), NonZeroUsize::MIN)?;
    let wrong = wrong_key(rt.alloc(), &mut shelf, &[0, 19, 0, 10, 10]);
    let held = shelf.held();
    drop(shelf);
    let wrong = wrong?;
    assert!(rt; wrong.is_none(), "key {wrong:?}");
    assert!(rt; held <= 1);
    are_so_many(held, 1)
}

#[test]
fn what_is_not_there_is_not_found(rt: HostRuntime) -> Result<(), Fail> {
    let mut shelf = long_shelf(rt.alloc(), NonZeroUsize::MIN)?;
    // Before the first key, between two and after the last one; and a key before its only version.
    let asked = [
        (b"k".as_slice(), Seq::new(40)),
        (b"k105", Seq::new(40)),
        (b"k20", Seq::new(40)),
        (b"k19", Seq::new(19)),
    ];
    let found = found_key(rt.alloc(), &mut shelf, &asked);
    drop(shelf);
    let found = found?;
    assert!(rt; found.is_none(), "{found:?}");
    Ok(())
}

#[test]
fn each_table_gives_its_own_entry(rt: HostRuntime) -> Result<(), Fail> {
    let capacity = NonZeroUsize::new(4).ok_or("no capacity")?;
    let mut shelf = long_shelf(rt.alloc(), capacity)?;
    let wrong = wrong_key(rt.alloc(), &mut shelf, &[3, 11, 3, 19, 0]);
    let held = shelf.held();
    drop(shelf);
    let wrong = wrong?;
    assert!(rt; wrong.is_none(), "key {wrong:?}");
    assert!(rt; held <= 4);
    are_so_many(held, 4)
}

#[test]
fn a_cleared_cache_is_filled_again(rt: HostRuntime) -> Result<(), Fail> {
    let mut shelf = long_shelf(rt.alloc(), NonZeroUsize::MIN)?;
    let first = wrong_key(rt.alloc(), &mut shelf, &[5]);
    shelf.clear();
    let cleared = shelf.held();
    let second = wrong_key(rt.alloc(), &mut shelf, &[17]);
    let held = shelf.held();
    drop(shelf);
    let first = first?;
    assert!(rt; first.is_none(), "key {first:?}");
    assert_eq!(rt; cleared, 0);
    let second = second?;
    assert!(rt; second.is_none(), "key {second:?}");
    are_so_many(held, 1)
}

#[test]
fn a_look_up_lends_what_it_copies(rt: HostRuntime) -> Result<(), Fail> {
    let mut shelf = long_shelf(rt.alloc(), NonZeroUsize::MIN)?;
    let unlike = unlike_key(rt.alloc(), &mut shelf, &[2, 18, 20]);
    drop(shelf);
    let unlike = unlike?;
    assert!(rt; unlike.is_none(), "key {unlike:?}");
    Ok(())
}

#[test]
fn a_deletion_has_no_value(rt: HostRuntime) -> Result<(), Fail> {
    let shelf = short_shelf(rt.alloc())?;
    let deleted = shelf.value(rt.alloc(), b"a", Seq::new(2));
    let put = shelf.value(rt.alloc(), b"a", Seq::new(1));
    drop(shelf);
    assert!(rt; deleted?.is_none());
    let value = put?.ok_or("no value")?;
    assert!(rt; value.as_slice() == b"1".as_slice());
    Ok(())
}

// A version of the key "a".
fn version_of_a(alloc: Global, seq: Seq, kind: Kind, value: &[u8]) -> Result<Entry, AllocError>
    requires written { 1 ≤ seq }
    requires fits { length value.now ≤ longest kind }
    ensures { IfOk result (λ e. IsEntry e) }
{
    let key = Bytes::copy_from_slice(alloc, b"a")?;
    let value = Bytes::copy_from_slice(alloc, value)?;
    Ok(Entry {
        ikey: InternalKey { key, seq, kind },
        value,
    })
}

// The bytes of the worked example, built of its entries.
fn built(alloc: Global) -> Result<Bytes, Fail> {
    let mut builder = TableBuilder::new(alloc, 1);
    let deletion = version_of_a(alloc, Seq::new(2), Kind::Delete, b"")?;
    let put = version_of_a(alloc, Seq::new(1), Kind::Put, b"1")?;
    add(&mut builder, deletion)?;
    add(&mut builder, put)?;
    Ok(builder.finish()?)
}

#[test]
fn a_table_is_built_as_in_the_example(rt: HostRuntime) -> Result<(), Fail> {
    let bytes = built(rt.alloc())?;
    assert!(rt; bytes.as_slice() == TWO_BLOCKS.as_slice());
    Ok(())
}
