//! The pairs of a range of keys, one after another.

ghost use Rattle.std.specs.Prelude.{◌≡◌, IfErr, IfOk, OnErr, OnOk, slice_get};
ghost use Rattle.lsm_store.specs.Ranges.{IsPart, IsReady, RangeRefuses, ReadsFirst, after_pair, after_pairs, after_taking, next_key, part_place};
ghost use Rattle.lsm_store.specs.Store.{OfCoord};

use super::Store;
use crate::StoreError;
use bytes::Bytes;
use lsm_coord::SnapId;
use lsm_vault::Vault;
use std::alloc::{AllocError, Global};
use std::marker::Model;

/// How many pairs are read at once.
const PART_PAIRS: u64 = 256;

/// The pairs of a range of keys, ascending, each with its value: an iterator. It reads some hundred at once, and shares their bytes. If a
/// read is refused, the range stays where it is.
///
/// Invariant: the part that it holds is what the store reads from where the part begins, and no more pairs of it were
/// given than it has.
#[derive(Drop)]
pub struct Range<'s, V: Vault> {
    store: &'s Store<V>,
    hi: Vec<u8>,
    at: Option<SnapId>,
    part: Part,
    // How many answers may still come.
    left: u64,
}

// Pairs of a range that were read, some of which were given.
#[derive(Drop)]
struct Part {
    // Where the range began.
    from: Vec<u8>,
    pairs: Vec<(Bytes, Bytes)>,
    given: usize,
    // No pair follows them.
    is_last: bool,
}

impl<'s, V: Vault> Model for Range<'s, V> {
    ghost use Rattle.std.specs.Coded.{codes};
    ghost use Rattle.lsm_vault.specs.Stored.{vault_code};
    ghost use Rattle.lsm_store.specs.Ranges.{IsPart, RangeValue, part_place};

    ghost Value = { RangeValue };

    ghost coded = { Prim.hlevel (codes, vault_code) };

    ghost view = { λ r. record { store = r.store.now; from = part_place r.part; hi = r.hi.items; at = r.at; left = r.left } };

    ghost invariant = { λ r. IsPart r.store.now r.hi.items r.at r.part };
}

impl<V: Vault> Store<V> {
    ghost use Rattle.std.specs.Prelude.{◌≡◌, ◌^◌, ◌-◌, IfErr, IfOk};
    ghost use Rattle.lsm_store.specs.Ranges.{RangeRefuses};
    ghost use Rattle.lsm_store.specs.Store.{OfCoord};

    /// The keys at or after `lo` and before `hi` that have a value, latest or at a live snapshot, one after another: ascending, each
    /// with its value. At most 2^64 - 1 of them, which is more than any store has.
    pub fn range(
        &self,
        lo: &[u8],
        hi: &[u8],
        at: Option<SnapId>,
    ) -> Result<Range<'_, V>, StoreError>
        ensures ok { IfOk result (λ range. range ≡ record { store = self.now; from = lo.now; hi = hi.now; at = at; left = 2 ^ 64 - 1 }) }
        ensures refused { IfErr result (OfCoord (RangeRefuses self.now at)) }
    {
        let from = lo.to_vec(self.alloc)?;
        let hi = hi.to_vec(self.alloc)?;
        let part = read_part(self, from, &hi, at)?;
        Ok(Range {
            store: self,
            hi,
            at,
            part,
            left: u64::MAX,
        })
    }
}

impl<V: Vault> Iterator for Range<'_, V> {
    ghost use Rattle.std.specs.Iterator.{at_most};
    ghost use Rattle.lsm_store.specs.Ranges.{NextPair};

    type Item = Result<(Bytes, Bytes), StoreError>;

    ghost next_gives = { NextPair };

    ghost remaining = { λ range. at_most range.left };

    fn next(&mut self) -> Option<Result<(Bytes, Bytes), StoreError>> {
        if self.left == 0 {
            return None;
        }
        match self.part.advance(self.store, &self.hi, self.at) {
            Ok(None) => None,
            Ok(Some(pair)) => {
                self.left -= 1;
                Some(Ok(pair))
            }
            Err(why) => {
                self.left -= 1;
                Some(Err(why))
            }
        }
    }
}

impl Part {
    // Gives the next pair, and reads the next part first if all pairs of this one were given.
    fn advance<V: Vault>(
        &mut self,
        store: &Store<V>,
        hi: &[u8],
        at: Option<SnapId>,
    ) -> Result<Option<(Bytes, Bytes)>, StoreError>
        requires { IsPart store.now hi.now at self.old }
        ensures stays { IsPart store.now hi.now at self.new }
        ensures ok { IfOk result (ReadsFirst store.now (part_place self.old) hi.now at) }
        ensures after { IfOk result (λ pair. part_place self.new ≡ after_pair (part_place self.old) pair) }
        ensures err { OnErr result (part_place self.new ≡ part_place self.old) }
        ensures refused { IfErr result (OfCoord (RangeRefuses store.now at)) }
    {
        self.refill(store, hi, at)?;
        let pair = self.take()?;
        Ok(pair)
    }

    // Reads the next part, if all pairs of this one were given and others may follow.
    fn refill<V: Vault>(
        &mut self,
        store: &Store<V>,
        hi: &[u8],
        at: Option<SnapId>,
    ) -> Result<(), StoreError>
        requires { IsPart store.now hi.now at self.old }
        ensures stays { IsPart store.now hi.now at self.new }
        ensures place { part_place self.new ≡ part_place self.old }
        ensures ready { OnOk result (IsReady self.new) }
        ensures refused { IfErr result (OfCoord (RangeRefuses store.now at)) }
    {
        if self.given < self.pairs.len() || self.is_last {
            return Ok(());
        }
        let from = self.end(store.alloc)?;
        *self = read_part(store, from, hi, at)?;
        Ok(())
    }

    // Gives the next pair, if one is left.
    fn take(&mut self) -> Result<Option<(Bytes, Bytes)>, AllocError>
        ensures ok { IfOk result (λ pair. pair ≡ slice_get self.old.pairs.items self.old.given) }
        ensures after { IfOk result (λ pair. self.new ≡ after_taking self.old pair) }
        ensures err { OnErr result (self.new ≡ self.old) }
    {
        let Some((key, value)) = self.pairs.get(self.given) else {
            return Ok(None);
        };
        let pair = (key.clone()?, value.clone()?);
        self.given += 1;
        Ok(Some(pair))
    }

    // Where the range begins after all pairs of the part.
    fn end(&self, alloc: Global) -> Result<Vec<u8>, AllocError>
        ensures { IfOk result (λ end. end.items ≡ after_pairs self.now.from.items self.now.pairs.items) }
    {
        match self.pairs.last() {
            Some((key, _value)) => key_after(alloc, key),
            None => self.from.as_slice().to_vec(alloc),
        }
    }
}

// The first key after a key.
fn key_after(alloc: Global, key: &[u8]) -> Result<Vec<u8>, AllocError>
    ensures { IfOk result (λ after. after.items ≡ next_key key.now) }
{
    let mut after = Vec::with_capacity(alloc, key.len() + 1)?;
    after.extend_from_slice(key)?;
    after.push(0)?;
    Ok(after)
}

// The first pairs of a range.
fn read_part<V: Vault>(
    store: &Store<V>,
    from: Vec<u8>,
    hi: &[u8],
    at: Option<SnapId>,
) -> Result<Part, StoreError>
    ensures ok { IfOk result (IsPart store.now hi.now at) }
    ensures from { IfOk result (λ part. part_place part ≡ from.items) }
    ensures ready { IfOk result IsReady }
    ensures refused { IfErr result (OfCoord (RangeRefuses store.now at)) }
{
    let pairs = store.scan(&from, hi, at, PART_PAIRS)?;
    let is_last = (pairs.len() as u64) < PART_PAIRS;
    Ok(Part {
        from,
        pairs,
        given: 0,
        is_last,
    })
}
