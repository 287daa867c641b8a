//! The keys and values of entries, by index, so that every store that is compared is given the same.

ghost use Rattle.std.specs.Prelude.{◌≤◌};

use bytes::{Bytes, BytesMut};
use lsm_key::Op;
use std::alloc::{AllocError, Global};

/// What each prefixed key begins with.
const PREFIX: [u8; 16] = *b"user:profile:eu:";

/// How many bytes of a value are made at a time.
const WORD: u64 = 8;

/// What an entry takes in a table beside its key and value, in bytes.
const OVERHEAD: u64 = 14;

/// A permutation of the numbers that scatters them (Steele, Lea, Flood, "Fast splittable pseudorandom number
/// generators", 2014: the mixer of SplitMix64).
pub(crate) fn mix(number: u64) -> u64 {
    let start = number.wrapping_add(0x9e37_79b9_7f4a_7c15);
    let once = (start ^ (start >> 30)).wrapping_mul(0xbf58_476d_1ce4_e5b9);
    let twice = (once ^ (once >> 27)).wrapping_mul(0x94d0_49bb_1331_11eb);
    twice ^ (twice >> 31)
}

/// The random number below a limit that belongs to this one.
pub(crate) fn random_below(limit: u64, number: u64) -> u64 {
    mix(!number) % or_one(limit)
}

/// The number, or 1 in place of 0.
pub(crate) fn or_one(number: u64) -> u64
    ensures { 1 ≤ result }
{
    if number == 0 { 1 } else { number }
}

/// The scattered key of an index: 16 bytes, in random order, and different for each index.
pub(crate) fn scattered_key(index: u64) -> [u8; 16] {
    (((mix(index) as u128) << 64) | index as u128).to_be_bytes()
}

/// What the keys of all entries look like.
#[derive(Clone, Copy)]
pub(crate) enum KeyShape {
    Scattered,
    /// A prefix that all keys share, and then a scattered key.
    Prefixed,
}

/// A key of either shape.
#[derive(Clone, Copy)]
pub(crate) struct Key {
    shape: KeyShape,
    // The prefixed key.
    bytes: [u8; 32],
}

impl Key {
    pub(crate) fn as_slice(&self) -> &[u8] {
        match self.shape {
            KeyShape::Scattered => &self.bytes[PREFIX.len()..],
            KeyShape::Prefixed => &self.bytes,
        }
    }
}

/// What all entries look like.
#[derive(Clone, Copy)]
pub(crate) struct Shape {
    pub(crate) keys: KeyShape,
    /// How many bytes a value has.
    pub(crate) value_len: u64,
}

impl Shape {
    /// Scattered keys, and values of 100 bytes.
    pub(crate) const DEFAULT: Shape = Shape {
        keys: KeyShape::Scattered,
        value_len: 100,
    };

    /// How many bytes a key and its value have.
    pub(crate) fn entry_bytes(self) -> u64 {
        let key_len = match self.keys {
            KeyShape::Scattered => 16,
            KeyShape::Prefixed => 32,
        };
        self.value_len.saturating_add(key_len)
    }

    /// How many entries have this weight, at most.
    pub(crate) fn count_within(self, weight: u64) -> u64 {
        weight / or_one(self.entry_bytes().saturating_add(OVERHEAD))
    }

    /// The key of an index.
    pub(crate) fn key(self, index: u64) -> Key {
        let mut bytes = [0; 32];
        bytes[..16].copy_from_slice(&PREFIX);
        bytes[16..].copy_from_slice(&scattered_key(index));
        Key {
            shape: self.keys,
            bytes,
        }
    }

    /// The value of an index: bytes that nothing compresses.
    pub(crate) fn value(self, alloc: Global, index: u64) -> Result<Bytes, AllocError> {
        let words = self.value_len / WORD;
        let mut value = BytesMut::with_capacity(alloc, self.value_len as usize)?;
        for word in 0..words {
            let made = mix(index.wrapping_mul(words).wrapping_add(word));
            value.extend_reserved(&made.to_be_bytes());
        }
        let rest = mix(index).to_be_bytes();
        value.extend_reserved(&rest[..(self.value_len % WORD) as usize]);
        Ok(value.freeze()?)
    }

    /// The put of the key of an index with the value of another one, or without one its deletion.
    pub(crate) fn op(
        self,
        alloc: Global,
        index: u64,
        value: Option<u64>,
    ) -> Result<Op, AllocError> {
        let key = Bytes::copy_from_slice(alloc, self.key(index).as_slice())?;
        match value {
            None => Ok(Op::Delete(key)),
            Some(number) => Ok(Op::Put(key, self.value(alloc, number)?)),
        }
    }
}
