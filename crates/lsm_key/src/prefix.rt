//! The first bytes of a key after a front, as a number.

ghost use Rattle.std.specs.Prelude.{◌≡◌, ℕ, ◌<◌, slice_index};
ghost use Rattle.lsm_key.specs.Prefix.{byte_at, leading, prefix_of};

// How many bytes of a key its prefix has: as many as a `u64` has, so that two prefixes are compared at once.
const PREFIX_BYTES: usize = 8;

/// The first 8 bytes of a key after the front as a big-endian number, with zeros in place of those that it does not have. A key
/// that does not begin with the front has the least number or the greatest one. Keys with different prefixes are in the
/// order of their prefixes, whatever the front is.
pub fn prefix_of(front: &[u8], key: &[u8]) -> u64
    ensures value { result ≡ prefix_of front.now key.now }
    ensures bytes { (i : ℕ) → slice_index key.now i < 256 }
{
    match key.strip_prefix(front) {
        Some(rest) => leading(rest),
        None if key.cmp(front).is_lt() => 0,
        None => u64::MAX,
    }
}

// The first 8 bytes: one load if the key has them all.
fn leading(key: &[u8]) -> u64
    ensures { result ≡ leading 8 key.now }
{
    match key.first_chunk::<PREFIX_BYTES>() {
        Some(bytes) => u64::from_be_bytes(*bytes),
        None => padded(key),
    }
}

// The same byte by byte, which a key that is shorter needs.
fn padded(key: &[u8]) -> u64
    ensures { result ≡ leading 8 key.now }
{
    let mut prefix = 0;
    for i in 0..PREFIX_BYTES {
        prefix = prefix * 256 + u64::from(byte_at(key, i));
    }
    prefix
}

// The byte at a place, 0 after the end.
fn byte_at(key: &[u8], i: usize) -> u8
    ensures { result ≡ byte_at key.now i }
{
    match key.get(i) {
        Some(byte) => *byte,
        None => 0,
    }
}
