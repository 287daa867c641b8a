//! The versions of a format that has keys, such as tables and messages: version 2 if one of the keys is too long for version 1.

ghost use Rattle.std.specs.Prelude.{◌≡◌, ◌≤◌};
ghost use Rattle.lsm_key.specs.Versions.{is_long, key_limit};

use crate::{MAX_KEY_BYTES, MAX_SHORT_KEY_BYTES};

/// Whether version 1 has no room for the key.
pub fn is_long(key: &[u8]) -> bool
    ensures { result ≡ is_long key.now }
{
    key.len() > MAX_SHORT_KEY_BYTES
}

/// How long a key may be in a version. In bytes.
pub fn key_limit(version: u8) -> usize
    ensures value { result ≡ key_limit version }
    ensures bound { result ≤ MAX_KEY_BYTES }
{
    if version == 1 {
        MAX_SHORT_KEY_BYTES
    } else {
        MAX_KEY_BYTES
    }
}
