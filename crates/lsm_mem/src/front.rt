//! What most keys begin with: it is left out of prefixes, so that keys of one beginning differ in theirs.

/// The most bytes of a front. It is held in place, so it stays short.
const MAX_FRONT: usize = 32;

/// How many bytes that keys share a front leaves out: keys that count up soon differ in the last ones.
const SPARE_BYTES: usize = 2;

/// The bytes that most keys of a memtable begin with. Any are right: they decide only how fast a key is found.
#[derive(Clone, Copy, Debug)]
pub(crate) struct Front {
    bytes: [u8; MAX_FRONT],
    len: usize,
}

impl Front {
    ghost use Rattle.std.specs.Prelude.{◌≡◌};
    ghost use Rattle.lsm_mem.specs.Buckets.{bytes_of_front};

    /// No bytes.
    pub(crate) const NONE: Front = Front {
        bytes: [0; MAX_FRONT],
        len: 0,
    };

    /// What keys after these two are expected to begin with: what both begin with but for its last bytes, at most 32 bytes.
    pub(crate) fn after(key: &[u8], other: &[u8]) -> Front {
        let mut front = Front::NONE;
        let most = key.len().min(other.len()).min(MAX_FRONT);
        for i in 0..most {
            if key[i] != other[i] {
                break;
            }
            front.bytes[i] = key[i];
            front.len = i + 1;
        }
        front.len = front.len.saturating_sub(SPARE_BYTES);
        front
    }

    /// The bytes.
    pub(crate) fn as_slice(&self) -> &[u8]
        ensures { result.now ≡ bytes_of_front self.now }
    {
        &self.bytes[..self.len.min(MAX_FRONT)]
    }
}
