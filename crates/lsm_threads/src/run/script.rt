//! What the threads of a run write and read, as a value, so that a test can run one of its own.

/// The puts of a key, each of which is flushed to a file of its own.
#[derive(Clone, Copy, Debug)]
pub struct KeyPuts {
    pub key: &'static [u8],
    pub values: [&'static [u8]; 2],
}

/// What threads write and read. Keys that differ lead to two compactions, which meet nowhere.
#[derive(Clone, Copy, Debug)]
pub struct ThreadsScript {
    pub first: KeyPuts,
    pub second: KeyPuts,
    /// The keys that a reader of the follower gets, in turn.
    pub reads: &'static [&'static [u8]],
}

/// The script that the program runs.
pub(crate) const SHOWN: ThreadsScript = ThreadsScript {
    first: KeyPuts {
        key: b"a",
        values: [b"1", b"2"],
    },
    second: KeyPuts {
        key: b"m",
        values: [b"1", b"2"],
    },
    reads: &[b"a", b"m"],
};
