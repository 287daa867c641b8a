//! Messages as bytes: those that `docs/FORMATS.md` writes out, and others with one field changed.

/// Bytes that are no message.
pub(super) const JUNK: &[u8] = b"LSMM";

/// Job 1.1 of level 0 for worker 1: file 1, whose one entry puts a.
pub(super) const JOB: &[u8] =
    b"LSMM\x01\x01\0\0\x01\x01\0\0\0\0\0\0\0\x01\0\0\0\0\0\0\0\x01\0\0\0\x10\0\0\0\x01\0\0\0\0\0\0\0\x01\0\0\x01a\0\x01a\0\0\0\x30\0\0\0\x01\0\0\0\0";

/// Worker 1 fetches file 1.
pub(super) const FETCH: &[u8] = b"LSMM\x01\x02\x01\x01\0\0\0\0\0\0\0\0\0\x01";

/// Worker 1 fetches file 9.
pub(super) const FETCH_OTHER: &[u8] = b"LSMM\x01\x02\x01\x01\0\0\0\0\0\0\0\0\0\x09";

/// File 1 for worker 1: a put of a at sequence 1.
pub(super) const TABLE: &[u8] =
    b"LSMM\x01\x03\0\0\x01\x01\0\0\0\0\0\0\0\x01\0\0\0\x30LSMT\x01\0\0\x10\0\0\0\0\x01\0\0\0\x01\0\0\0\x10\0\x01a\0\0\0\0\0\0\x01\x01\0\x01a\0\0\0\0\0\0\x01\x01\0\0\0\x011";

/// File 1 is gone, for worker 1.
pub(super) const GONE: &[u8] = b"LSMM\x01\x04\0\0\x01\x01\0\0\0\0\0\0\0\x01";

/// File 9 is gone, for worker 1.
pub(super) const GONE_OTHER: &[u8] = b"LSMM\x01\x04\0\0\x01\x01\0\0\0\0\0\0\0\x09";

/// Worker 1 made one table of job 1.1, the same.
pub(super) const RESULT: &[u8] =
    b"LSMM\x01\x05\x01\x01\0\0\0\0\0\0\0\0\0\x01\0\0\0\0\0\0\0\x01\0\0\0\x01\0\0\0\x30LSMT\x01\0\0\x10\0\0\0\0\x01\0\0\0\x01\0\0\0\x10\0\x01a\0\0\0\0\0\0\x01\x01\0\x01a\0\0\0\0\0\0\x01\x01\0\0\0\x011";

/// Worker 1 made no table of job 1.9.
pub(super) const LATE_RESULT: &[u8] =
    b"LSMM\x01\x05\x01\x01\0\0\0\0\0\0\0\0\0\x01\0\0\0\0\0\0\0\x09\0\0\0\0";

/// Follower 1 asks what comes after version 0.
pub(super) const ASK_NEW: &[u8] = b"LSMM\x01\x06\x02\x01\0\0\0\0\0\0\0\0\0\0";

/// Follower 1 asks what comes after version 1.
pub(super) const ASK: &[u8] = b"LSMM\x01\x06\x02\x01\0\0\0\0\0\0\0\0\0\x01";

/// Follower 1 has the current version, which is version 0.
pub(super) const CURRENT: &[u8] = b"LSMM\x01\x09\0\0\x02\x01\0\0\0\0\0\0\0\0";

/// Edit 1, of an opening, for follower 1.
pub(super) const OPENING: &[u8] =
    b"LSMM\x01\x07\0\0\x02\x01\0\0\0\0\0\0\0\x01\x03\0\0\0\0\0\0\0\0\0\0\0\0\0\0\0\x01\0\0\0\0\0\0\0\x01\0\0\0\0\0\0\0\0";

/// Edit 2, of the flush of file 1, for follower 1.
pub(super) const FLUSH: &[u8] =
    b"LSMM\x01\x07\0\0\x02\x01\0\0\0\0\0\0\0\x02\x01\0\0\0\0\0\0\0\x01\0\0\0\0\0\0\0\x01\0\0\0\0\0\0\0\x02\0\0\0\0\0\0\0\x01\0\0\0\0\0\0\0\x01\0\0\x01a\0\x01a\0\0\0\x30\0\0\0\x01";

/// Follower 1 fetches file 1.
pub(super) const FOLLOWER_FETCH: &[u8] = b"LSMM\x01\x02\x02\x01\0\0\0\0\0\0\0\0\0\x01";

/// File 1 for follower 1.
pub(super) const FOLLOWER_TABLE: &[u8] =
    b"LSMM\x01\x03\0\0\x02\x01\0\0\0\0\0\0\0\x01\0\0\0\x30LSMT\x01\0\0\x10\0\0\0\0\x01\0\0\0\x01\0\0\0\x10\0\x01a\0\0\0\0\0\0\x01\x01\0\x01a\0\0\0\0\0\0\x01\x01\0\0\0\x011";

/// File 1 is gone, for follower 1.
pub(super) const FOLLOWER_GONE: &[u8] = b"LSMM\x01\x04\0\0\x02\x01\0\0\0\0\0\0\0\x01";
