//! The version of a message: a function of its keys.

ghost use Rattle.std.specs.Prelude.{◌≡◌, ◌||◌};
ghost use Rattle.std.specs.List.{list_any};
ghost use Rattle.lsm_key.specs.Versions.{is_long, version_of};
ghost use Rattle.lsm_msg.specs.Messages.{own_keys};

use crate::message::Body;
use lsm_edit::FileMeta;
use lsm_key::{KeyRange, is_long};

/// The version of a message with this body: 2 where a key in its own fields is too long for version 1, and else 1.
pub(crate) fn version_of(body: &Body) -> u8
    ensures { result ≡ version_of (own_keys body.now) }
{
    if has_long_key(body) { 2 } else { 1 }
}

// Whether a key in the body's own fields is too long for version 1.
fn has_long_key(body: &Body) -> bool
    ensures { result ≡ list_any is_long (own_keys body.now) }
{
    match body {
        Body::Job(job) => has_long_file(job.inputs()) || has_long_range(job.deeper()),
        Body::Edit(edit) => has_long_file(edit.added.as_slice()),
        Body::Base(version) => has_long_file(version.files()),
        Body::Fetch(_) | Body::Gone(_) | Body::Ask(_) | Body::Current(_) => false,
        // The bytes of tables do not count.
        Body::Table(_, _) | Body::Result(_) => false,
    }
}

fn has_long_file(files: &[FileMeta]) -> bool
    ensures { result ≡ list_any (λ f. is_long f.smallest || is_long f.largest) files.now }
{
    files.iter().any(|file| is_long(file.smallest.as_slice()) || is_long(file.largest.as_slice()))
}

fn has_long_range(ranges: &[KeyRange]) -> bool
    ensures { result ≡ list_any (λ r. is_long r.lo || is_long r.hi) ranges.now }
{
    ranges.iter().any(|range| is_long(range.lo.as_slice()) || is_long(range.hi.as_slice()))
}
