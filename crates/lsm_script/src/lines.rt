//! The lines that replies print, each by the writer of its kind.

ghost use Rattle.std.specs.Prelude.{◌≡◌, ◌++◌, OnOk};
ghost use Rattle.lsm_script.specs.Lines.{froze_text, flushed_text};
ghost use Rattle.lsm_script.specs.Replies.{text_of, line};

use crate::followers::{
    write_advanced, write_read, write_restarted_follower, write_trimmed, write_waiting,
};
use crate::jobs::{
    write_collecting, write_installed, write_merged, write_messages, write_opened, write_picked,
    write_restarted, write_returned, write_served, write_stale,
};
use crate::refusals::write_refused;
use lsm_coord::Flushed;
use lsm_key::{FileNumber, Seq, VersionNumber};
use lsm_line::{
    write_got, write_line_end, write_number, write_released, write_scanned, write_shown,
    write_snapped, write_text, write_wrote,
};
use lsm_world::Reply;
use std::alloc::{AllocError, Global};

/// `version N flushed S file F`
fn write_flushed(
    out: &mut Vec<u8>,
    number: VersionNumber,
    seq: Seq,
    file: FileNumber,
) -> Result<(), AllocError>
    ensures { OnOk result (out.new.items ≡ out.old.items ++ flushed_text number seq file) }
{
    write_text(out, "version ")?;
    write_number(out, number.number())?;
    write_text(out, " flushed ")?;
    write_number(out, seq.number())?;
    write_text(out, " file ")?;
    write_number(out, file.number())
}

/// `frozen S`
fn write_froze(out: &mut Vec<u8>, seq: Seq) -> Result<(), AllocError>
    ensures { OnOk result (out.new.items ≡ out.old.items ++ froze_text seq) }
{
    write_text(out, "frozen ")?;
    write_number(out, seq.number())
}

/// The text of a reply.
fn write_reply(alloc: Global, out: &mut Vec<u8>, reply: &Reply) -> Result<(), AllocError>
    ensures { OnOk result (out.new.items ≡ out.old.items ++ text_of reply.now) }
{
    match reply {
        Reply::Wrote(first, last) => write_wrote(out, *first, *last),
        Reply::Froze(seq) => write_froze(out, *seq),
        Reply::Flushed(Flushed { number, seq, file }) => write_flushed(out, *number, *seq, *file),
        Reply::Snapped(id, seq) => write_snapped(out, *id, *seq),
        Reply::Released(id) => write_released(out, *id),
        Reply::Got(value) => write_got(out, value),
        Reply::Scanned(pairs) => write_scanned(out, pairs.as_slice()),
        Reply::Shown(shown) => write_shown(alloc, out, shown),
        Reply::Picked(job, sent) => write_picked(out, job, *sent),
        Reply::Idle => write_text(out, "idle"),
        Reply::Returned(id) => write_returned(out, *id),
        Reply::StaleClaim(id) => write_stale(out, *id),
        Reply::Served(sent) => write_served(out, *sent),
        Reply::Installed(number, files) => write_installed(out, *number, files.as_slice()),
        Reply::Ignored => write_text(out, "ignored"),
        Reply::Collecting(missing, sent) => write_collecting(out, *missing, *sent),
        Reply::Merged(sent) => write_merged(out, *sent),
        Reply::Dropped => write_text(out, "dropped"),
        Reply::Restarted(epoch, number, last) => write_opened(out, *epoch, *number, *last),
        Reply::RestartedWorker(worker) => write_restarted(out, *worker),
        Reply::Trimmed(floor, files) => write_trimmed(out, *floor, files.as_slice()),
        Reply::Asked(sent) => write_messages(out, *sent),
        Reply::ReadAt(number, value) => write_read(out, *number, value),
        Reply::Waiting(missing, sent) => write_waiting(out, *missing, *sent),
        Reply::Advanced(number) => write_advanced(out, *number),
        Reply::Current => write_text(out, "current"),
        Reply::RestartedFollower(follower) => write_restarted_follower(out, *follower),
        Reply::Refused(refusal) => write_refused(out, *refusal),
    }
}

/// The line of a reply.
pub fn write_line(alloc: Global, out: &mut Vec<u8>, reply: &Reply) -> Result<(), AllocError>
    ensures { OnOk result (out.new.items ≡ out.old.items ++ line reply.now) }
{
    write_reply(alloc, out, reply)?;
    write_line_end(out)
}
