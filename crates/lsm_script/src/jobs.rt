//! The lines of jobs, of those that run them and of messages.

ghost use Rattle.std.specs.Prelude.{◌≡◌, ◌++◌, OnOk};
ghost use Rattle.lsm_script.specs.Lines.{messages_text, sent_text, picked_text, returned_text, stale_text, served_text, made_text, installed_text, collecting_text, merged_text, opened_text, restarted_text};

use lsm_claim::JobId;
use lsm_key::{FileNumber, Seq, VersionNumber};
use lsm_line::{write_name, write_number, write_numbers, write_text};
use lsm_msg::NodeIndex;
use lsm_world::{PickedJob, Sent};
use std::alloc::AllocError;

/// ` message M`, ` messages A-B` or ` message lost`, or nothing
pub fn write_sent(out: &mut Vec<u8>, sent: Sent) -> Result<(), AllocError>
    ensures { OnOk result (out.new.items ≡ out.old.items ++ sent_text sent) }
{
    match sent {
        Sent::Nothing => Ok(()),
        Sent::Lost | Sent::Messages(_, _) => {
            write_text(out, " ")?;
            write_messages(out, sent)
        }
    }
}

/// `message M`, `messages A-B` or `message lost`, or nothing
pub fn write_messages(out: &mut Vec<u8>, sent: Sent) -> Result<(), AllocError>
    ensures { OnOk result (out.new.items ≡ out.old.items ++ messages_text sent) }
{
    match sent {
        Sent::Nothing => Ok(()),
        Sent::Lost => write_text(out, "message lost"),
        Sent::Messages(first, last) => write_range(out, first, last),
    }
}

/// `message A`, or `messages A-B` if A and B differ
fn write_range(out: &mut Vec<u8>, first: u64, last: u64) -> Result<(), AllocError>
    ensures { OnOk result (out.new.items ≡ out.old.items ++ messages_text (Sent.Messages first last)) }
{
    if first == last {
        write_text(out, "message ")?;
        return write_number(out, first);
    }
    write_text(out, "messages ")?;
    write_number(out, first)?;
    write_text(out, "-")?;
    write_number(out, last)
}

/// `job E.N level L inputs F,F,..`, and its message
pub fn write_picked(out: &mut Vec<u8>, job: &PickedJob, sent: Sent) -> Result<(), AllocError>
    ensures { OnOk result (out.new.items ≡ out.old.items ++ picked_text job.now sent) }
{
    write_text(out, "job ")?;
    write_name(out, job.id.epoch, job.id.number)?;
    write_text(out, " level ")?;
    write_number(out, u64::from(job.level))?;
    write_text(out, " inputs ")?;
    write_numbers(out, job.inputs.as_slice())?;
    write_sent(out, sent)
}

/// `returned E.N`
pub fn write_returned(out: &mut Vec<u8>, id: JobId) -> Result<(), AllocError>
    ensures { OnOk result (out.new.items ≡ out.old.items ++ returned_text id) }
{
    write_text(out, "returned ")?;
    write_name(out, id.epoch, id.number)
}

/// `stale E.N`
pub fn write_stale(out: &mut Vec<u8>, id: JobId) -> Result<(), AllocError>
    ensures { OnOk result (out.new.items ≡ out.old.items ++ stale_text id) }
{
    write_text(out, "stale ")?;
    write_name(out, id.epoch, id.number)
}

/// `served`, and the message that answers
pub fn write_served(out: &mut Vec<u8>, sent: Sent) -> Result<(), AllocError>
    ensures { OnOk result (out.new.items ≡ out.old.items ++ served_text sent) }
{
    write_text(out, "served")?;
    write_sent(out, sent)
}

/// `F,F,..` or `none`
fn write_made(out: &mut Vec<u8>, files: &[FileNumber]) -> Result<(), AllocError>
    ensures { OnOk result (out.new.items ≡ out.old.items ++ made_text files.now) }
{
    if files.is_empty() {
        return write_text(out, "none");
    }
    write_numbers(out, files)
}

/// `installed version N files F,F,..` or `installed version N files none`
pub fn write_installed(
    out: &mut Vec<u8>,
    number: VersionNumber,
    files: &[FileNumber],
) -> Result<(), AllocError>
    ensures { OnOk result (out.new.items ≡ out.old.items ++ installed_text number files.now) }
{
    write_text(out, "installed version ")?;
    write_number(out, number.number())?;
    write_text(out, " files ")?;
    write_made(out, files)
}

/// `collecting C`, and the messages that fetch
pub fn write_collecting(out: &mut Vec<u8>, missing: u32, sent: Sent) -> Result<(), AllocError>
    ensures { OnOk result (out.new.items ≡ out.old.items ++ collecting_text missing sent) }
{
    write_text(out, "collecting ")?;
    write_number(out, u64::from(missing))?;
    write_sent(out, sent)
}

/// `merged`, and the message of the result
pub fn write_merged(out: &mut Vec<u8>, sent: Sent) -> Result<(), AllocError>
    ensures { OnOk result (out.new.items ≡ out.old.items ++ merged_text sent) }
{
    write_text(out, "merged")?;
    write_sent(out, sent)
}

/// `restarted wD`
pub fn write_restarted(out: &mut Vec<u8>, worker: NodeIndex) -> Result<(), AllocError>
    ensures { OnOk result (out.new.items ≡ out.old.items ++ restarted_text worker) }
{
    write_text(out, "restarted w")?;
    write_number(out, u64::from(worker.number()))
}

/// `epoch E version N last S`
pub fn write_opened(
    out: &mut Vec<u8>,
    epoch: u64,
    number: VersionNumber,
    last: Seq,
) -> Result<(), AllocError>
    ensures { OnOk result (out.new.items ≡ out.old.items ++ opened_text epoch number last) }
{
    write_text(out, "epoch ")?;
    write_number(out, epoch)?;
    write_text(out, " version ")?;
    write_number(out, number.number())?;
    write_text(out, " last ")?;
    write_number(out, last.number())
}
