//! The lines of followers, and of the floor below which no version is kept for them.

ghost use Rattle.std.specs.Prelude.{◌≡◌, ◌++◌, OnOk};
ghost use Rattle.lsm_script.specs.Lines.{trimmed_text, read_text, waiting_text, advanced_text, restarted_follower_text};

use crate::jobs::write_sent;
use bytes::Bytes;
use lsm_key::{FileNumber, VersionNumber};
use lsm_line::{write_got, write_number, write_text};
use lsm_msg::NodeIndex;
use lsm_world::Sent;
use std::alloc::AllocError;

/// `floor F removed C`
pub fn write_trimmed(
    out: &mut Vec<u8>,
    floor: VersionNumber,
    files: &[FileNumber],
) -> Result<(), AllocError>
    ensures { OnOk result (out.new.items ≡ out.old.items ++ trimmed_text floor files.now) }
{
    write_text(out, "floor ")?;
    write_number(out, floor.number())?;
    write_text(out, " removed ")?;
    write_number(out, files.len() as u64)
}

/// `at N value V`, or `at N none`
pub fn write_read(
    out: &mut Vec<u8>,
    number: VersionNumber,
    value: &Option<Bytes>,
) -> Result<(), AllocError>
    ensures { OnOk result (out.new.items ≡ out.old.items ++ read_text number value.now) }
{
    write_text(out, "at ")?;
    write_number(out, number.number())?;
    write_text(out, " ")?;
    write_got(out, value)
}

/// `waiting C`, and the messages that fetch
pub fn write_waiting(out: &mut Vec<u8>, missing: u32, sent: Sent) -> Result<(), AllocError>
    ensures { OnOk result (out.new.items ≡ out.old.items ++ waiting_text missing sent) }
{
    write_text(out, "waiting ")?;
    write_number(out, u64::from(missing))?;
    write_sent(out, sent)
}

/// `version N`
pub fn write_advanced(out: &mut Vec<u8>, number: VersionNumber) -> Result<(), AllocError>
    ensures { OnOk result (out.new.items ≡ out.old.items ++ advanced_text number) }
{
    write_text(out, "version ")?;
    write_number(out, number.number())
}

/// `restarted fI`
pub fn write_restarted_follower(out: &mut Vec<u8>, follower: NodeIndex) -> Result<(), AllocError>
    ensures { OnOk result (out.new.items ≡ out.old.items ++ restarted_follower_text follower) }
{
    write_text(out, "restarted f")?;
    write_number(out, u64::from(follower.number()))
}
