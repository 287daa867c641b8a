//! The lines of refusals: `refused`, and the name of the reason.

ghost use Rattle.std.specs.Prelude.{◌≡◌, ◌++◌, OnOk};
ghost use Rattle.lsm_coord.specs.Contract.Seats.{open_refusal};
ghost use Rattle.lsm_world.specs.Replies.{why_of};
ghost use Rattle.lsm_line.specs.Lines.{name_of, refused_text};

use lsm_line::{coord_name, key_name, write_text};
use lsm_versions::OpenError;
use lsm_world::Refusal;
use std::alloc::AllocError;

/// The name of a refusal of an opening.
fn open_name(error: OpenError) -> &'static str
    ensures { result.now ≡ name_of (open_refusal error) }
{
    match error {
        OpenError::OutOfMemory => "OutOfMemory",
        OpenError::BadManifest => "BadManifest",
        OpenError::MissingTable => "MissingTable",
        OpenError::BadLog => "BadLog",
        OpenError::Device => "Device",
        OpenError::NumbersExhausted => "NumbersExhausted",
    }
}

/// `refused Name`
pub fn write_refused(out: &mut Vec<u8>, refusal: Refusal) -> Result<(), AllocError>
    ensures { OnOk result (out.new.items ≡ out.old.items ++ refused_text (why_of refusal)) }
{
    write_text(out, "refused ")?;
    match refusal {
        Refusal::Key(error) => write_text(out, key_name(error)),
        Refusal::Coord(error) => write_text(out, coord_name(error)),
        Refusal::Open(error) => write_text(out, open_name(error)),
        Refusal::Down => write_text(out, "Down"),
        Refusal::Busy => write_text(out, "Busy"),
        Refusal::NoClaim => write_text(out, "NoClaim"),
        Refusal::OldEpoch => write_text(out, "OldEpoch"),
        Refusal::NoMessage => write_text(out, "NoMessage"),
        // Scripts have no trace, so both are one line.
        Refusal::NotTaken | Refusal::OutOfMemory => write_text(out, "OutOfMemory"),
    }
}
