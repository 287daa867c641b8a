//! The lines of a store's answers, without their ends.

ghost use Rattle.std.specs.Prelude.{◌≡◌, ◌++◌, OnOk};
ghost use Rattle.lsm_line.specs.Lines.{wrote_text, snapped_text, released_text, got_text, pair_text, scanned_text};

use crate::text::{write_bytes, write_name, write_number, write_text};
use bytes::Bytes;
use lsm_coord::SnapId;
use lsm_key::Seq;
use std::alloc::AllocError;

/// `seq F`, or `seq F-L` if F and L differ
pub fn write_wrote(out: &mut Vec<u8>, first: Seq, last: Seq) -> Result<(), AllocError>
    ensures { OnOk result (out.new.items ≡ out.old.items ++ wrote_text first last) }
{
    write_text(out, "seq ")?;
    write_number(out, first.number())?;
    if first.number() == last.number() {
        return Ok(());
    }
    write_text(out, "-")?;
    write_number(out, last.number())
}

/// `snapshot E.N at S`
pub fn write_snapped(out: &mut Vec<u8>, id: SnapId, seq: Seq) -> Result<(), AllocError>
    ensures { OnOk result (out.new.items ≡ out.old.items ++ snapped_text id seq) }
{
    write_text(out, "snapshot ")?;
    write_name(out, id.epoch, id.number)?;
    write_text(out, " at ")?;
    write_number(out, seq.number())
}

/// `released E.N`
pub fn write_released(out: &mut Vec<u8>, id: SnapId) -> Result<(), AllocError>
    ensures { OnOk result (out.new.items ≡ out.old.items ++ released_text id) }
{
    write_text(out, "released ")?;
    write_name(out, id.epoch, id.number)
}

/// `value V`, or `none`
pub fn write_got(out: &mut Vec<u8>, value: &Option<Bytes>) -> Result<(), AllocError>
    ensures { OnOk result (out.new.items ≡ out.old.items ++ got_text value.now) }
{
    match value {
        None => write_text(out, "none"),
        Some(value) => {
            write_text(out, "value ")?;
            write_bytes(out, value.as_slice())
        }
    }
}

/// ` K=V`
fn write_pair(out: &mut Vec<u8>, pair: &(Bytes, Bytes)) -> Result<(), AllocError>
    ensures { OnOk result (out.new.items ≡ out.old.items ++ pair_text pair.now) }
{
    write_text(out, " ")?;
    write_bytes(out, pair.0.as_slice())?;
    write_text(out, "=")?;
    write_bytes(out, pair.1.as_slice())
}

/// `range C`, and ` K=V` for each of the C pairs
pub fn write_scanned(out: &mut Vec<u8>, pairs: &[(Bytes, Bytes)]) -> Result<(), AllocError>
    ensures { OnOk result (out.new.items ≡ out.old.items ++ scanned_text pairs.now) }
{
    write_text(out, "range ")?;
    write_number(out, pairs.len() as u64)?;
    for pair in pairs {
        write_pair(out, pair)?;
    }
    Ok(())
}
