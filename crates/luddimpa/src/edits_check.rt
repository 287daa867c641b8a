//! Checking a list of edits.

ghost use Rattle.std.specs.Prelude.{◌≡◌, ◌<◌, IfErr, IfOk, None, OnErr, OnOk, Option, length};
ghost use Rattle.lsm_edit.specs.Edit.{IsEdit, IsSpelledEdit};
ghost use Rattle.lsm_edit.specs.Version.{VersionValue, after_apply, apply_fault};
ghost use Rattle.luddimpa.specs.declared.checked_edits.EditsFault.{EditsFault};
ghost use Rattle.luddimpa.specs.EditChecks.{AppliesOne, ChecksEdits, IsNoEdit, RefusesEdit, StopsAt, checked_edits_of};

use crate::checked_edits::{CheckedEdits, EditsCheck, EditsFault};
use crate::elements::take_element;
use bytes::Bytes;
use lsm_edit::{Edit, Version, decode_edit};
use lsm_key::Refused;
use std::alloc::Global;

/// Checks a list of edits, each behind its length in four bytes: that each is an edit, and applies to the version that those before it
/// make; the first one to version 0. Returns the version after all of them, or after those before the first that is refused, and why
/// that one is.
#[unsafe(no_mangle)]
pub extern "C" fn luddimpa_edits_check(alloc: Global, edits: &[u8]) -> CheckedEdits
    ensures { (version : VersionValue) × (fault : Option EditsFault) × (result ≡ checked_edits_of version fault) × ChecksEdits edits.now version fault }
{
    CheckedEdits::of(&replay(alloc, edits))
}

fn replay(alloc: Global, edits: &[u8]) -> EditsCheck
    ensures { ChecksEdits edits.now result.version result.fault }
{
    let mut version = Version::new(alloc);
    let Ok(mut rest) = Bytes::copy_from_slice(alloc, edits) else {
        return EditsCheck {
            version,
            fault: Some(EditsFault::OutOfMemory),
        };
    };
    while !rest.is_empty() {
        match apply_next(alloc, &mut version, &mut rest) {
            Ok(()) => {}
            Err(fault) => {
                return EditsCheck {
                    version,
                    fault: Some(fault),
                };
            }
        }
    }
    EditsCheck {
        version,
        fault: None,
    }
}

// Takes the edit at the front of the rest, which is not empty, and applies it. If it is refused, the version stays.
fn apply_next(alloc: Global, version: &mut Version, rest: &mut Bytes) -> Result<(), EditsFault>
    requires { 0 < length rest.old }
    ensures ok { OnOk result (AppliesOne version.old rest.old version.new rest.new) }
    ensures err { OnErr result (version.new ≡ version.old) }
    ensures refused { IfErr result (StopsAt version.old rest.old) }
{
    let Ok(element) = take_element(rest) else {
        return Err(EditsFault::OutOfMemory);
    };
    let Some(text) = element else {
        return Err(EditsFault::CutShort);
    };
    let edit = edit_of(alloc, text)?;
    apply(version, &edit)
}

// The edit that the element's bytes encode.
fn edit_of(alloc: Global, text: Bytes) -> Result<Edit, EditsFault>
    ensures ok { IfOk result (λ edit. IsSpelledEdit text edit) }
    ensures refused { IfErr result (IsNoEdit text) }
{
    match decode_edit(alloc, text) {
        Ok(edit) => Ok(edit),
        Err(Refused::Fault(fault)) => Err(EditsFault::NotAnEdit(fault)),
        Err(Refused::OutOfMemory) => Err(EditsFault::OutOfMemory),
    }
}

fn apply(version: &mut Version, edit: &Edit) -> Result<(), EditsFault>
    requires { IsEdit edit.now }
    ensures ok { OnOk result ((apply_fault version.old edit.now ≡ None) × (version.new ≡ after_apply version.old edit.now)) }
    ensures err { OnErr result (version.new ≡ version.old) }
    ensures refused { IfErr result (RefusesEdit version.old edit.now) }
{
    match version.fault_of(edit) {
        Some(why) => return Err(EditsFault::DoesNotApply(why)),
        None => {}
    }
    match version.apply_valid(edit) {
        Ok(()) => Ok(()),
        Err(_) => Err(EditsFault::OutOfMemory),
    }
}
