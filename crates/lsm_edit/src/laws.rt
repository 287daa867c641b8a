//! What edits that apply in turn keep, some that are written out, and what damaged bytes are told as. The functions do
//! nothing: each is the proof of its contract.

ghost use Rattle.std.specs.Prelude.{◌≡◌, ◌≢◌, ℕ, ◌<◌, List, length, take, slice_index, IfOk, Err};
ghost use Rattle.lsm_edit.specs.declared.edit.Edit.{Edit};
ghost use Rattle.lsm_edit.specs.declared.format.FormatFault.TheVariants.{Truncated};
ghost use Rattle.lsm_edit.specs.Edit.{IsSpelledEdit, read_edit};
ghost use Rattle.lsm_edit.specs.Base.{IsSpelledBase, read_base};
ghost use Rattle.lsm_edit.specs.Version.{VersionValue};
ghost use Rattle.lsm_edit.specs.Laws.{AGivenNumberDoesNot, AMergeApplies, ANumberNamesOneFile, ASecondRemovalDoesNot, NoFileIsRemovedTwice};

mod log;

pub use log::{
    a_beginning_of_a_log_record_is_truncated, a_change_is_refused_or_another_log_record,
    a_log_holds_what_a_store_has, a_log_is_good_or_bad, worked_logs,
};

/// Of edits that apply in turn no two remove one file.
pub fn no_file_is_removed_twice()
    ensures { NoFileIsRemovedTwice }
{}

/// Along edits that apply in turn a number names one file: its record is the same in every version that lists it.
pub fn a_number_names_one_file()
    ensures { ANumberNamesOneFile }
{}

/// After an opening and a flush a merge applies, whose output takes the place of the flushed file. After that no edit applies
/// that removes the file again, and none that gives its number to another.
pub fn worked_edits()
    ensures merge { AMergeApplies }
    ensures removed { ASecondRemovalDoesNot }
    ensures given { AGivenNumberDoesNot }
{}

/// A proper beginning of an edit is refused as truncated.
pub fn a_beginning_of_an_edit_is_truncated()
    ensures { (bytes : List ℕ) (e : Edit) (n : ℕ) → IsSpelledEdit bytes e → n < length bytes → read_edit (take n bytes) ≡ Err Truncated }
{}

/// Bytes other than those of an edit, such as those with a byte changed, are refused with a named fault, or are the one encoding of another
/// edit.
pub fn a_change_is_refused_or_another_edit()
    ensures { (bytes changed : List ℕ) (e : Edit) → IsSpelledEdit bytes e → ((i : ℕ) → slice_index changed i < 256) → changed ≢ bytes
        → IfOk (read_edit changed) (λ other. IsSpelledEdit changed other × (other ≢ e)) }
{}

/// A proper beginning of a base is refused as truncated.
pub fn a_beginning_of_a_base_is_truncated()
    ensures { (bytes : List ℕ) (v : VersionValue) (n : ℕ) → IsSpelledBase bytes v → n < length bytes → read_base (take n bytes) ≡ Err Truncated }
{}

/// Bytes other than those of a base, such as those with a byte changed, are refused with a named fault, or are the one encoding of another
/// base.
pub fn a_change_is_refused_or_another_base()
    ensures { (bytes changed : List ℕ) (v : VersionValue) → IsSpelledBase bytes v → ((i : ℕ) → slice_index changed i < 256) → changed ≢ bytes
        → IfOk (read_base changed) (λ other. IsSpelledBase changed other × (other ≢ v)) }
{}
