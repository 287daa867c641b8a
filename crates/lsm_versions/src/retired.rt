//! Retired files: those that a version from the floor on lists and the current one lacks.

ghost use Rattle.std.specs.Prelude.{◌≡◌, ◌+◌, ◌≤◌, IfOk, IfSome, length, vec_capacity};
ghost use Rattle.std.specs.Option.{option_copied};
ghost use Rattle.lsm_key.specs.Sets.{IsIn};
ghost use Rattle.lsm_edit.specs.Edit.{IsEdit};
ghost use Rattle.lsm_versions.specs.declared.retired.Retired.{Retired};
ghost use Rattle.lsm_versions.specs.Retention.{NumbersRise, put_each, retire, retired_at, retired_by};

use bytes::Bytes;
use lsm_edit::{Edit, Placed, Served, is_among, removed_by};
use lsm_key::{FileNumber, VersionNumber};
use std::alloc::{AllocError, Global};

/// A file that the current version lacks, and its table.
#[derive(Debug, Drop)]
pub struct Retired {
    pub number: FileNumber,
    /// The table.
    pub bytes: Bytes,
    /// The last version that lists the file.
    pub until: VersionNumber,
}

/// The files that an edit removes from a version, with their tables, whose bytes they share.
pub(crate) fn retired_by(
    alloc: Global,
    served: &Served,
    edit: &Edit,
) -> Result<Vec<Retired>, AllocError>
    requires { IsEdit edit.now }
    ensures { IfOk result (λ retired. retired.items ≡ retired_by served.now edit.now.removed) }
{
    let until = VersionNumber::new(served.version().number());
    let removed = removed_by(edit);
    let mut retired = Vec::with_capacity(alloc, removed.len())?;
    for placed in served.places() {
        if !is_among(removed, placed.meta.number) {
            continue;
        }
        retired.push(retire(placed, until)?)?;
    }
    Ok(retired)
}

// A file that this version is the last to list.
fn retire(placed: &Placed, until: VersionNumber) -> Result<Retired, AllocError>
    ensures { IfOk result (λ retired. retired ≡ retire until placed.now) }
{
    let bytes = placed.table.bytes().clone()?;
    Ok(Retired {
        number: FileNumber::new(placed.meta.number),
        bytes,
        until,
    })
}

/// Adds retired files to others, which have room for them, by number. No two have one number.
pub(crate) fn put_retired(retired: &mut Vec<Retired>, more: Vec<Retired>)
    requires room { length retired.old.items + length more.items ≤ vec_capacity retired.old }
    requires rising { NumbersRise (put_each more.items retired.old.items) }
    ensures { retired.new.items ≡ put_each more.items retired.old.items }
{
    let mut more = more;
    retired.append(&mut more).unwrap();
    retired.sort_unstable_by_key(|file| file.number.number());
}

/// The table of a retired file: it is that of one of them.
pub(crate) fn retired_bytes(retired: &[Retired], number: u64) -> Option<&Bytes>
    requires { NumbersRise retired.now }
    ensures bytes { option_copied result ≡ retired_at retired.now number }
    ensures listed { IfSome result (λ bytes. (r : Retired) × IsIn r retired.now × (r.bytes ≡ bytes.now)) }
{
    match retired.binary_search_by_key(&number, |file| file.number.number()) {
        Ok(at) => Some(&retired[at].bytes),
        Err(_) => None,
    }
}
