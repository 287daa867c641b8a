//! The names of snapshots as scripts write them: the epoch and the number, with a point between them.

ghost use Rattle.std.specs.Prelude.{◌≡◌, position};
ghost use Rattle.lsm_key.specs.Reading.{Gives};
ghost use Rattle.lsm_line.specs.Commands.{is_point, name_or_fault, snapshot_from, read_snapshot, reading_at};

use crate::fault::Reason;
use crate::number::read_number;
use lsm_coord::SnapId;
use lsm_key::Refused;

/// The snapshot that a word `E.N` names.
pub fn read_snapshot(word: &[u8]) -> Option<SnapId>
    ensures { result ≡ read_snapshot word.now }
{
    match point_in(word) {
        None => None,
        Some(point) => paired(read_number(&word[..point]), read_number(&word[point + 1..])),
    }
}

// The place of the first point.
fn point_in(word: &[u8]) -> Option<usize>
    ensures { result ≡ position is_point word.now }
{
    word.iter().position(|byte| *byte == b'.')
}

// The snapshot of an epoch and a number.
fn paired(epoch: Option<u64>, number: Option<u64>) -> Option<SnapId>
    ensures { result ≡ snapshot_from epoch number }
{
    match (epoch, number) {
        (Some(epoch), Some(number)) => Some(SnapId { epoch, number }),
        _ => None,
    }
}

/// The snapshot that a word `@E.N` names.
pub fn reading_at(word: &[u8]) -> Option<SnapId>
    ensures { result ≡ reading_at word.now }
{
    let (first, name) = word.split_first()?;
    if *first != b'@' {
        return None;
    }
    read_snapshot(name)
}

/// The snapshot that a word must name.
pub fn named(id: Option<SnapId>) -> Result<SnapId, Refused<Reason>>
    ensures { Gives (λ id. id) result (name_or_fault id) }
{
    id.ok_or(Refused::Fault(Reason::BadName))
}
