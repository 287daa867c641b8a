//! What is kept of entries in order.

ghost use Rattle.std.specs.Prelude.{◌≡◌};
ghost use Rattle.std.specs.Borrow.{Bor};
ghost use Rattle.std.specs.Option.{option_map};
ghost use Rattle.lsm_key.specs.declared.entry.EntryRef.{EntryRef};
ghost use Rattle.lsm_key.specs.Visible.{lent_entry};
ghost use Rattle.lsm_msg.specs.Merge.{is_at_most_all, may_go};
ghost use Rattle.lsm_merge.specs.Keeping.{is_seen_alone, is_needed, stays};

use crate::deeper::DeeperKeys;
use lsm_key::{EntryRef, Kind, Seq};

// Whether an entry is kept, given the one before it.
//
// An entry is dropped if
// (A) a newer entry of its key in the inputs is visible to every read that would see it: the latest read, and each snapshot
//     at or after it.
// A deletion that survives (A) is dropped if also
// (B) no snapshot is older than it, so that no read needs it to hide an entry of the inputs: by (A) those are dropped; and
// (C) no file below the output level may have the key, so that it hides nothing there: `KnowsDeeper`, which stays true while
//     the job runs (`installs_keep_jobs`).
// It hides nothing elsewhere: older entries of the key at the two levels of the job are inputs too (`IsLegal`: `next`, `older`),
// and upper levels and memtables have newer entries only.
pub(crate) fn stays(
    points: &[Seq],
    deeper: &DeeperKeys,
    before: Option<&EntryRef<'_>>,
    entry: &EntryRef<'_>,
) -> bool
    ensures { result ≡ stays points.now deeper.now (option_map (λ (b : Bor EntryRef). lent_entry b.now) before.entry) (lent_entry entry.now) }
{
    is_needed(points, before, entry) && !may_go(points, deeper, entry)
}

// Whether some read needs it: it is the newest of its key, or a point sees it and not the newer one before it.
fn is_needed(points: &[Seq], before: Option<&EntryRef<'_>>, entry: &EntryRef<'_>) -> bool
    ensures { result ≡ is_needed points.now (option_map (λ (b : Bor EntryRef). lent_entry b.now) before.entry) (lent_entry entry.now) }
{
    match before {
        None => true,
        Some(newer) => { entry.key != newer.key || is_seen_alone(points, newer.seq, entry.seq) }
    }
}

// Whether a point sees the sequence, and not the newer one.
fn is_seen_alone(points: &[Seq], newer: Seq, seq: Seq) -> bool
    ensures { result ≡ is_seen_alone points.now newer seq }
{
    points.iter().any(|point| seq <= *point && *point < newer)
}

// Whether it is a deletion of which (B) and (C) hold.
fn may_go(points: &[Seq], deeper: &DeeperKeys, entry: &EntryRef<'_>) -> bool
    ensures { result ≡ may_go points.now deeper.now (lent_entry entry.now) }
{
    entry.kind == Kind::Delete && is_at_most_all(points, entry.seq) && !deeper.have(entry.key)
}

// Whether the sequence is at most every point.
fn is_at_most_all(points: &[Seq], seq: Seq) -> bool
    ensures { result ≡ is_at_most_all points.now seq }
{
    points.iter().all(|point| seq <= *point)
}
