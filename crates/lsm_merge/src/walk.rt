//! What a merge keeps of the entries of cursors, one by one.

ghost use Rattle.std.specs.Prelude.{◌≡◌, ℕ, ◌≤◌, List, [], None, IfOk, MatchOption, length};
ghost use Rattle.std.specs.Borrow.{Bor};
ghost use Rattle.std.specs.Option.{option_map};
ghost use Rattle.lsm_key.specs.declared.entry.EntryRef.{EntryRef};
ghost use Rattle.lsm_key.specs.declared.limits.TheConstants.{MAX_POINTS};
ghost use Rattle.lsm_key.specs.Visible.{lent_entry};
ghost use Rattle.lsm_msg.specs.Merge.{is_in_ranges};
ghost use Rattle.lsm_merge.specs.Walks.{BeginsWalk, IsGivenFirst, IsFewer, Walks, WalksOrStops, follows};

use crate::cursor_head::{CursorHead, heads_of};
use crate::deeper::DeeperKeys;
use crate::error::MergeError;
use crate::keep::stays;
use lsm_block::{BlockEntry, Cursor};
use lsm_key::{Entry, EntryRef, Seq};
use lsm_msg::Job;
use lsm_table::Heads;
use std::alloc::{AllocError, Global};
use std::cmp::Ordering;
use std::marker::Model;

/// A walk over the entries of cursors, in order, that gives those which a job keeps. It holds no list of entries: each cursor is read
/// one entry ahead.
#[derive(Drop)]
pub struct Walk<'a> {
    heads: Heads<CursorHead<'a>>,
    before: Option<EntryRef<'a>>,
    points: &'a [Seq],
    deeper: DeeperKeys,
    refused: Option<MergeError>,
}

impl<'a> Model for Walk<'a> {
    ghost use Rattle.std.specs.Option.{option_map};
    ghost use Rattle.lsm_key.specs.Visible.{lent_entry};
    ghost use Rattle.lsm_merge.specs.Walks.{WalkValue};

    ghost Value = { WalkValue };

    ghost view = { λ w. record { heads = w.heads; before = option_map lent_entry w.before; points = w.points.now; deeper = w.deeper; refused = w.refused } };
}

impl<'a> Walk<'a> {
    /// A walk from where the cursors stand.
    pub fn new(
        alloc: Global,
        cursors: Vec<Cursor<'a>>,
        job: &'a Job,
    ) -> Result<Walk<'a>, AllocError>
        ensures begins { IfOk result (λ w. BeginsWalk cursors.entry.items w × (w.points ≡ job.now.points)) }
        ensures few { IfOk result (λ w. length w.points ≤ MAX_POINTS) }
        ensures deeper { IfOk result (λ w. (key : List ℕ) → is_in_ranges w.deeper key ≡ is_in_ranges job.now.deeper key) }
    {
        let deeper = DeeperKeys::of(alloc, job.deeper())?;
        let heads = Heads::new(alloc, heads_of(alloc, cursors)?)?;
        Ok(Walk {
            heads,
            before: None,
            points: job.points(),
            deeper,
            refused: None,
        })
    }

    /// The next entry that is kept. It shares the bytes of its table. After a refusal it is refused again.
    pub fn next(&mut self) -> Result<Option<Entry>, MergeError>
        ensures { WalksOrStops self.old result self.new }
    {
        let found = match self.step()? {
            Some(found) => found,
            None => return Ok(None),
        };
        match found.shared() {
            Ok(entry) => Ok(Some(entry)),
            Err(_) => {
                self.refused = Some(MergeError::OutOfMemory);
                Err(MergeError::OutOfMemory)
            }
        }
    }

    /// The next entry that is kept, where it lies. Allocates nothing. After a refusal it is refused again.
    pub fn step(&mut self) -> Result<Option<BlockEntry<'a>>, MergeError>
        ensures steps { Walks self.old result self.new }
        ensures fewer { IfOk result (λ e. IsFewer self.old e self.new) }
    {
        match self.refused {
            Some(why) => return Err(why),
            None => {}
        }
        while let Some(found) = take_next(&mut self.heads) {
            let entry = found.entry();
            if !may_follow(self.before.as_ref(), &entry) {
                self.refused = Some(MergeError::SameEntry);
                return Err(MergeError::SameEntry);
            }
            let keeps = stays(self.points, &self.deeper, self.before.as_ref(), &entry);
            self.before = Some(entry);
            if keeps {
                return Ok(Some(found));
            }
        }
        Ok(None)
    }
}

// Takes the first entry in order of all that the cursors have left, if there is one.
fn take_next<'a>(heads: &mut Heads<CursorHead<'a>>) -> Option<BlockEntry<'a>>
    ensures { MatchOption result ((heads.old ≡ []) × (heads.new ≡ [])) (λ e. IsGivenFirst heads.old e heads.new) }
{
    let found = heads.first()?.entry();
    heads.advance();
    Some(found)
}

// Whether an entry comes after the one before it, if there is one.
fn may_follow(before: Option<&EntryRef<'_>>, entry: &EntryRef<'_>) -> bool
    ensures { result ≡ follows (option_map (λ (b : Bor EntryRef). lent_entry b.now) before.entry) (lent_entry entry.now) }
{
    let before = match before {
        None => return true,
        Some(before) => before,
    };
    match before.key.cmp(entry.key) {
        Ordering::Less => true,
        Ordering::Greater => false,
        Ordering::Equal => entry.seq < before.seq,
    }
}
