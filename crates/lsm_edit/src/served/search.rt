//! Searching a version: the files whose ranges cover a key, in search order.

ghost use Rattle.std.specs.Prelude.{◌≡◌, ◌+◌, ◌≤◌, ◌<◌, length, IfSome, IfNone};
ghost use Rattle.std.specs.List.{AllWithin};
ghost use Rattle.std.specs.Option.{option_map};
ghost use Rattle.lsm_key.specs.Sets.{IsIn};
ghost use Rattle.lsm_key.specs.Visible.{lent_entry};
ghost use Rattle.lsm_key.specs.Places.{first_visible};
ghost use Rattle.lsm_edit.specs.declared.served.Placed.{Placed};
ghost use Rattle.lsm_edit.specs.Search.{GoesOn, IsNext, IsUpper, Misses, UpperMiss};
ghost use Rattle.lsm_edit.specs.Served.{AllRecorded, AreInSearchOrder, is_covered, tables_of};

use super::{Placed, Served, place_in};
use crate::FileMeta;
use lsm_key::{EntryRef, MAX_LEVEL, Seq};

impl Served {
    /// The place of the next file in search order whose range covers the key: a search begins at 0, and goes on right after the
    /// place that it found. Of each level below 0 at most one file covers it. O(log n) comparisons a level, no allocation.
    pub fn search(&self, key: &[u8], from: usize) -> Option<usize>
        requires { GoesOn self.now.places key.now from }
        ensures within { IfSome result (λ place. place < length self.now.places) }
        ensures found { IfSome result (IsNext self.now.places key.now from) }
        ensures none { IfNone result (AllWithin (Misses key.now) self.now.places from (length self.now.places)) }
    {
        next_in(self.places(), key, from)
    }
}

// The match in the first file that has one: of those whose ranges cover the key.
pub(super) fn first_in<'a>(places: &'a [Placed], key: &[u8], at: Seq) -> Option<EntryRef<'a>>
    requires recorded { AllRecorded places.now }
    requires ordered { AreInSearchOrder places.now }
    requires levels { (p : Placed) → IsIn p places.now → p.meta.level ≤ MAX_LEVEL }
    ensures { option_map lent_entry result ≡ first_visible (tables_of places.now) key.now at }
{
    let mut from = 0;
    loop {
        let place = match next_in(places, key, from) {
            Some(place) => place,
            None => return None,
        };
        match places[place].table.get(key, at) {
            Some(entry) => return Some(entry),
            None => {}
        }
        from = place + 1;
    }
}

// The place of the next file whose range covers the key: level 0 is searched file by file.
fn next_in(places: &[Placed], key: &[u8], from: usize) -> Option<usize>
    requires recorded { AllRecorded places.now }
    requires ordered { AreInSearchOrder places.now }
    requires levels { (p : Placed) → IsIn p places.now → p.meta.level ≤ MAX_LEVEL }
    requires goes_on { GoesOn places.now key.now from }
    ensures within { IfSome result (λ place. place < length places.now) }
    ensures found { IfSome result (IsNext places.now key.now from) }
    ensures none { IfNone result (AllWithin (Misses key.now) places.now from (length places.now)) }
{
    if from > 0 {
        let last = &places[from - 1];
        if last.meta.level > 0 {
            // No other file of its level covers the key.
            return in_deeper_levels(places, key, from, last.meta.level + 1);
        }
    }
    match in_level_zero(places, key, from) {
        Some(place) => Some(place),
        None => in_deeper_levels(places, key, from, 1),
    }
}

// The place of the next file of level 0 whose range covers the key.
fn in_level_zero(places: &[Placed], key: &[u8], from: usize) -> Option<usize>
    requires ordered { AreInSearchOrder places.now }
    requires within { from ≤ length places.now }
    ensures found { IfSome result (IsNext places.now key.now from) }
    ensures none { IfNone result (UpperMiss places.now key.now from 1) }
{
    let mut place = from;
    while place < places.len() {
        let placed = &places[place];
        if placed.meta.level > 0 {
            return None;
        }
        if covers(&placed.meta, key) {
            return Some(place);
        }
        place += 1;
    }
    None
}

// The place of the next file of this level or a deeper one whose range covers the key, if no file of an upper level from a place
// on does, and each before the place is of an upper one.
fn in_deeper_levels(places: &[Placed], key: &[u8], from: usize, first: u8) -> Option<usize>
    requires recorded { AllRecorded places.now }
    requires ordered { AreInSearchOrder places.now }
    requires levels { (p : Placed) → IsIn p places.now → p.meta.level ≤ MAX_LEVEL }
    requires deeper { 1 ≤ first }
    requires before { AllWithin (IsUpper first) places.now 0 from }
    requires done { UpperMiss places.now key.now from first }
    ensures found { IfSome result (IsNext places.now key.now from) }
    ensures none { IfNone result (AllWithin (Misses key.now) places.now from (length places.now)) }
{
    for level in first..deepest_level(places) + 1 {
        match in_level(places, key, from, level) {
            Some(place) => return Some(place),
            None => {}
        }
    }
    None
}

/// The deepest level that has a file, or 0.
pub(super) fn deepest_level(places: &[Placed]) -> u8
    requires ordered { AreInSearchOrder places.now }
    requires levels { (p : Placed) → IsIn p places.now → p.meta.level ≤ MAX_LEVEL }
    ensures deepest { (p : Placed) → IsIn p places.now → p.meta.level ≤ result }
    ensures small { result ≤ MAX_LEVEL }
{
    if places.is_empty() {
        return 0;
    }
    places[places.len() - 1].meta.level
}

// The place of the one file of a deeper level whose range covers the key.
fn in_level(places: &[Placed], key: &[u8], from: usize, level: u8) -> Option<usize>
    requires recorded { AllRecorded places.now }
    requires ordered { AreInSearchOrder places.now }
    requires deeper { 1 ≤ level }
    requires before { AllWithin (IsUpper level) places.now 0 from }
    requires done { UpperMiss places.now key.now from level }
    ensures found { IfSome result (IsNext places.now key.now from) }
    ensures none { IfNone result (UpperMiss places.now key.now from (level + 1)) }
{
    let place = place_in(places, level, key);
    if place >= places.len() {
        return None;
    }
    let placed = &places[place];
    if placed.meta.level != level {
        return None;
    }
    if !covers(&placed.meta, key) {
        return None;
    }
    Some(place)
}

// Whether the key is in the file's range.
fn covers(meta: &FileMeta, key: &[u8]) -> bool
    ensures { result ≡ is_covered meta.now key.now }
{
    meta.range().contains(key)
}
