//! Reads under the lock, and trims. If an answer can't be copied for the records, the call is refused, and recorded so.

ghost use Rattle.std.specs.Prelude.{◌≡◌, ◌<◌, ◌⊎◌, Err};
ghost use Rattle.lsm_coord.specs.declared.call.Call.TheVariants as call;
ghost use Rattle.lsm_nodes.specs.Answers.{get_answer, scan_answer, show_answer, trim_answer};
ghost use Rattle.lsm_nodes.specs.Calls.{Gets, IsMissed, IsRecorded, ScansKeys, ShowsVersion, Trims};
ghost use Rattle.lsm_nodes.specs.Tallies.{exchange_of};

use super::{Shared, Start, has_room, log};
use crate::answers::{
    get_answers, get_calls, or_memory, scan_answers, scan_calls, show_answers, trim_answers,
};
use crate::exchange::Witness;
use crate::shared::Tally;
use crate::twice::Twice;
use bytes::Bytes;
use lsm_coord::{Call, Coord, CoordError, ShownVersion, SnapId};
use lsm_key::{FileNumber, Items, VersionNumber};
use lsm_vault::Vault;
use std::alloc::Global;

impl<V: Vault, J: Start, N: Witness + Drop> Shared<V, J, N> {
    /// `Coord::get`, recorded. If there is no memory for the record, nothing is done.
    pub fn get(
        &mut self,
        key: &[u8],
        at: Option<SnapId>,
        tally: &mut Tally<J>,
    ) -> Result<Option<Bytes>, CoordError>
        requires { 0 < tally.old.parts }
        ensures { ((result ≡ Err CoordError.OutOfMemory) × IsMissed self.old self.new tally.old tally.new) ⊎ (IsRecorded self.old self.new tally.old tally.new (exchange_of (call.Get key.now at) (get_answer result)) × Gets self.old.coord key.now at result self.new.coord) }
    {
        let Shared {
            coord,
            history,
            book,
            alloc,
        } = self;
        let Tally { mine, share, .. } = tally;
        if !has_room(history, mine) {
            return Err(CoordError::OutOfMemory);
        }
        let Ok(calls) = get_calls(*alloc, key, at) else {
            return Err(CoordError::OutOfMemory);
        };
        let before = N::of(coord.served());
        let outcome = coord.get(key, at);
        let copied = get_answers(*alloc, &outcome);
        let (result, answers) = or_memory(outcome, copied);
        log(history, mine, book, share, before, calls, answers);
        result
    }

    /// `Coord::scan`, recorded. If there is no memory for the record, nothing is done.
    pub fn scan(
        &mut self,
        lo: &[u8],
        hi: &[u8],
        at: Option<SnapId>,
        limit: u64,
        tally: &mut Tally<J>,
    ) -> Result<Vec<(Bytes, Bytes)>, CoordError>
        requires { 0 < tally.old.parts }
        ensures { ((result ≡ Err CoordError.OutOfMemory) × IsMissed self.old self.new tally.old tally.new) ⊎ (IsRecorded self.old self.new tally.old tally.new (exchange_of (call.Scan (record { lo = lo.now; hi = hi.now; at = at; limit = limit })) (scan_answer result)) × ScansKeys self.old.coord lo.now hi.now at limit result self.new.coord) }
    {
        let Shared {
            coord,
            history,
            book,
            alloc,
        } = self;
        let Tally { mine, share, .. } = tally;
        if !has_room(history, mine) {
            return Err(CoordError::OutOfMemory);
        }
        let Ok(calls) = scan_calls(*alloc, lo, hi, at, limit) else {
            return Err(CoordError::OutOfMemory);
        };
        let before = N::of(coord.served());
        let outcome = coord.scan(lo, hi, at, limit);
        let copied = scan_answers(*alloc, &outcome);
        let (result, answers) = or_memory(outcome, copied);
        log(history, mine, book, share, before, calls, answers);
        result
    }

    /// `Coord::show`, as a copy, recorded. If there is no memory for the record, nothing is done.
    pub fn show(&mut self, tally: &mut Tally<J>) -> Result<ShownVersion, CoordError>
        requires { 0 < tally.old.parts }
        ensures { ((result ≡ Err CoordError.OutOfMemory) × IsMissed self.old self.new tally.old tally.new) ⊎ (IsRecorded self.old self.new tally.old tally.new (exchange_of call.Show (show_answer result)) × ShowsVersion self.old.coord result self.new.coord) }
    {
        let Shared {
            coord,
            history,
            book,
            alloc,
        } = self;
        let Tally { mine, share, .. } = tally;
        if !has_room(history, mine) {
            return Err(CoordError::OutOfMemory);
        }
        let calls = Twice::new(Call::Show, Call::Show);
        let before = N::of(coord.served());
        let outcome = shown(*alloc, coord);
        let copied = show_answers(*alloc, &outcome);
        let (result, answers) = or_memory(outcome, copied);
        log(history, mine, book, share, before, calls, answers);
        result
    }

    /// `Coord::trim`, recorded. If there is no memory for the record, nothing is done; if there is none for a copy of the
    /// answer, what was trimmed stays so.
    pub fn trim(
        &mut self,
        to: VersionNumber,
        tally: &mut Tally<J>,
    ) -> Result<(VersionNumber, Items<FileNumber>), CoordError>
        requires { 0 < tally.old.parts }
        ensures { ((result ≡ Err CoordError.OutOfMemory) × IsMissed self.old self.new tally.old tally.new) ⊎ (IsRecorded self.old self.new tally.old tally.new (exchange_of (call.Trim to) (trim_answer result)) × Trims self.old.coord to result self.new.coord) }
    {
        let Shared {
            coord,
            history,
            book,
            alloc,
        } = self;
        let Tally { mine, share, .. } = tally;
        if !has_room(history, mine) {
            return Err(CoordError::OutOfMemory);
        }
        let calls = Twice::new(Call::Trim(to), Call::Trim(to));
        let before = N::of(coord.served());
        let outcome = coord.trim(to);
        let copied = trim_answers(*alloc, &outcome);
        let (result, answers) = or_memory(outcome, copied);
        log(history, mine, book, share, before, calls, answers);
        result
    }
}

// A copy of the coordinator's listing.
fn shown<V: Vault>(alloc: Global, coord: &Coord<V>) -> Result<ShownVersion, CoordError>
    ensures { ShowsVersion coord.now result coord.now }
{
    Ok(ShownVersion::of(alloc, coord.show())?)
}
