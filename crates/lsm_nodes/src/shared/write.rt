//! Writes, flushes and snapshots under the lock.

ghost use Rattle.std.specs.Prelude.{◌≡◌, ◌<◌, ◌⊎◌, Err};
ghost use Rattle.lsm_coord.specs.declared.call.Call.TheVariants as call;
ghost use Rattle.lsm_nodes.specs.Answers.{flush_answer, freeze_answer, release_answer, snapshot_answer, write_answer};
ghost use Rattle.lsm_nodes.specs.Calls.{Flushes, Freezes, IsMissed, IsRecorded, ReleasesSnapshot, TakesSnapshot, Writes};
ghost use Rattle.lsm_nodes.specs.Tallies.{exchange_of};

use super::{Shared, Start, has_room, log};
use crate::answers::{
    flush_answers, freeze_answers, release_answers, snapshot_answers, write_answers, write_calls,
};
use crate::exchange::Witness;
use crate::shared::Tally;
use crate::twice::Twice;
use lsm_coord::{Call, CoordError, Flushed, SnapId};
use lsm_key::{Batch, Seq};
use lsm_vault::Vault;

impl<V: Vault, J: Start, N: Witness + Drop> Shared<V, J, N> {
    /// `Coord::write`, recorded. If there is no memory for the record, nothing is done.
    pub fn write(&mut self, batch: &Batch, tally: &mut Tally<J>) -> Result<(Seq, Seq), CoordError>
        requires { 0 < tally.old.parts }
        ensures { ((result ≡ Err CoordError.OutOfMemory) × IsMissed self.old self.new tally.old tally.new) ⊎ (IsRecorded self.old self.new tally.old tally.new (exchange_of (call.Write batch.now) (write_answer result)) × Writes self.old.coord batch.now result self.new.coord) }
    {
        let Shared {
            coord,
            history,
            book,
            alloc,
        } = self;
        let Tally { mine, share, .. } = tally;
        if !has_room(history, mine) {
            return Err(CoordError::OutOfMemory);
        }
        let Ok(calls) = write_calls(*alloc, batch) else {
            return Err(CoordError::OutOfMemory);
        };
        let before = N::of(coord.served());
        let result = coord.write(batch);
        let answers = write_answers(&result);
        log(history, mine, book, share, before, calls, answers);
        result
    }

    /// `Coord::freeze`, recorded. If there is no memory for the record, nothing is done.
    pub fn freeze(&mut self, tally: &mut Tally<J>) -> Result<Seq, CoordError>
        requires { 0 < tally.old.parts }
        ensures { ((result ≡ Err CoordError.OutOfMemory) × IsMissed self.old self.new tally.old tally.new) ⊎ (IsRecorded self.old self.new tally.old tally.new (exchange_of call.Freeze (freeze_answer result)) × Freezes self.old.coord result self.new.coord) }
    {
        let Shared {
            coord,
            history,
            book,
            alloc: _,
        } = self;
        let Tally { mine, share, .. } = tally;
        if !has_room(history, mine) {
            return Err(CoordError::OutOfMemory);
        }
        let calls = Twice::new(Call::Freeze, Call::Freeze);
        let before = N::of(coord.served());
        let result = coord.freeze();
        let answers = freeze_answers(&result);
        log(history, mine, book, share, before, calls, answers);
        result
    }

    /// `Coord::flush`, recorded. If there is no memory for the record, nothing is done.
    pub fn flush(&mut self, tally: &mut Tally<J>) -> Result<Flushed, CoordError>
        requires { 0 < tally.old.parts }
        ensures { ((result ≡ Err CoordError.OutOfMemory) × IsMissed self.old self.new tally.old tally.new) ⊎ (IsRecorded self.old self.new tally.old tally.new (exchange_of call.Flush (flush_answer result)) × Flushes self.old.coord result self.new.coord) }
    {
        let Shared {
            coord,
            history,
            book,
            alloc: _,
        } = self;
        let Tally { mine, share, .. } = tally;
        if !has_room(history, mine) {
            return Err(CoordError::OutOfMemory);
        }
        let calls = Twice::new(Call::Flush, Call::Flush);
        let before = N::of(coord.served());
        let result = coord.flush();
        let answers = flush_answers(&result);
        log(history, mine, book, share, before, calls, answers);
        result
    }

    /// `Coord::snapshot`, recorded. If there is no memory for the record, nothing is done.
    pub fn snapshot(&mut self, tally: &mut Tally<J>) -> Result<(SnapId, Seq), CoordError>
        requires { 0 < tally.old.parts }
        ensures { ((result ≡ Err CoordError.OutOfMemory) × IsMissed self.old self.new tally.old tally.new) ⊎ (IsRecorded self.old self.new tally.old tally.new (exchange_of call.Snap (snapshot_answer result)) × TakesSnapshot self.old.coord result self.new.coord) }
    {
        let Shared {
            coord,
            history,
            book,
            alloc: _,
        } = self;
        let Tally { mine, share, .. } = tally;
        if !has_room(history, mine) {
            return Err(CoordError::OutOfMemory);
        }
        let calls = Twice::new(Call::Snap, Call::Snap);
        let before = N::of(coord.served());
        let result = coord.snapshot();
        let answers = snapshot_answers(&result);
        log(history, mine, book, share, before, calls, answers);
        result
    }

    /// `Coord::release`, recorded. If there is no memory for the record, nothing is done.
    pub fn release(&mut self, id: SnapId, tally: &mut Tally<J>) -> Result<(), CoordError>
        requires { 0 < tally.old.parts }
        ensures { ((result ≡ Err CoordError.OutOfMemory) × IsMissed self.old self.new tally.old tally.new) ⊎ (IsRecorded self.old self.new tally.old tally.new (exchange_of (call.Release id) (release_answer result)) × ReleasesSnapshot self.old.coord id result self.new.coord) }
    {
        let Shared {
            coord,
            history,
            book,
            alloc: _,
        } = self;
        let Tally { mine, share, .. } = tally;
        if !has_room(history, mine) {
            return Err(CoordError::OutOfMemory);
        }
        let calls = Twice::new(Call::Release(id), Call::Release(id));
        let before = N::of(coord.served());
        let result = coord.release(id);
        let answers = release_answers(&result);
        log(history, mine, book, share, before, calls, answers);
        result
    }
}
