//! Claims under the lock: picks, which are recorded, and what goes on beside the history.

ghost use Rattle.std.specs.Prelude.{◌≡◌, ◌<◌, ◌⊎◌, ℕ, Err, IfErr, IfOk, IfSome};
ghost use Rattle.lsm_claim.specs.Book.{settle_answer};
ghost use Rattle.lsm_coord.specs.declared.call.Call.TheVariants as call;
ghost use Rattle.lsm_coord.specs.Contract.Calls.{after_give_back};
ghost use Rattle.lsm_coord.specs.Contract.Memory.{IsFit};
ghost use Rattle.lsm_coord.specs.Contract.Serving.{Serves, TakesMemory, answer_message};
ghost use Rattle.lsm_coord.specs.Contract.Shows.{Follows, Shows};
ghost use Rattle.lsm_coord.specs.Contract.Sound.{KeepsSound};
ghost use Rattle.lsm_coord.specs.Model.Changes.{IsIndex};
ghost use Rattle.lsm_coord.specs.Model.Event.{Deliver, GiveUp, Other};
ghost use Rattle.lsm_coord.specs.Model.State.{State};
ghost use Rattle.lsm_msg.specs.Messages.{IsMessage};
ghost use Rattle.lsm_nodes.specs.Answers.{pick_answer};
ghost use Rattle.lsm_nodes.specs.Calls.{IsMissed, IsRecorded, PicksJob};
ghost use Rattle.lsm_nodes.specs.Tallies.{exchange_of};

use super::{Shared, Start, has_room, log};
use crate::answers::{picked_answers, refused};
use crate::exchange::Witness;
use crate::shared::Tally;
use crate::twice::Twice;
use lsm_claim::{Claim, Settled};
use lsm_coord::{Answer, Call, Coord, CoordError};
use lsm_msg::{Job, Message};
use lsm_vault::Vault;
use std::alloc::{AllocError, Global};

impl<V: Vault, J: Start, N: Witness + Drop> Shared<V, J, N> {
    /// `Coord::pick`, recorded. If there is no memory for the record, nothing is done. If there is none for a copy of the job, its
    /// claim is given back, and the number of the claim is used.
    pub fn pick(&mut self, tally: &mut Tally<J>) -> Result<Option<(Claim, Job)>, CoordError>
        requires { 0 < tally.old.parts }
        ensures { ((result ≡ Err CoordError.OutOfMemory) × IsMissed self.old self.new tally.old tally.new) ⊎ (IsRecorded self.old self.new tally.old tally.new (exchange_of call.Pick (pick_answer result)) × PicksJob self.old.coord result self.new.coord) }
    {
        let Shared {
            coord,
            history,
            book,
            alloc,
        } = self;
        let Tally { mine, share, .. } = tally;
        if !has_room(history, mine) {
            return Err(CoordError::OutOfMemory);
        }
        let calls = Twice::new(Call::Pick, Call::Pick);
        let before = N::of(coord.served());
        let (result, answers) = picked(*alloc, coord);
        log(history, mine, book, share, before, calls, answers);
        result
    }

    /// `Coord::give_back`. It is not recorded.
    pub fn give_back(&mut self, claim: Claim) -> Settled
        ensures history { self.new.history ≡ self.old.history }
        ensures coord { self.new.coord ≡ after_give_back self.old.coord claim.id }
        ensures answer { result ≡ settle_answer self.old.coord.book claim.id }
        ensures step { (dispatcher : ℕ) → IsIndex dispatcher → Follows self.old.coord (GiveUp dispatcher) Other self.new.coord }
        ensures sound { KeepsSound self.old.coord self.new.coord }
    {
        let Shared {
            coord,
            history: _,
            book: _,
            alloc: _,
        } = self;
        coord.give_back(claim)
    }

    /// `Coord::serve`. It is not recorded.
    pub fn serve(&self, message: &Message) -> Result<Option<Message>, AllocError>
        ensures step { (number : ℕ) → Follows self.now.coord (Deliver number) Other self.now.coord }
        ensures ok { IfOk result (λ answer. answer ≡ answer_message self.now.coord message.now message.now.body) }
        ensures listed { IfOk result (λ answer. (s : State) → Shows self.now.coord s → Serves s message.now.body answer) }
        ensures err { IfErr result (λ e. TakesMemory self.now.coord message.now.body) }
        ensures sound { IsMessage message.now → IfOk result (λ answer. IfSome answer IsMessage) }
        ensures fit { IsFit self.now.coord }
    {
        // Proof hint: what the coordinator keeps.
        let _history = self.history();
        self.coord.serve(message)
    }
}

// A pick with its answer. If the job can't be copied for the answer, its claim is given back.
fn picked<V: Vault>(
    alloc: Global,
    coord: &mut Coord<V>,
) -> (Result<Option<(Claim, Job)>, CoordError>, Twice<Answer>)
    ensures answer { result.1 ≡ pick_answer result.0 }
    ensures does { PicksJob coord.old result.0 coord.new }
{
    match coord.pick() {
        Ok(None) => (Ok(None), Twice::new(Answer::Idle, Answer::Idle)),
        Err(why) => (Err(why), refused(why)),
        Ok(Some((claim, job))) => match picked_answers(alloc, &job) {
            Ok(answers) => (Ok(Some((claim, job))), answers),
            Err(_) => {
                coord.give_back(claim);
                (
                    Err(CoordError::OutOfMemory),
                    refused(CoordError::OutOfMemory),
                )
            }
        },
    }
}
