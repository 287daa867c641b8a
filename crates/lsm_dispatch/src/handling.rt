//! What the workers of a coordinator are given, and what is done with what comes from them.

ghost use Rattle.std.specs.Prelude.{◌≡◌, ℕ, List, [], true, IfErr, IfOk, IfSome, OnErr, OnOk};
ghost use Rattle.lsm_msg.specs.declared.message.Body.TheVariants as body;
ghost use Rattle.lsm_msg.specs.Messages.{IsMessage};
ghost use Rattle.lsm_coord.specs.Contract.Serving.{answer_message};
ghost use Rattle.lsm_store.specs.Store.{Keeps};
ghost use Rattle.lsm_dispatch.specs.declared.crew.WorkerState.TheVariants as state;
ghost use Rattle.lsm_dispatch.specs.Crews.{CrewHolds, IsBusyWith, after_all_leave, after_leaving, has_busy, state_of, with_state};
ghost use Rattle.lsm_dispatch.specs.Dispatching.{CrewRefuses, CrewTakes, HandlesMessage, HandlingRefuses, HandsOut, InstallsInOrder, JobRefuses, TakenResult};

use crate::crew::{Crew, WorkerState};
use crate::install::take_result;
use lsm_coord::{Coord, CoordError};
use lsm_msg::{Body, JobResult, Message, Node, NodeIndex};
use lsm_vault::Vault;

impl Crew {
    /// Picks a job for a worker, if it is idle and a compaction is due, and returns the message that takes it there. Each level goes on
    /// after the files that were handed out last. A compaction that exceeds a job size limit is not due for a worker.
    pub fn hand_out<V: Vault>(
        &mut self,
        coord: &mut Coord<V>,
        index: NodeIndex,
    ) -> Result<Option<Message>, CoordError>
        ensures ok { IfOk result (HandsOut self.old coord.old index self.new coord.new) }
        ensures busy { IfOk result (λ sent. IfSome sent (λ m. has_busy self.new ≡ true)) }
        ensures err { OnErr result ((self.new ≡ self.old) × (coord.new ≡ coord.old)) }
        ensures refused { IfErr result (λ e. (state_of self.old index ≡ state.Idle) × JobRefuses coord.old e) }
        ensures sound { IfOk result (λ sent. IfSome sent IsMessage) }
        ensures held { CrewHolds coord.old.book self.old → CrewHolds coord.new.book self.new }
        ensures keeps { Keeps coord.old coord.new }
    {
        if !self.state(index).is_idle() {
            return Ok(None);
        }
        match coord.pick_after(Some(self.pointers())) {
            Ok(Some((claim, job))) => {
                self.set_state(coord, index, WorkerState::Busy(claim));
                // Before the result comes, so that the next worker gets what comes after it.
                self.follow(&job);
                Ok(Some(Message::to_worker(index, job)))
            }
            Ok(None) => Ok(None),
            Err(CoordError::TooWide) => Ok(None),
            Err(why) => Err(why),
        }
    }

    /// Takes a message, and returns what is answered. A question is answered, whoever asks it. A result counts only if it comes from the
    /// worker that has its job: it is installed, and the tables that it replaced are let go. A worker whose result is refused as none of its
    /// job takes no more jobs. Anything else is ignored.
    pub fn on_message<V: Vault>(
        &mut self,
        coord: &mut Coord<V>,
        message: &Message,
    ) -> Result<Option<Message>, CoordError>
        ensures acts { OnOk result (HandlesMessage self.old coord.old message.now.src message.now.body self.new coord.new) }
        ensures answered { IfOk result (λ answer. answer ≡ answer_message coord.old message.now message.now.body) }
        ensures refused { IfErr result (λ e. HandlingRefuses self.old coord.old message.now.src message.now.body e self.new coord.new) }
        ensures sound { IsMessage message.now → IfOk result (λ answer. IfSome answer IsMessage) }
        ensures held { CrewHolds coord.old.book self.old → CrewHolds coord.new.book self.new }
        ensures passes { (results : List TakenResult) × InstallsInOrder coord.old results coord.new }
    {
        match &message.body {
            Body::Result(made) => {
                self.on_result_from(coord, message.src, made)?;
                Ok(None)
            }
            _ => Ok(coord.serve(message)?),
        }
    }

    // A result counts only from a worker.
    fn on_result_from<V: Vault>(
        &mut self,
        coord: &mut Coord<V>,
        src: Node,
        made: &JobResult,
    ) -> Result<(), CoordError>
        ensures acts { OnOk result (HandlesMessage self.old coord.old src (body.Result made.now) self.new coord.new) }
        ensures refused { IfErr result (λ e. HandlingRefuses self.old coord.old src (body.Result made.now) e self.new coord.new) }
        ensures held { CrewHolds coord.old.book self.old → CrewHolds coord.new.book self.new }
        ensures passes { (results : List TakenResult) × InstallsInOrder coord.old results coord.new }
    {
        match src {
            Node::Worker(index) => self.on_result(coord, index, made),
            _ => Ok(()),
        }
    }

    fn on_result<V: Vault>(
        &mut self,
        coord: &mut Coord<V>,
        index: NodeIndex,
        made: &JobResult,
    ) -> Result<(), CoordError>
        ensures taken { IsBusyWith (state_of self.old index) made.now.job → OnOk result (CrewTakes self.old coord.old index made.now self.new coord.new) }
        ensures late { (IsBusyWith (state_of self.old index) made.now.job → ⊥) → (self.new ≡ self.old) × (coord.new ≡ coord.old) }
        ensures refused { IfErr result (λ e. CrewRefuses self.old coord.old index made.now e self.new coord.new) }
        ensures held { CrewHolds coord.old.book self.old → CrewHolds coord.new.book self.new }
        ensures passes { (results : List TakenResult) × InstallsInOrder coord.old results coord.new }
    {
        if !self.state(index).has_job(made.job) {
            return Ok(());
        }
        let Some(claim) = self.replace(index, WorkerState::Idle).into_claim() else {
            return Ok(());
        };
        if !take_result(coord, claim, made)? {
            self.leave(coord, index);
        }
        Ok(())
    }

    /// A worker is gone: its claim is given back, and it takes no more jobs.
    pub fn leave<V: Vault>(&mut self, coord: &mut Coord<V>, index: NodeIndex)
        ensures gone { self.new ≡ with_state self.old index state.Gone }
        ensures returned { coord.new ≡ after_leaving coord.old (state_of self.old index) }
        ensures held { CrewHolds coord.old.book self.old → CrewHolds coord.new.book self.new }
        ensures keeps { Keeps coord.old coord.new }
    {
        self.set_state(coord, index, WorkerState::Gone);
    }

    /// A worker is there, and has no job: a claim that it had is given back.
    pub fn come<V: Vault>(&mut self, coord: &mut Coord<V>, index: NodeIndex)
        ensures there { self.new ≡ with_state self.old index state.Idle }
        ensures returned { coord.new ≡ after_leaving coord.old (state_of self.old index) }
        ensures held { CrewHolds coord.old.book self.old → CrewHolds coord.new.book self.new }
        ensures keeps { Keeps coord.old coord.new }
    {
        self.set_state(coord, index, WorkerState::Idle);
    }

    // Puts a worker into another state: a claim that it had is given back.
    #[tactic(auto, using(crate::proofs::KeptSteps::left_keeps))]
    fn set_state<V: Vault>(&mut self, coord: &mut Coord<V>, index: NodeIndex, state: WorkerState)
        ensures set { self.new ≡ with_state self.old index state }
        ensures now { state_of self.new index ≡ state }
        ensures returned { coord.new ≡ after_leaving coord.old (state_of self.old index) }
        ensures held { CrewHolds coord.old.book self.old → CrewHolds coord.new.book self.new }
        ensures keeps { Keeps coord.old coord.new }
    {
        let before = self.replace(index, state);
        settle(coord, before);
    }

    /// Gives each claim back, from the first worker on. If the workers had all claims that were live, none is live. Allocates nothing.
    pub fn close<V: Vault>(self, coord: &mut Coord<V>)
        ensures none { CrewHolds coord.old.book self → coord.new.book.live ≡ [] }
        ensures returned { coord.new ≡ after_all_leave coord.old self }
        ensures keeps { Keeps coord.old coord.new }
    {
        let (first, second, third, fourth) = self.into_states();
        settle(coord, first);
        settle(coord, second);
        settle(coord, third);
        settle(coord, fourth);
    }
}

// Gives back the claim of a state that is left.
fn settle<V: Vault>(coord: &mut Coord<V>, before: WorkerState)
    ensures { coord.new ≡ after_leaving coord.old before }
{
    match before {
        WorkerState::Gone => {}
        WorkerState::Idle => {}
        WorkerState::Busy(claim) => {
            coord.give_back(claim);
        }
    }
}
