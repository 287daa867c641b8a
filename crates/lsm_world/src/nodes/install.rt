//! Results that reach their dispatcher, and are installed under the claim that it holds.

ghost use Rattle.std.specs.Prelude.{◌≡◌, ◌⊎◌, ℕ};
ghost use Rattle.lsm_coord.specs.declared.dispatcher.Dispatcher.TheVariants.{Idle};
ghost use Rattle.lsm_coord.specs.Contract.Desks.{dispatcher_of};
ghost use Rattle.lsm_coord.specs.Model.Event as say;
ghost use Rattle.lsm_world.specs.Asks.Dispatchers.{TakesResult, dispatcher_reply};
ghost use Rattle.lsm_world.specs.Memory.{LacksMemory};
ghost use Rattle.lsm_world.specs.History.{History, IsHistory, IsResultOf};
ghost use Rattle.lsm_world.specs.Inner.Handing.{desk_settled};
ghost use Rattle.lsm_world.specs.Replies.{reply_of};
ghost use Rattle.lsm_world.specs.Nodes.{up_store};
ghost use Rattle.lsm_world.specs.Schedules.{IsPlain};
ghost use Rattle.lsm_world.specs.Shown.{FollowsStore};

use super::Nodes;
use crate::coordinator::know_fit;
use crate::refusal::Refusal;
use crate::reply::Reply;
use lsm_coord::{Desk, Install};
use lsm_msg::{JobResult, NodeIndex};
use lsm_vault::Vault;

impl<V: Vault> Nodes<V> {
    // Installs a result under the claim that a dispatcher holds, if it is of that claim's job.
    pub(super) fn install(&mut self, dispatcher: NodeIndex, made: &JobResult) -> Reply
        requires known { (h : History) → IsHistory h self.old → IsResultOf h made.now }
        ensures asks { LacksMemory self.old result self.new ⊎ TakesResult self.old dispatcher made.now result self.new }
        ensures follows { (number : ℕ) → FollowsStore (up_store self.old) (say.Deliver number) (reply_of result) (up_store self.new) }
        ensures plain { IsPlain result }
    {
        if self.desk.dispatcher(dispatcher).id() != Some(made.job) {
            return Reply::Refused(Refusal::NoClaim);
        }
        let Some(claim) = self.desk.take(dispatcher) else {
            unreachable!()
        };
        know_fit(&self.coord);
        let became = self.coord.install(claim, made);
        know_fit(&self.coord);
        settle(&mut self.desk, dispatcher, became)
    }
}

// The reply to an install. A claim that is handed back is held again.
fn settle(desk: &mut Desk, dispatcher: NodeIndex, became: Install) -> Reply
    requires { dispatcher_of desk.old dispatcher ≡ Idle }
    ensures reply { result ≡ dispatcher_reply became }
    ensures desk { desk.new ≡ desk_settled desk.old dispatcher became }
{
    match became {
        Install::Done(number, files) => Reply::Installed(number, files),
        Install::Stale(_, _) => Reply::Refused(Refusal::OldEpoch),
        Install::Kept(claim, why) => {
            match desk.hold(dispatcher, claim) {
                None => {}
                Some(_before) => unreachable!(),
            }
            Reply::Refused(Refusal::Coord(why.into()))
        }
    }
}
