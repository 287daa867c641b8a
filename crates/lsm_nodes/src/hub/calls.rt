//! Calls under the lock: each locks once.

ghost use Rattle.std.specs.Prelude.{◌≡◌, ◌+◌, ◌<◌, ◌^◌, Err, IfErr, IfOk, IfSome};
ghost use Rattle.lsm_coord.specs.declared.call.Call.TheVariants as call;
ghost use Rattle.lsm_coord.specs.Contract.Memory.{IsFit};
ghost use Rattle.lsm_coord.specs.Contract.Serving.{TakesMemory, answer_message};
ghost use Rattle.lsm_coord.specs.Contract.Value.{CoordValue};
ghost use Rattle.lsm_msg.specs.Messages.{IsMessage};
ghost use Rattle.lsm_nodes.specs.Answers.{flush_answer, freeze_answer, get_answer, install_answer, pick_answer, release_answer, scan_answer, show_answer, snapshot_answer, trim_answer, write_answer};
ghost use Rattle.lsm_nodes.specs.Tallies.{MayRecord, exchange_of};

use super::Hub;
use crate::exchange::Witness;
use crate::shared::{Start, Tally};
use bytes::Bytes;
use lsm_claim::{Claim, Settled};
use lsm_coord::{CoordError, Flushed, Install, InstallError, ShownVersion, SnapId};
use lsm_key::{Batch, FileNumber, Items, Seq, VersionNumber};
use lsm_msg::{Job, JobResult, Message};
use lsm_vault::Vault;
use std::alloc::AllocError;
use std::sync::Wait;

impl<V: Vault, J: Start, N: Witness + Drop> Hub<V, J, N> {
    /// `Shared::write`, under the lock.
    pub fn write<R: Wait>(
        &self,
        rt: &R,
        batch: &Batch,
        tally: &mut Tally<J>,
    ) -> Result<(Seq, Seq), CoordError>
        requires { 0 < tally.old.parts }
        ensures { MayRecord (result ≡ Err CoordError.OutOfMemory) tally.old tally.new (exchange_of (call.Write batch.now) (write_answer result)) }
    {
        self.lock.lock(rt).write(batch, tally)
    }

    /// `Shared::freeze`, under the lock.
    pub fn freeze<R: Wait>(&self, rt: &R, tally: &mut Tally<J>) -> Result<Seq, CoordError>
        requires { 0 < tally.old.parts }
        ensures { MayRecord (result ≡ Err CoordError.OutOfMemory) tally.old tally.new (exchange_of call.Freeze (freeze_answer result)) }
    {
        self.lock.lock(rt).freeze(tally)
    }

    /// `Shared::flush`, under the lock.
    pub fn flush<R: Wait>(&self, rt: &R, tally: &mut Tally<J>) -> Result<Flushed, CoordError>
        requires { 0 < tally.old.parts }
        ensures { MayRecord (result ≡ Err CoordError.OutOfMemory) tally.old tally.new (exchange_of call.Flush (flush_answer result)) }
    {
        self.lock.lock(rt).flush(tally)
    }

    /// `Shared::snapshot`, under the lock.
    pub fn snapshot<R: Wait>(
        &self,
        rt: &R,
        tally: &mut Tally<J>,
    ) -> Result<(SnapId, Seq), CoordError>
        requires { 0 < tally.old.parts }
        ensures { MayRecord (result ≡ Err CoordError.OutOfMemory) tally.old tally.new (exchange_of call.Snap (snapshot_answer result)) }
    {
        self.lock.lock(rt).snapshot(tally)
    }

    /// `Shared::release`, under the lock.
    pub fn release<R: Wait>(
        &self,
        rt: &R,
        id: SnapId,
        tally: &mut Tally<J>,
    ) -> Result<(), CoordError>
        requires { 0 < tally.old.parts }
        ensures { MayRecord (result ≡ Err CoordError.OutOfMemory) tally.old tally.new (exchange_of (call.Release id) (release_answer result)) }
    {
        self.lock.lock(rt).release(id, tally)
    }

    /// `Shared::get`, under the lock.
    pub fn get<R: Wait>(
        &self,
        rt: &R,
        key: &[u8],
        at: Option<SnapId>,
        tally: &mut Tally<J>,
    ) -> Result<Option<Bytes>, CoordError>
        requires { 0 < tally.old.parts }
        ensures { MayRecord (result ≡ Err CoordError.OutOfMemory) tally.old tally.new (exchange_of (call.Get key.now at) (get_answer result)) }
    {
        self.lock.lock(rt).get(key, at, tally)
    }

    /// `Shared::scan`, under the lock.
    pub fn scan<R: Wait>(
        &self,
        rt: &R,
        lo: &[u8],
        hi: &[u8],
        at: Option<SnapId>,
        limit: u64,
        tally: &mut Tally<J>,
    ) -> Result<Vec<(Bytes, Bytes)>, CoordError>
        requires { 0 < tally.old.parts }
        ensures { MayRecord (result ≡ Err CoordError.OutOfMemory) tally.old tally.new (exchange_of (call.Scan (record { lo = lo.now; hi = hi.now; at = at; limit = limit })) (scan_answer result)) }
    {
        self.lock.lock(rt).scan(lo, hi, at, limit, tally)
    }

    /// `Shared::show`, under the lock.
    pub fn show<R: Wait>(&self, rt: &R, tally: &mut Tally<J>) -> Result<ShownVersion, CoordError>
        requires { 0 < tally.old.parts }
        ensures { MayRecord (result ≡ Err CoordError.OutOfMemory) tally.old tally.new (exchange_of call.Show (show_answer result)) }
    {
        self.lock.lock(rt).show(tally)
    }

    /// `Shared::trim`, under the lock.
    pub fn trim<R: Wait>(
        &self,
        rt: &R,
        to: VersionNumber,
        tally: &mut Tally<J>,
    ) -> Result<(VersionNumber, Items<FileNumber>), CoordError>
        requires { 0 < tally.old.parts }
        ensures { MayRecord (result ≡ Err CoordError.OutOfMemory) tally.old tally.new (exchange_of (call.Trim to) (trim_answer result)) }
    {
        self.lock.lock(rt).trim(to, tally)
    }

    /// `Shared::pick`, under the lock. The claim has the name of its job.
    pub fn pick<R: Wait>(
        &self,
        rt: &R,
        tally: &mut Tally<J>,
    ) -> Result<Option<(Claim, Job)>, CoordError>
        requires { 0 < tally.old.parts }
        ensures recorded { MayRecord (result ≡ Err CoordError.OutOfMemory) tally.old tally.new (exchange_of call.Pick (pick_answer result)) }
        ensures named { IfOk result (λ picked. IfSome picked (λ p. p.0.id ≡ p.1.id)) }
    {
        self.lock.lock(rt).pick(tally)
    }

    /// `Shared::install`, under the lock.
    pub fn install<R: Wait>(
        &self,
        rt: &R,
        claim: Claim,
        made: &JobResult,
        tally: &mut Tally<J>,
    ) -> Install
        requires part { 0 < tally.old.parts }
        requires fits { tally.old.picked + 1 < 2 ^ 64 }
        ensures { MayRecord (result ≡ Install.Kept claim InstallError.OutOfMemory) tally.old tally.new (exchange_of (call.Install claim.id made.now) (install_answer result)) }
    {
        self.lock.lock(rt).install(claim, made, tally)
    }

    /// `Shared::give_back`, under the lock. No clause can name the coordinator there, so none says which of the two it answers.
    pub fn give_back<R: Wait>(&self, rt: &R, claim: Claim) -> Settled {
        self.lock.lock(rt).give_back(claim)
    }

    /// `Shared::serve`, under the lock: the answer of a coordinator whose versions, files and claims are fit.
    pub fn serve<R: Wait>(&self, rt: &R, message: &Message) -> Result<Option<Message>, AllocError>
        ensures answer { IfOk result (λ answer. (c : CoordValue) × IsFit c × (answer ≡ answer_message c message.now message.now.body)) }
        ensures err { IfErr result (λ e. (c : CoordValue) × IsFit c × TakesMemory c message.now.body) }
        ensures sound { IsMessage message.now → IfOk result (λ answer. IfSome answer IsMessage) }
    {
        self.lock.lock(rt).serve(message)
    }
}
