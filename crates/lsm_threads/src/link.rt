//! The link to a worker that runs in a thread of its own.

ghost use Rattle.std.specs.Prelude.{◌≡◌, ◌∷◌, [], IfErr, IfOk, IfSome, None, OnOk};
ghost use Rattle.lsm_msg.specs.declared.message.Body.TheVariants as body;
ghost use Rattle.lsm_threads.specs.Endings.{IsOfMail};
ghost use Rattle.lsm_threads.specs.Ports.{Traffic};
ghost use Rattle.lsm_threads.specs.Serving.{BringsBack, FindsNext, IsLost, sent_job};

use crate::ending::Ending;
use crate::port::Port;
use crate::serve::answer;
use lsm_claim::JobId;
use lsm_msg::{Body, Job, JobResult, Message, NodeIndex};
use lsm_nodes::{Hub, Link, Start, Witness};
use lsm_vault::Vault;
use std::marker::Model;
use std::sync::Wait;

/// Carries jobs to a worker over a port, answers what it asks, and takes the result that names the job. It carries nothing back if a
/// channel is closed, what came is no message, a message is too large, or memory runs out, and remembers which. Contracts see what came
/// and was sent, if the port knows it, and what it remembers.
#[derive(Drop)]
pub struct WorkerLink<'a, V: Vault, J: Start, N: Witness + Drop, P: Port + Drop, R: Wait> {
    rt: &'a R,
    hub: &'a Hub<V, J, N>,
    worker: NodeIndex,
    port: P,
    lost: Option<Ending>,
}

impl<'a, V: Vault, J: Start, N: Witness + Drop, P: Port + Drop, R: Wait> Model
    for WorkerLink<'a, V, J, N, P, R> {
    ghost use Rattle.lsm_threads.specs.Serving.{LinkValue};

    ghost Value = { LinkValue };

    ghost view = { λ l. record { worker = l.worker; got = P.got l.port; sent = P.sent l.port; lost = l.lost } };
}

impl<'a, V: Vault, J: Start, N: Witness + Drop, P: Port + Drop, R: Wait> WorkerLink<
    'a,
    V,
    J,
    N,
    P,
    R,
> {
    /// A link to the worker of this index, by a port to it.
    pub fn new(
        rt: &'a R,
        hub: &'a Hub<V, J, N>,
        worker: NodeIndex,
        port: P,
    ) -> WorkerLink<'a, V, J, N, P, R>
        ensures { result ≡ record { worker = worker; got = P.got port; sent = P.sent port; lost = None } }
    {
        WorkerLink {
            rt,
            hub,
            worker,
            port,
            lost: None,
        }
    }

    /// Why the last job came back without a result, if it did.
    pub fn lost(&self) -> Option<Ending>
        ensures { result ≡ self.now.lost }
    {
        self.lost
    }
}

impl<V: Vault, J: Start, N: Witness + Drop, P: Port + Drop, R: Wait> Link
    for WorkerLink<'_, V, J, N, P, R> {
    fn carry(&mut self, job: Job) -> Option<JobResult>
        ensures named { IfSome result (λ made. made.job ≡ job.id) }
        ensures brought { IfSome result (BringsBack self.old.worker job self.old.got self.new.got self.old.sent self.new.sent) }
        ensures lost { IsLost result self.new.lost }
    {
        match result_for(self.rt, self.hub, &mut self.port, self.worker, job) {
            Ok(made) => {
                self.lost = None;
                Some(made)
            }
            Err(ending) => {
                self.lost = Some(ending);
                None
            }
        }
    }
}

// Hands the job out, and waits for its result.
#[tactic(auto, using(crate::proofs::LinkSteps::carries_none, crate::proofs::LinkSteps::carries_more, crate::proofs::LinkSteps::brings_back))]
fn result_for<V: Vault, J: Start, N: Witness + Drop, P: Port, R: Wait>(
    rt: &R,
    hub: &Hub<V, J, N>,
    port: &mut P,
    worker: NodeIndex,
    job: Job,
) -> Result<JobResult, Ending>
    ensures named { IfOk result (λ made. made.job ≡ job.id) }
    ensures brought { IfOk result (BringsBack worker job (P.got port.old) (P.got port.new) (P.sent port.old) (P.sent port.new)) }
    ensures mail { IfErr result IsOfMail }
{
    let id = job.id();
    hand_out(port, worker, job)?;
    for _ in rt.forever() {
        if let Some(made) = next_result(rt, hub, port, id)? {
            return Ok(made);
        }
    }
    unreachable!()
}

// Sends the worker a job.
fn hand_out<P: Port>(port: &mut P, worker: NodeIndex, job: Job) -> Result<(), Ending>
    ensures sent { OnOk result (Traffic (P.got port.old) (P.got port.new) (P.sent port.old) (P.sent port.new) [] (sent_job worker job ∷ [])) }
    ensures mail { IfErr result IsOfMail }
{
    let message = Message::to_worker(worker, job);
    port.send(&message)?;
    Ok(())
}

// Waits for a message: the result of this job, or a question, which it answers.
#[tactic(auto, using(crate::proofs::LinkSteps::finds_result, crate::proofs::LinkSteps::finds_question))]
fn next_result<V: Vault, J: Start, N: Witness + Drop, P: Port, R: Wait>(
    rt: &R,
    hub: &Hub<V, J, N>,
    port: &mut P,
    id: JobId,
) -> Result<Option<JobResult>, Ending>
    ensures found { IfOk result (FindsNext id (P.got port.old) (P.got port.new) (P.sent port.old) (P.sent port.new)) }
    ensures mail { IfErr result IsOfMail }
{
    let message = port.receive()?;
    match result_of(message, id) {
        Ok(made) => Ok(Some(made)),
        Err(asked) => {
            answer(rt, hub, &asked, port)?;
            Ok(None)
        }
    }
}

// The result of this job, or else the message.
fn result_of(message: Message, id: JobId) -> Result<JobResult, Message>
    ensures ok { IfOk result (λ made. (made.job ≡ id) × (message.body ≡ body.Result made)) }
    ensures err { IfErr result (λ m. m ≡ message) }
{
    let Message { src, dst, body } = message;
    match body {
        Body::Result(made) => {
            if made.job == id {
                return Ok(made);
            }
            let body = Body::Result(made);
            Err(Message { src, dst, body })
        }
        body => Err(Message { src, dst, body }),
    }
}
