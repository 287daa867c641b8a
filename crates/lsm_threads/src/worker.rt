//! The loop of a worker, which also ends once the worker gives its job up.

ghost use Rattle.std.specs.Prelude.{IfErr, OnOk};
ghost use Rattle.lsm_threads.specs.Endings.{IsOfWorker};
ghost use Rattle.lsm_threads.specs.Working.{EndsAtMessage, StopsOver, HearsMessage, HearsNext, WorksUntil};

use crate::ending::Ending;
use crate::port::{Port, send_all};
use lsm_msg::Message;
use lsm_work::{WorkChange, Worker};
use std::sync::Wait;

/// Hands a worker each message that comes, and sends what comes of it. Ends, with the worker, if a channel is closed, what came is no
/// message, a message is too large, memory runs out, or the worker gives its job up.
pub fn worker_loop<P: Port, R: Wait>(rt: &R, mut worker: Worker, port: &mut P) -> (Worker, Ending)
    ensures ends { IsOfWorker result.1 }
    ensures works { WorksUntil worker result.0 (P.got port.old) (P.got port.new) (P.sent port.old) (P.sent port.new) result.1 }
{
    for _ in rt.forever() {
        if let Err(ending) = turn(&mut worker, port) {
            return (worker, ending);
        }
    }
    unreachable!()
}

// Waits for a message, hands it to the worker, and sends what comes of it, unless the loop ends.
#[tactic(auto, using(crate::proofs::WorkSteps::takes_over, crate::proofs::WorkSteps::stops_over, crate::proofs::WorkSteps::stops_before))]
fn turn<P: Port>(worker: &mut Worker, port: &mut P) -> Result<(), Ending>
    ensures ends { IfErr result IsOfWorker }
    ensures ok { OnOk result (HearsNext worker.old worker.new (P.got port.old) (P.got port.new) (P.sent port.old) (P.sent port.new)) }
    ensures err { IfErr result (StopsOver worker.old worker.new (P.got port.old) (P.got port.new) (P.sent port.old) (P.sent port.new)) }
{
    let message = port.receive()?;
    take(worker, &message, port)?;
    Ok(())
}

// Hands the worker a message, and sends what comes of it, unless the loop ends.
#[tactic(auto, using(crate::proofs::WorkSteps::taken, crate::proofs::WorkSteps::gave_up, crate::proofs::WorkSteps::cut_off, crate::proofs::WorkSteps::no_memory))]
fn take<P: Port>(worker: &mut Worker, message: &Message, port: &mut P) -> Result<(), Ending>
    ensures ends { IfErr result IsOfWorker }
    ensures ok { OnOk result (HearsMessage worker.old worker.new message.now (P.got port.old) (P.got port.new) (P.sent port.old) (P.sent port.new)) }
    ensures err { IfErr result (EndsAtMessage worker.old worker.new message.now (P.got port.old) (P.got port.new) (P.sent port.old) (P.sent port.new)) }
{
    let Ok((change, sent)) = worker.on_message(message) else {
        return Err(Ending::OutOfMemory);
    };
    send_all(port, sent.as_slice())?;
    if change == WorkChange::Dropped {
        return Err(Ending::Dropped);
    }
    Ok(())
}
