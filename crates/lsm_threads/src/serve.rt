//! The loop that answers questions, and the answer to one message, which the link to a worker gives too.

ghost use Rattle.std.specs.Prelude.{IfErr, OnErr, OnOk, []};
ghost use Rattle.lsm_msg.specs.Messages.{IsMessage};
ghost use Rattle.lsm_threads.specs.Endings.{IsOfMail};
ghost use Rattle.lsm_threads.specs.Ports.{Traffic};
ghost use Rattle.lsm_threads.specs.Serving.{AnswersOver, ServesOver, ServesUntil, StopsServing};

use crate::ending::Ending;
use crate::port::Port;
use lsm_msg::Message;
use lsm_nodes::{Hub, Start, Witness};
use lsm_vault::Vault;
use std::sync::Wait;

/// Answers what nodes ask a shared coordinator, by `Hub::serve`, each before it takes the next. Ends if a channel is closed, what came is
/// no message, an answer is too large, or memory runs out: then the last message may be without an answer.
pub fn serve_loop<V: Vault, J: Start, N: Witness + Drop, P: Port, R: Wait>(
    rt: &R,
    hub: &Hub<V, J, N>,
    port: &mut P,
) -> Ending
    ensures ends { IsOfMail result }
    ensures serves { ServesUntil (P.got port.old) (P.got port.new) (P.sent port.old) (P.sent port.new) }
{
    for _ in rt.forever() {
        if let Err(ending) = serve_next(rt, hub, port) {
            return ending;
        }
    }
    unreachable!()
}

// Waits for a message, and answers it, unless the loop ends.
#[tactic(auto, using(crate::proofs::ServeSteps::serves_over, crate::proofs::ServeSteps::stops_before, crate::proofs::ServeSteps::stops_at))]
fn serve_next<V: Vault, J: Start, N: Witness + Drop, P: Port, R: Wait>(
    rt: &R,
    hub: &Hub<V, J, N>,
    port: &mut P,
) -> Result<(), Ending>
    ensures ends { IfErr result IsOfMail }
    ensures ok { OnOk result (ServesOver (P.got port.old) (P.got port.new) (P.sent port.old) (P.sent port.new)) }
    ensures err { OnErr result (StopsServing (P.got port.old) (P.got port.new) (P.sent port.old) (P.sent port.new)) }
{
    let message = port.receive()?;
    answer(rt, hub, &message, port)?;
    Ok(())
}

// Answers a question, and ignores any other message.
#[tactic(auto, using(crate::proofs::ServeSteps::answers_one, crate::proofs::ServeSteps::answers_none, crate::proofs::Passing::passes_none))]
pub(crate) fn answer<V: Vault, J: Start, N: Witness + Drop, P: Port, R: Wait>(
    rt: &R,
    hub: &Hub<V, J, N>,
    message: &Message,
    port: &mut P,
) -> Result<(), Ending>
    requires { IsMessage message.now }
    ensures ends { IfErr result IsOfMail }
    ensures ok { OnOk result (AnswersOver message.now (P.got port.old) (P.got port.new) (P.sent port.old) (P.sent port.new)) }
    ensures err { OnErr result (Traffic (P.got port.old) (P.got port.new) (P.sent port.old) (P.sent port.new) [] []) }
{
    match hub.serve(rt, message) {
        Ok(Some(answer)) => {
            port.send(&answer)?;
            Ok(())
        }
        Ok(None) => Ok(()),
        Err(_) => Err(Ending::OutOfMemory),
    }
}
