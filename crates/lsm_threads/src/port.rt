//! Where a loop's messages come from and go to.

ghost use Rattle.std.specs.Prelude.{[], All, IfErr, OnErr, OnOk};
ghost use Rattle.lsm_msg.specs.Messages.{IsMessage};
ghost use Rattle.lsm_threads.specs.Endings.{IsOfMail};
ghost use Rattle.lsm_threads.specs.Ports.{Traffic, SendsPart};

use crate::ending::Ending;
use lsm_msg::Message;

/// Where a loop's messages come from, and where it sends its own. One that knows both says so: then what a loop promises is about
/// these messages. Of a channel nothing is known.
pub trait Port {
    ghost use Rattle.std.specs.Prelude.{List, [], ◌∷◌, Option, None, IfOk, IfErr, OnOk, OnErr};
    ghost use Rattle.lsm_msg.specs.declared.message.Message.{Message};
    ghost use Rattle.lsm_msg.specs.Messages.{IsMessage};
    ghost use Rattle.lsm_threads.specs.Endings.{IsOfArrival, IsOfMail, IsOfSending};
    ghost use Rattle.lsm_threads.specs.Ports.{Traffic};

    // The messages that came, if they are known.
    ghost got: { Self → Option (List Message) } = { λ _. None };

    // The messages that were sent, if they are known.
    ghost sent: { Self → Option (List Message) } = { λ _. None };

    /// Waits for the next message. A refusal brings nothing.
    fn receive(&mut self) -> Result<Message, Ending>
        ensures sound { IfOk result IsMessage }
        ensures ok { IfOk result (λ m. Traffic (got self.old) (got self.new) (sent self.old) (sent self.new) (m ∷ []) []) }
        ensures refused { IfErr result IsOfArrival }
        ensures mail { IfErr result IsOfMail }
        ensures err { OnErr result (Traffic (got self.old) (got self.new) (sent self.old) (sent self.new) [] []) };

    /// Sends a message. One that is refused is not sent; one that is too large is refused for that alone.
    fn send(&mut self, m: &Message) -> Result<(), Ending>
        requires { IsMessage m.now }
        ensures ok { OnOk result (Traffic (got self.old) (got self.new) (sent self.old) (sent self.new) [] (m.now ∷ [])) }
        ensures refused { IfErr result (IsOfSending m.now) }
        ensures mail { IfErr result IsOfMail }
        ensures err { OnErr result (Traffic (got self.old) (got self.new) (sent self.old) (sent self.new) [] []) };
}

// Sends messages in turn, up to one that is not sent.
pub(crate) fn send_all<P: Port>(port: &mut P, messages: &[Message]) -> Result<(), Ending>
    requires { All IsMessage messages.now }
    ensures ok { OnOk result (Traffic (P.got port.old) (P.got port.new) (P.sent port.old) (P.sent port.new) [] messages.now) }
    ensures mail { IfErr result IsOfMail }
    ensures err { OnErr result (SendsPart (P.got port.old) (P.got port.new) (P.sent port.old) (P.sent port.new) messages.now) }
{
    for message in messages {
        port.send(message)?;
    }
    Ok(())
}
