//! Messages in frames: how one is received and sent. It stands apart from frames, which carry any bytes.

ghost use Rattle.std.specs.Prelude.{◌≡◌, ◌<◌, ◌⊎◌, All, IfErr, IfOk, IfSome, OnOk, true};
ghost use Rattle.std.specs.Io.KnownBytes.{Appends};
ghost use Rattle.lsm_msg.specs.Messages.{IsMessage, IsSpelled, message, sized};
ghost use Rattle.lsm_io.specs.Reports.{ReportsAfter, ReportsFaults};
ghost use Rattle.lsm_pipe.specs.Counting.{MayFollow, read_faults_of, write_faults_of};
ghost use Rattle.lsm_pipe.specs.Frames.{FitsFrame, IsSinkError, MessageRefuses, NoMessage, SendRefuses, SendStops, TakesMessage, framed};

use crate::error::PipeError;
use crate::frame::{read_frame, write_frame};
use bytes::Bytes;
use lsm_io::{Sink, Source};
use lsm_key::Refused;
use lsm_msg::{Message, MsgError, decode, encode};
use std::alloc::Global;

/// The next message, or `None` if the input ends before its frame. After a refusal nothing more may be read.
pub fn receive<R: Source>(alloc: Global, reader: &mut R) -> Result<Option<Message>, PipeError>
    ensures ok { IfOk result (TakesMessage (R.remaining reader.old) (R.remaining reader.new)) }
    ensures refused { IfErr result (MessageRefuses (R.remaining reader.old)) }
    ensures counted { ReportsAfter MayFollow result (R.reads reader.old) (R.reads reader.new) }
    ensures turns { OnOk result (R.reads reader.old < R.reads reader.new) }
    ensures faults { ReportsFaults read_faults_of result (R.faults reader.old) (R.faults reader.new) }
{
    match read_frame(alloc, reader)? {
        Some(payload) => Ok(Some(message_in(alloc, payload)?)),
        None => Ok(None),
    }
}

/// The message that the bytes of a frame are.
pub fn message_in(alloc: Global, payload: Bytes) -> Result<Message, PipeError>
    ensures ok { IfOk result (IsSpelled payload) }
    ensures refused { IfErr result (NoMessage payload) }
{
    match decode(alloc, payload) {
        Ok(message) => Ok(message),
        Err(Refused::OutOfMemory) => Err(PipeError::OutOfMemory),
        Err(Refused::Fault(_)) => Err(PipeError::NotMessage),
    }
}

/// Writes the frame of a message, and flushes. If the message has too many bytes, or memory runs out, nothing is written.
#[tactic(auto, using(crate::proofs::WorkSteps::unsent))]
pub fn send<W: Sink>(alloc: Global, writer: &mut W, m: &Message) -> Result<(), PipeError>
    requires { IsMessage m.now }
    ensures ok { OnOk result (Appends (W.contents writer.old) (W.contents writer.new) (sized (message m.now))) }
    ensures flushed { OnOk result (W.is_flushed writer.new ≡ true) }
    ensures fits { OnOk result (FitsFrame m.now) }
    ensures refused { IfErr result (SendRefuses m.now) }
    ensures unsent { IfErr result (λ e. IsSinkError e ⊎ (writer.new ≡ writer.old)) }
    ensures counted { ReportsAfter MayFollow result (W.writes writer.old) (W.writes writer.new) }
    ensures faults { ReportsFaults write_faults_of result (W.faults writer.old) (W.faults writer.new) }
{
    match encode(alloc, m) {
        Ok(bytes) => write_frame(writer, bytes.as_slice()),
        Err(Refused::OutOfMemory) => Err(PipeError::OutOfMemory),
        Err(Refused::Fault(_)) => Err(PipeError::TooLarge),
    }
}

/// Sends messages in turn.
pub(crate) fn send_all<W: Sink>(
    alloc: Global,
    writer: &mut W,
    messages: &[Message],
) -> Result<(), PipeError>
    requires { All IsMessage messages.now }
    ensures ok { OnOk result (Appends (W.contents writer.old) (W.contents writer.new) (framed messages.now)) }
    ensures refused { IfErr result (SendStops messages.now) }
    ensures counted { ReportsAfter MayFollow result (W.writes writer.old) (W.writes writer.new) }
    ensures faults { ReportsFaults write_faults_of result (W.faults writer.old) (W.faults writer.new) }
{
    for message in messages {
        send(alloc, writer, message)?;
    }
    Ok(())
}
