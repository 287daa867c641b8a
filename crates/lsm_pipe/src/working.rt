//! A worker over two streams: the loop that reads messages, and writes what the worker answers.

ghost use Rattle.std.specs.Prelude.{◌≡◌, ◌<◌, IfErr, IfOk, None, OnOk};
ghost use Rattle.lsm_msg.specs.Messages.{IsMessage};
ghost use Rattle.lsm_io.specs.Reports.{ReportsAfter, ReportsAfterBoth, ReportsFaults};
ghost use Rattle.lsm_pipe.specs.Counting.{MayFollow, read_faults_of, write_faults_of};
ghost use Rattle.lsm_pipe.specs.Working.{StopsAfter, TakeStops, TakesOver, WorkStops, WorksAll, WorksOnce};

use crate::error::PipeError;
use crate::mail::{receive, send_all};
use lsm_io::{Sink, Source};
use lsm_msg::{Message, Node, NodeIndex};
use lsm_work::{WorkChange, Worker};
use std::alloc::Global;

/// Runs the worker of this index, idle at first, over two streams: hands it each message that comes and writes what it answers, until
/// the input ends. A message for another node is ignored.
///
/// A worker that gives its job up ends, so that its host sees that the job is free again; so does one that finds no memory, since a
/// message that it dropped would be waited for.
#[tactic(auto, using(crate::proofs::WorkSteps::works_all, crate::proofs::WorkSteps::stops_after, crate::proofs::WorkSteps::never_ends))]
pub fn work<R: Source, W: Sink>(
    alloc: Global,
    index: NodeIndex,
    reader: &mut R,
    writer: &mut W,
) -> Result<(), PipeError>
    ensures ok { OnOk result (WorksAll index (record { index = index; task = None }) (R.remaining reader.old) (W.contents writer.old) (W.contents writer.new)) }
    ensures err { IfErr result (StopsAfter index (record { index = index; task = None }) (R.remaining reader.old)) }
    ensures counted { ReportsAfterBoth MayFollow result (R.reads reader.old) (R.reads reader.new) (W.writes writer.old) (W.writes writer.new) }
    ensures read_faults { ReportsFaults read_faults_of result (R.faults reader.old) (R.faults reader.new) }
    ensures write_faults { ReportsFaults write_faults_of result (W.faults writer.old) (W.faults writer.new) }
{
    let mut worker = Worker::new(alloc, index);
    for _turn in 0..u64::MAX {
        if !turn(alloc, index, &mut worker, reader, writer)? {
            return Ok(());
        }
    }
    Err(PipeError::NoEnd)
}

// Hands the worker the next message, and sends what it answers. Returns whether there was one.
#[tactic(auto, using(crate::proofs::WorkSteps::stops_at))]
fn turn<R: Source, W: Sink>(
    alloc: Global,
    index: NodeIndex,
    worker: &mut Worker,
    reader: &mut R,
    writer: &mut W,
) -> Result<bool, PipeError>
    ensures ok { IfOk result (WorksOnce index worker.old (R.remaining reader.old) (R.remaining reader.new) (W.contents writer.old) (W.contents writer.new) worker.new) }
    ensures err { IfErr result (WorkStops index worker.old (R.remaining reader.old)) }
    ensures counted { ReportsAfterBoth MayFollow result (R.reads reader.old) (R.reads reader.new) (W.writes writer.old) (W.writes writer.new) }
    ensures turns { OnOk result (R.reads reader.old < R.reads reader.new) }
    ensures read_faults { ReportsFaults read_faults_of result (R.faults reader.old) (R.faults reader.new) }
    ensures write_faults { ReportsFaults write_faults_of result (W.faults writer.old) (W.faults writer.new) }
{
    match receive(alloc, reader)? {
        Some(message) => {
            take(alloc, index, worker, &message, writer)?;
            Ok(true)
        }
        None => Ok(false),
    }
}

// Hands the worker a message, unless it is for another node, and sends what it answers.
#[tactic(auto, using(crate::proofs::WorkSteps::sends_or_stops))]
fn take<W: Sink>(
    alloc: Global,
    index: NodeIndex,
    worker: &mut Worker,
    message: &Message,
    writer: &mut W,
) -> Result<(), PipeError>
    requires { IsMessage message.now }
    ensures ok { OnOk result (TakesOver index worker.old message.now (W.contents writer.old) (W.contents writer.new) worker.new) }
    ensures err { IfErr result (TakeStops index worker.old message.now) }
    ensures counted { ReportsAfter MayFollow result (W.writes writer.old) (W.writes writer.new) }
    ensures faults { ReportsFaults write_faults_of result (W.faults writer.old) (W.faults writer.new) }
{
    if message.dst != Node::Worker(index) {
        return Ok(());
    }
    let (change, sent) = worker.on_message(message)?;
    if change == WorkChange::Dropped {
        return Err(PipeError::GaveUp);
    }
    send_all(alloc, writer, sent.as_slice())
}
