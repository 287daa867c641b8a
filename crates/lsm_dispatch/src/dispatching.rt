//! A dispatch: a coordinator that has its compactions made over a pipe.

ghost use Rattle.std.specs.Prelude.{◌≡◌, ℕ, ◌+◌, ◌<◌, ◌≤◌, List, [], Option, false, IfErr, IfOk, IfSome, OnOk};
ghost use Rattle.std.specs.Io.KnownBytes.{Appends};
ghost use Rattle.lsm_key.specs.declared.limits.TheConstants.{MAX_NODES};
ghost use Rattle.lsm_msg.specs.Messages.{IsMessage};
ghost use Rattle.lsm_pipe.specs.Frames.{framed};
ghost use Rattle.lsm_io.specs.Reports.{ReportsAfter, ReportsAfterBoth, ReportsFaults};
ghost use Rattle.lsm_dispatch.specs.Counting.{MayStopAfter, read_faults_in, write_faults_in};
ghost use Rattle.lsm_dispatch.specs.Crews.{has_busy, new_crew};
ghost use Rattle.lsm_dispatch.specs.Dispatching.{IsLeftDue, KeepsIfMerged, RunKeeps};
ghost use Rattle.lsm_dispatch.specs.Turns.{AsksWorker, AwaitsLetter, DispatchRefuses, NoneWaits, OneRefuses, RunEnds, RunStops, RunsOver, one_or_none};

use crate::crew::Crew;
use crate::error::DispatchError;
use crate::install::due_of;
use crate::letter::{Letter, letter_in};
use lsm_coord::Coord;
use lsm_io::{Sink, Source};
use lsm_key::MAX_NODES;
use lsm_msg::{Message, NodeIndex};
use lsm_pipe::{PipeError, read_frame, send};
use lsm_store::Due;
use lsm_vault::Vault;
use std::alloc::Global;

/// Has the compactions of an idle coordinator made by workers, of which `workers` are there at first, until none is due, and returns
/// what is still due: nothing, or compactions that exceed a job size limit. The host takes each frame that is written to the
/// worker that its message names, and brings what comes back, with a letter when a worker goes or comes.
///
/// In each ending all claims are given back: no job is live that was not before. The store holds what it held, as long as each result that is
/// installed is the merge of its job.
///
/// It ends early if the reader fails or ends while a worker has a job, if what comes is no frame or no letter, if the writer fails or a message
/// has too many bytes, if a stream was called as often as is counted, if the coordinator refuses a pick, an install or a trim, or finds no
/// memory, and if a compaction is due that no worker takes.
pub fn dispatch<V: Vault, R: Source, W: Sink>(
    alloc: Global,
    coord: &mut Coord<V>,
    count: NodeIndex,
    reader: &mut R,
    writer: &mut W,
) -> Result<Due, DispatchError>
    requires { coord.old.book.live ≡ [] }
    ensures due { IfOk result (IsLeftDue coord.new) }
    ensures runs { OnOk result (RunEnds (new_crew count) coord.old (R.remaining reader.old) (R.remaining reader.new) (W.contents writer.old) (W.contents writer.new) coord.new) }
    ensures refused { IfErr result (DispatchRefuses (new_crew count) coord.old (R.remaining reader.old) (R.remaining reader.new) (W.contents writer.old) (W.contents writer.new) coord.new) }
    ensures settled { coord.new.book.live ≡ [] }
    ensures keeps { KeepsIfMerged coord.old coord.new }
    ensures counted { ReportsAfterBoth MayStopAfter result (R.reads reader.old) (R.reads reader.new) (W.writes writer.old) (W.writes writer.new) }
    ensures read_faults { ReportsFaults read_faults_in result (R.faults reader.old) (R.faults reader.new) }
    ensures write_faults { ReportsFaults write_faults_in result (W.faults writer.old) (W.faults writer.new) }
{
    let mut crew = Crew::new(count);
    let ended = run(alloc, coord, &mut crew, reader, writer);
    crew.close(coord);
    ended?;
    match due_of(coord)? {
        Due::More => Err(DispatchError::NoWorker),
        due => Ok(due),
    }
}

// Hands out jobs and takes letters until no worker has a job.
fn run<V: Vault, R: Source, W: Sink>(
    alloc: Global,
    coord: &mut Coord<V>,
    crew: &mut Crew,
    reader: &mut R,
    writer: &mut W,
) -> Result<(), DispatchError>
    ensures ok { OnOk result (RunsOver crew.old coord.old (R.remaining reader.old) (R.remaining reader.new) (W.contents writer.old) (W.contents writer.new) crew.new coord.new) }
    ensures idle { OnOk result ((has_busy crew.new ≡ false) × NoneWaits crew.new coord.new) }
    ensures refused { IfErr result (RunStops crew.old coord.old (R.remaining reader.old) (W.contents writer.old) (W.contents writer.new)) }
    ensures keeps { RunKeeps crew.old coord.old crew.new coord.new }
    ensures counted { ReportsAfterBoth MayStopAfter result (R.reads reader.old) (R.reads reader.new) (W.writes writer.old) (W.writes writer.new) }
    ensures read_faults { ReportsFaults read_faults_in result (R.faults reader.old) (R.faults reader.new) }
    ensures write_faults { ReportsFaults write_faults_in result (W.faults writer.old) (W.faults writer.new) }
{
    for _turn in 0..u64::MAX {
        hand_out_all(alloc, coord, crew, writer)?;
        if !crew.is_busy() {
            return Ok(());
        }
        take_letter(alloc, coord, crew, reader, writer)?;
    }
    Err(DispatchError::Pipe(PipeError::NoEnd))
}

// Hands a job to each idle worker, as long as one is due.
fn hand_out_all<V: Vault, W: Sink>(
    alloc: Global,
    coord: &mut Coord<V>,
    crew: &mut Crew,
    writer: &mut W,
) -> Result<(), DispatchError>
    ensures ok { OnOk result ((input : Option (List ℕ)) → RunsOver crew.old coord.old input input (W.contents writer.old) (W.contents writer.new) crew.new coord.new) }
    ensures refused { IfErr result (λ e. (input : Option (List ℕ)) → RunStops crew.old coord.old input (W.contents writer.old) (W.contents writer.new) e) }
    ensures asks { OnOk result (NoneWaits crew.new coord.new) }
    ensures keeps { RunKeeps crew.old coord.old crew.new coord.new }
    ensures counted { ReportsAfter MayStopAfter result (W.writes writer.old) (W.writes writer.new) }
    ensures faults { ReportsFaults write_faults_in result (W.faults writer.old) (W.faults writer.new) }
    ensures unread { IfErr result (λ e. read_faults_in e ≡ 0) }
{
    for number in 1..MAX_NODES + 1 {
        // Proof hint: the coordinator's invariant.
        let _listing = coord.show();
        hand_out_to(alloc, coord, crew, number, writer)?;
    }
    Ok(())
}

// Hands a job to the worker of this number, if it is idle and one is due.
fn hand_out_to<V: Vault, W: Sink>(
    alloc: Global,
    coord: &mut Coord<V>,
    crew: &mut Crew,
    number: u8,
    writer: &mut W,
) -> Result<(), DispatchError>
    requires { (1 ≤ number) × (number ≤ MAX_NODES) }
    ensures ok { OnOk result ((input : Option (List ℕ)) → RunsOver crew.old coord.old input input (W.contents writer.old) (W.contents writer.new) crew.new coord.new) }
    ensures refused { IfErr result (λ e. (input : Option (List ℕ)) → RunStops crew.old coord.old input (W.contents writer.old) (W.contents writer.new) e) }
    ensures asks { OnOk result (AsksWorker number crew.old coord.old crew.new coord.new) }
    ensures keeps { RunKeeps crew.old coord.old crew.new coord.new }
    ensures counted { ReportsAfter MayStopAfter result (W.writes writer.old) (W.writes writer.new) }
    ensures faults { ReportsFaults write_faults_in result (W.faults writer.old) (W.faults writer.new) }
    ensures unread { IfErr result (λ e. read_faults_in e ≡ 0) }
{
    let Some(index) = NodeIndex::new(number) else {
        return Ok(());
    };
    let job = crew.hand_out(coord, index)?;
    send_some(alloc, writer, job)
}

// Takes the next letter, and answers it.
fn take_letter<V: Vault, R: Source, W: Sink>(
    alloc: Global,
    coord: &mut Coord<V>,
    crew: &mut Crew,
    reader: &mut R,
    writer: &mut W,
) -> Result<(), DispatchError>
    requires { AwaitsLetter crew.old coord.old }
    ensures ok { OnOk result (RunsOver crew.old coord.old (R.remaining reader.old) (R.remaining reader.new) (W.contents writer.old) (W.contents writer.new) crew.new coord.new) }
    ensures refused { IfErr result (RunStops crew.old coord.old (R.remaining reader.old) (W.contents writer.old) (W.contents writer.new)) }
    ensures keeps { RunKeeps crew.old coord.old crew.new coord.new }
    ensures turns { OnOk result (R.reads reader.old < R.reads reader.new) }
    ensures counted { ReportsAfterBoth MayStopAfter result (R.reads reader.old) (R.reads reader.new) (W.writes writer.old) (W.writes writer.new) }
    ensures read_faults { ReportsFaults read_faults_in result (R.faults reader.old) (R.faults reader.new) }
    ensures write_faults { ReportsFaults write_faults_in result (W.faults writer.old) (W.faults writer.new) }
{
    let Some(payload) = read_frame(alloc, reader)? else {
        return Err(DispatchError::EndsEarly);
    };
    match letter_in(alloc, payload)? {
        Letter::Message(message) => {
            let answer = crew.on_message(coord, &message)?;
            send_some(alloc, writer, answer)
        }
        Letter::Gone(index) => {
            crew.leave(coord, index);
            Ok(())
        }
        Letter::There(index) => {
            crew.come(coord, index);
            Ok(())
        }
    }
}

// Sends a message, if there is one.
#[tactic(auto, using(lsm_pipe::proofs::Counted::send_not_read))]
fn send_some<W: Sink>(
    alloc: Global,
    writer: &mut W,
    message: Option<Message>,
) -> Result<(), DispatchError>
    requires { IfSome message IsMessage }
    ensures ok { OnOk result (Appends (W.contents writer.old) (W.contents writer.new) (framed (one_or_none message))) }
    ensures refused { IfErr result (OneRefuses message (W.contents writer.old) (W.contents writer.new)) }
    ensures counted { ReportsAfter MayStopAfter result (W.writes writer.old) (W.writes writer.new) }
    ensures faults { ReportsFaults write_faults_in result (W.faults writer.old) (W.faults writer.new) }
    ensures unread { IfErr result (λ e. read_faults_in e ≡ 0) }
{
    if let Some(message) = message {
        send(alloc, writer, &message)?;
    }
    Ok(())
}
