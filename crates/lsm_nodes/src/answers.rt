//! Calls and answers as plain data, twice: for a history and for a tally.

ghost use Rattle.std.specs.Prelude.{◌≡◌, Err, IfOk, IsOk, MatchResult, OnErr};
ghost use Rattle.lsm_coord.specs.declared.answer.Answer.TheVariants as answer;
ghost use Rattle.lsm_coord.specs.declared.call.Call.TheVariants as call;
ghost use Rattle.lsm_nodes.specs.Answers.{flush_answer, freeze_answer, get_answer, release_answer, scan_answer, show_answer, snapshot_answer, trim_answer, write_answer};

use crate::twice::Twice;
use bytes::Bytes;
use lsm_coord::{Answer, Call, CoordError, Flushed, ScanRange, ShownVersion, SnapId};
use lsm_key::{Batch, FileNumber, Items, Seq, VersionNumber};
use lsm_msg::Job;
use std::alloc::{AllocError, Global};

/// A call and a copy of it.
pub(crate) fn calls_of(alloc: Global, call: Call) -> Result<Twice<Call>, AllocError>
    ensures { IfOk result (λ calls. calls ≡ call) }
{
    let other = call.copy(alloc)?;
    Ok(Twice::new(call, other))
}

/// The call of a write.
pub(crate) fn write_calls(alloc: Global, batch: &Batch) -> Result<Twice<Call>, AllocError>
    ensures { IfOk result (λ calls. calls ≡ call.Write batch.now) }
{
    let ops = batch.ops().to_vec(alloc)?;
    calls_of(alloc, Call::Write(Items::from_vec(ops)))
}

/// The call of a get.
pub(crate) fn get_calls(
    alloc: Global,
    key: &[u8],
    at: Option<SnapId>,
) -> Result<Twice<Call>, AllocError>
    ensures { IfOk result (λ calls. calls ≡ call.Get key.now at) }
{
    let key = Bytes::copy_from_slice(alloc, key)?;
    calls_of(alloc, Call::Get(key, at))
}

/// The call of a scan.
pub(crate) fn scan_calls(
    alloc: Global,
    lo: &[u8],
    hi: &[u8],
    at: Option<SnapId>,
    limit: u64,
) -> Result<Twice<Call>, AllocError>
    ensures { IfOk result (λ calls. calls ≡ call.Scan (record { lo = lo.now; hi = hi.now; at = at; limit = limit })) }
{
    let lo = Bytes::copy_from_slice(alloc, lo)?;
    let hi = Bytes::copy_from_slice(alloc, hi)?;
    calls_of(alloc, Call::Scan(ScanRange { lo, hi, at, limit }))
}

// An answer and a copy of it.
fn answers_of(alloc: Global, answer: Answer) -> Result<Twice<Answer>, AllocError>
    ensures { IfOk result (λ answers. answers ≡ answer) }
{
    let other = answer.copy(alloc)?;
    Ok(Twice::new(answer, other))
}

/// A refusal.
pub(crate) fn refused(why: CoordError) -> Twice<Answer>
    ensures { result ≡ answer.Refused why }
{
    Twice::new(Answer::Refused(why), Answer::Refused(why))
}

/// The answer of a write.
pub(crate) fn write_answers(outcome: &Result<(Seq, Seq), CoordError>) -> Twice<Answer>
    ensures { result ≡ write_answer outcome.now }
{
    match outcome {
        Ok((first, last)) => Twice::new(Answer::Wrote(*first, *last), Answer::Wrote(*first, *last)),
        Err(why) => refused(*why),
    }
}

/// The answer of a freeze.
pub(crate) fn freeze_answers(outcome: &Result<Seq, CoordError>) -> Twice<Answer>
    ensures { result ≡ freeze_answer outcome.now }
{
    match outcome {
        Ok(seq) => Twice::new(Answer::Froze(*seq), Answer::Froze(*seq)),
        Err(why) => refused(*why),
    }
}

/// The answer of a flush.
pub(crate) fn flush_answers(outcome: &Result<Flushed, CoordError>) -> Twice<Answer>
    ensures { result ≡ flush_answer outcome.now }
{
    match outcome {
        Ok(flushed) => Twice::new(Answer::Flushed(*flushed), Answer::Flushed(*flushed)),
        Err(why) => refused(*why),
    }
}

/// The answer of a snapshot.
pub(crate) fn snapshot_answers(outcome: &Result<(SnapId, Seq), CoordError>) -> Twice<Answer>
    ensures { result ≡ snapshot_answer outcome.now }
{
    match outcome {
        Ok((id, at)) => Twice::new(Answer::Snapped(*id, *at), Answer::Snapped(*id, *at)),
        Err(why) => refused(*why),
    }
}

/// The answer of a release.
pub(crate) fn release_answers(outcome: &Result<(), CoordError>) -> Twice<Answer>
    ensures { result ≡ release_answer outcome.now }
{
    match outcome {
        Ok(()) => Twice::new(Answer::Released, Answer::Released),
        Err(why) => refused(*why),
    }
}

/// The answer of a get.
pub(crate) fn get_answers(
    alloc: Global,
    outcome: &Result<Option<Bytes>, CoordError>,
) -> Result<Twice<Answer>, AllocError>
    ensures ok { IfOk result (λ answers. answers ≡ get_answer outcome.now) }
    ensures err { OnErr result (IsOk outcome.now) }
{
    match outcome {
        Ok(value) => answers_of(alloc, Answer::Got(value.clone()?)),
        Err(why) => Ok(refused(*why)),
    }
}

/// The answer of a scan.
pub(crate) fn scan_answers(
    alloc: Global,
    outcome: &Result<Vec<(Bytes, Bytes)>, CoordError>,
) -> Result<Twice<Answer>, AllocError>
    ensures ok { IfOk result (λ answers. answers ≡ scan_answer outcome.now) }
    ensures err { OnErr result (IsOk outcome.now) }
{
    match outcome {
        Ok(pairs) => {
            let pairs = pairs.as_slice().to_vec(alloc)?;
            answers_of(alloc, Answer::Scanned(Items::from_vec(pairs)))
        }
        Err(why) => Ok(refused(*why)),
    }
}

/// The answer of a listing.
pub(crate) fn show_answers(
    alloc: Global,
    outcome: &Result<ShownVersion, CoordError>,
) -> Result<Twice<Answer>, AllocError>
    ensures ok { IfOk result (λ answers. answers ≡ show_answer outcome.now) }
    ensures err { OnErr result (IsOk outcome.now) }
{
    match outcome {
        Ok(version) => answers_of(alloc, Answer::Shown(version.copy(alloc)?)),
        Err(why) => Ok(refused(*why)),
    }
}

/// The answer of a trim.
pub(crate) fn trim_answers(
    alloc: Global,
    outcome: &Result<(VersionNumber, Items<FileNumber>), CoordError>,
) -> Result<Twice<Answer>, AllocError>
    ensures ok { IfOk result (λ answers. answers ≡ trim_answer outcome.now) }
    ensures err { OnErr result (IsOk outcome.now) }
{
    match outcome {
        Ok((floor, files)) => {
            let files = files.as_slice().to_vec(alloc)?;
            answers_of(alloc, Answer::Trimmed(*floor, Items::from_vec(files)))
        }
        Err(why) => Ok(refused(*why)),
    }
}

/// The answer of a pick that gives a job.
pub(crate) fn picked_answers(alloc: Global, job: &Job) -> Result<Twice<Answer>, AllocError>
    ensures { IfOk result (λ answers. answers ≡ answer.Picked job.now) }
{
    let copy = job.copy(alloc)?;
    answers_of(alloc, Answer::Picked(copy))
}

/// An outcome with its answer, or out of memory if the answer could not be copied.
pub(crate) fn or_memory<T: Drop>(
    outcome: Result<T, CoordError>,
    answers: Result<Twice<Answer>, AllocError>,
) -> (Result<T, CoordError>, Twice<Answer>)
    ensures { MatchResult answers (λ copied. (result.0 ≡ outcome) × (result.1 ≡ copied)) (λ e. (result.0 ≡ Err CoordError.OutOfMemory) × (result.1 ≡ answer.Refused CoordError.OutOfMemory)) }
{
    match answers {
        Ok(answers) => (outcome, answers),
        Err(_) => (
            Err(CoordError::OutOfMemory),
            refused(CoordError::OutOfMemory),
        ),
    }
}
