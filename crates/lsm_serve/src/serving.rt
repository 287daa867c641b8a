//! Serving: requests in, replies out, a sync of the store before each write of them.

ghost use Rattle.std.specs.Prelude.{◌≡◌, ◌≢◌, ◌<◌, ◌≤◌, ◌++◌, ◌↔◌, [], ℕ, List, Option, Err, IfErr, IfOk, IsTrue, Ok, OnOk, drop, length, true, vec_len};
ghost use Rattle.std.specs.Io.KnownBytes.{Appends};
ghost use Rattle.lsm_coord.specs.Contract.Value.{CoordValue};
ghost use Rattle.lsm_store.specs.Store.{IsLatestSequence};
ghost use Rattle.lsm_io.specs.Streams.{Gains};
ghost use Rattle.lsm_resp.specs.Requests.{words_of};
ghost use Rattle.lsm_resp.specs.Wire.{reply_bytes};
ghost use Rattle.lsm_resp.specs.declared.reply.RespReply.TheVariants.{Error};
ghost use Rattle.lsm_serve.specs.declared.answer.Answer.TheVariants.{Refused};
ghost use Rattle.lsm_serve.specs.Counting.{ReportsCalls, ReportsReadFaults, ReportsReads, ReportsWriteFaults, ReportsWrites};
ghost use Rattle.lsm_serve.specs.HttpWords.{IsNoHttp};
ghost use Rattle.lsm_serve.specs.declared.error.ServeError.TheVariants.{Protocol, Truncated};
ghost use Rattle.lsm_serve.specs.Serving.{AnswersLast, AreAhead, EndsStream, ServesRequests, error_text, in_line};
ghost use Rattle.lsm_serve.specs.ServingSteps.{AnswersFault, AnswersOne, IsAnswerReason, IsReachable, IsReadReason, IsWriteReason, KeepsFew, LeftUnsent, RanSoFar, RanTo, ServedSoFar, ServesInput, WritesReply};

use crate::answer::{Answer, answer_request, one};
use crate::{Command, CommandRefusal, HttpWord, ServeError};
use bytes::Bytes;
use lsm_io::{Sink, Source, buffer_of, read_next, write_kept};
use lsm_key::Seq;
use lsm_resp::{ParseError, Parsed, ProtocolFault, RespReply, parse_request, write_reply};
use lsm_store::Store;
use lsm_vault::Vault;
use std::alloc::{AllocError, Global};

/// How much is read at once, and so how many bytes of requests at most are run before a sync, beside the beginning of one that had come. In
/// bytes.
const READ_BYTES: usize = 1_048_576;

/// Fewer bytes of replies than these are kept back when one more request is answered.
pub(crate) const KEPT_BYTES: usize = 65_536;

/// How far the requests that have come are answered.
#[derive(Clone, Copy, Debug, PartialEq, Eq)]
enum Reached {
    /// Up to here: what follows is not a whole request yet.
    Waits(usize),
    /// A `QUIT` was answered.
    Quit,
    /// What follows begins as a request of HTTP does.
    Http(HttpWord),
}

/// Answers the requests of the reader in order, until it ends or a `QUIT` was answered. Replies are written and flushed before more input
/// is waited for, and also once 64 KiB of them wait. The store is synced before each write of them. If that is refused, none of the
/// replies that wait is written, and it ends. What is no request within the limits is answered with an error, and ends it; a request that
/// begins as one of HTTP does ends it without an answer. The store is not flushed.
pub fn serve<V: Vault, R: Source, W: Sink>(
    alloc: Global,
    store: &mut Store<V>,
    reader: &mut R,
    writer: &mut W,
) -> Result<(), ServeError>
    ensures replies { (requests : List (List (List ℕ))) → AreAhead (R.remaining reader.old) requests → ServesRequests store.old requests (W.contents writer.old) (W.contents writer.new) result store.new }
    ensures answered { AnswersLast store.old (W.contents writer.old) (W.contents writer.new) result store.new }
    ensures flushed { OnOk result (W.is_flushed writer.new ≡ true) }
    ensures counted { ReportsCalls result (R.reads reader.old) (R.reads reader.new) (W.writes writer.old) (W.writes writer.new) }
    ensures read_faults { ReportsReadFaults result (R.faults reader.old) (R.faults reader.new) }
    ensures write_faults { ReportsWriteFaults result (W.faults writer.old) (W.faults writer.new) }
{
    let mut chunk = buffer_of(alloc, READ_BYTES)?;
    serve_through(alloc, store, reader, writer, &mut chunk)
}

/// The same, by reads into a chunk that has room.
fn serve_through<V: Vault, R: Source, W: Sink>(
    alloc: Global,
    store: &mut Store<V>,
    reader: &mut R,
    writer: &mut W,
    chunk: &mut [u8],
) -> Result<(), ServeError>
    requires { 0 < length chunk.old }
    ensures replies { (requests : List (List (List ℕ))) → AreAhead (R.remaining reader.old) requests → ServesRequests store.old requests (W.contents writer.old) (W.contents writer.new) result store.new }
    ensures answered { AnswersLast store.old (W.contents writer.old) (W.contents writer.new) result store.new }
    ensures flushed { OnOk result (W.is_flushed writer.new ≡ true) }
    ensures counted { ReportsCalls result (R.reads reader.old) (R.reads reader.new) (W.writes writer.old) (W.writes writer.new) }
    ensures read_faults { ReportsReadFaults result (R.faults reader.old) (R.faults reader.new) }
    ensures write_faults { ReportsWriteFaults result (W.faults writer.old) (W.faults writer.new) }
{
    let mut input = Vec::new(alloc);
    let mut out = Vec::new(alloc);
    let mut synced = store.flushed_sequence();
    for _turn in 0..u64::MAX {
        let reached = answer_all(alloc, store, &input, writer, &mut out, &mut synced)?;
        send(store, writer, &mut out, &mut synced)?;
        match reached {
            Reached::Quit => return Ok(()),
            Reached::Http(word) => return Err(ServeError::Http(word)),
            Reached::Waits(at) => drop_front(&mut input, at),
        }
        if !wait_for_more(reader, writer, chunk, &mut input)? {
            return end_of(&input);
        }
    }
    Err(ServeError::NoEnd)
}

/// Appends what the next read gives, which may have to be waited for: so the writer is flushed. Returns whether it gave something.
fn wait_for_more<R: Source, W: Sink>(
    reader: &mut R,
    _writer: &W,
    chunk: &mut [u8],
    input: &mut Vec<u8>,
) -> Result<bool, ServeError>
    requires room { 0 < length chunk.old }
    requires flushed { W.is_flushed _writer.now ≡ true }
    ensures ok { IfOk result (Gains (length chunk.old) (R.remaining reader.old) (R.remaining reader.new) input.old.items input.new.items) }
    ensures why { IfErr result IsReadReason }
    ensures counted { ReportsReads result (R.reads reader.old) (R.reads reader.new) }
    ensures faults { ReportsReadFaults result (R.faults reader.old) (R.faults reader.new) }
{
    Ok(read_next(reader, chunk, input)?)
}

/// How it ends at the end of the input: well, if nothing of a request is left.
fn end_of(input: &[u8]) -> Result<(), ServeError>
    ensures whole { input.now ≡ [] → result ≡ Ok tt }
    ensures cut { input.now ≢ [] → result ≡ Err Truncated }
    ensures why { IfErr result (λ e. e ≡ Truncated) }
{
    if input.is_empty() {
        Ok(())
    } else {
        Err(ServeError::Truncated)
    }
}

fn drop_front(input: &mut Vec<u8>, len: usize)
    requires { len ≤ vec_len input.old }
    ensures { input.new.items ≡ drop len input.old.items }
{
    let _ = input.drain(..len);
}

/// Syncs the store, and then writes the replies that were kept back, and flushes. If the store is not synced, none of them is written.
fn send<V: Vault, W: Sink>(
    store: &mut Store<V>,
    writer: &mut W,
    out: &mut Vec<u8>,
    synced: &mut Seq,
) -> Result<(), ServeError>
    ensures ok { OnOk result (Appends (W.contents writer.old) (W.contents writer.new) out.old.items) }
    ensures empty { OnOk result (out.new.items ≡ []) }
    ensures latest { OnOk result (IsLatestSequence store.new synced.new) }
    ensures same { store.new ≡ record store.old { failures = store.new.failures } }
    ensures counted { store.old.failures ≤ store.new.failures }
    ensures refused { IfErr result (LeftUnsent (W.contents writer.old) (W.contents writer.new) out.old.items) }
    ensures flushed { OnOk result (W.is_flushed writer.new ≡ true) }
    ensures writes { ReportsWrites result (W.writes writer.old) (W.writes writer.new) }
    ensures faults { ReportsWriteFaults result (W.faults writer.old) (W.faults writer.new) }
{
    match store.sync() {
        Ok(()) => {}
        Err(why) => return Err(ServeError::NotSynced(why)),
    }
    *synced = store.latest_sequence();
    write_kept(writer, out)?;
    Ok(())
}

/// Answers the requests that have come whole, and writes the replies as often as many bytes of them are kept back.
/// `synced` becomes the sequence up to which the store was synced last.
fn answer_all<V: Vault, W: Sink>(
    alloc: Global,
    store: &mut Store<V>,
    input: &[u8],
    writer: &mut W,
    out: &mut Vec<u8>,
    synced: &mut Seq,
) -> Result<Reached, ServeError>
    requires { length out.old.items < KEPT_BYTES }
    ensures few { IfOk result (KeepsFew KEPT_BYTES out.new.items) }
    ensures reach { IfOk result (IsReachable input.now) }
    ensures served { (old : CoordValue) (requests : List (List (List ℕ))) (held : Option (List ℕ)) (later : List ℕ) → ServedSoFar old requests held store.old (input.now ++ later) out.old.items (W.contents writer.old) → ServesInput old requests held store.new input.now later out.new.items (W.contents writer.new) result }
    ensures ran { (old : CoordValue) (held : Option (List ℕ)) → RanSoFar old held store.old out.old.items (W.contents writer.old) → IfOk result (RanTo old held store.new out.new.items (W.contents writer.new)) }
    ensures answered { (old : CoordValue) (held : Option (List ℕ)) → RanSoFar old held store.old out.old.items (W.contents writer.old) → AnswersLast old held (W.contents writer.new) result store.new }
    ensures why { IfErr result IsAnswerReason }
    ensures writes { ReportsWrites result (W.writes writer.old) (W.writes writer.new) }
    ensures faults { ReportsWriteFaults result (W.faults writer.old) (W.faults writer.new) }
{
    let mut at = 0;
    while at < input.len() {
        let (_, rest) = input.split_at(at);
        match parse_request(alloc, rest) {
            Ok(Parsed::Partial) => return Ok(Reached::Waits(at)),
            Ok(Parsed::Request(words, len)) => {
                if let Some(word) = HttpWord::of(&words) {
                    return Ok(Reached::Http(word));
                }
                at += len;
                if answer_to(alloc, store, *synced, &words, out)? {
                    return Ok(Reached::Quit);
                }
            }
            Err(ParseError::OutOfMemory) => return Err(ServeError::OutOfMemory),
            Err(ParseError::Protocol(fault)) => {
                return Err(fail(alloc, store, writer, out, synced, fault));
            }
        }
        if out.len() >= KEPT_BYTES {
            send(store, writer, out, synced)?;
        }
    }
    Ok(Reached::Waits(at))
}

/// Appends the reply to a request that is none of HTTP, an empty one having none. Returns whether it was a `QUIT`.
fn answer_to<V: Vault>(
    alloc: Global,
    store: &mut Store<V>,
    synced: Seq,
    words: &[&[u8]],
    out: &mut Vec<u8>,
) -> Result<bool, AllocError>
    requires { IsNoHttp (words_of words.now) }
    ensures { AnswersOne store.old (words_of words.now) out.old.items out.new.items result store.new }
{
    if words.is_empty() {
        return Ok(false);
    }
    let is_last = ends_stream(words);
    let answer = answer_request(alloc, store, synced, words)?;
    write_answer(alloc, out, &answer)?;
    Ok(is_last)
}

/// Whether it is a `QUIT` without arguments.
fn ends_stream(words: &[&[u8]]) -> bool
    ensures { IsTrue result ↔ EndsStream (words_of words.now) }
{
    match one(words) {
        Some(name) => Command::Quit.is_called(name),
        None => false,
    }
}

fn write_answer(alloc: Global, out: &mut Vec<u8>, answer: &Answer) -> Result<(), AllocError>
    ensures { OnOk result (WritesReply answer.now out.old.items out.new.items) }
{
    match answer {
        Answer::Reply(reply) => write_reply(out, reply),
        Answer::Refused(why) => write_refusal(alloc, out, *why),
    }
}

/// An error reply: `ERR`, and why.
fn write_refusal(alloc: Global, out: &mut Vec<u8>, why: CommandRefusal) -> Result<(), AllocError>
    ensures { OnOk result (WritesReply (Refused why) out.old.items out.new.items) }
{
    let text = format!(in alloc; "{why}")?;
    write_error(alloc, out, text.as_bytes())
}

/// An error line: `ERR`, and a text.
fn write_error(alloc: Global, out: &mut Vec<u8>, text: &[u8]) -> Result<(), AllocError>
    ensures { OnOk result (out.new.items ≡ out.old.items ++ reply_bytes (Error (error_text text.now))) }
{
    let line = error_line(alloc, text)?;
    write_reply(out, &RespReply::Error(Bytes::from_vec(line)?))
}

/// `ERR` and a text, in one line.
fn error_line(alloc: Global, text: &[u8]) -> Result<Vec<u8>, AllocError>
    ensures { IfOk result (λ line. line.items ≡ error_text text.now) }
{
    let mut line = Vec::new(alloc);
    line.extend_from_slice(b"ERR ")?;
    for byte in text {
        line.push(in_line(*byte))?;
    }
    Ok(line)
}

/// A byte as it stands in a line: a space for a line end.
fn in_line(byte: u8) -> u8
    ensures { result ≡ in_line byte }
{
    if byte == b'\r' || byte == b'\n' {
        b' '
    } else {
        byte
    }
}

/// Answers what is no request, as far as that can be done. Returns why serving ends.
fn fail<V: Vault, W: Sink>(
    alloc: Global,
    store: &mut Store<V>,
    writer: &mut W,
    out: &mut Vec<u8>,
    synced: &mut Seq,
    fault: ProtocolFault,
) -> ServeError
    ensures answered { AnswersFault fault (W.contents writer.old) (W.contents writer.new) out.old.items result }
    ensures same { store.new ≡ record store.old { failures = store.new.failures } }
    ensures counted { store.old.failures ≤ store.new.failures }
    ensures writes { ReportsWrites {T = Unit {0}} (Err result) (W.writes writer.old) (W.writes writer.new) }
    ensures faults { ReportsWriteFaults {T = Unit {0}} (Err result) (W.faults writer.old) (W.faults writer.new) }
{
    match write_fault(alloc, store, writer, out, synced, fault) {
        Ok(()) => ServeError::Protocol(fault),
        Err(error) => error,
    }
}

fn write_fault<V: Vault, W: Sink>(
    alloc: Global,
    store: &mut Store<V>,
    writer: &mut W,
    out: &mut Vec<u8>,
    synced: &mut Seq,
    fault: ProtocolFault,
) -> Result<(), ServeError>
    ensures answered { OnOk result (AnswersFault fault (W.contents writer.old) (W.contents writer.new) out.old.items (Protocol fault)) }
    ensures same { store.new ≡ record store.old { failures = store.new.failures } }
    ensures counted { store.old.failures ≤ store.new.failures }
    ensures refused { IfErr result IsWriteReason }
    ensures writes { ReportsWrites result (W.writes writer.old) (W.writes writer.new) }
    ensures faults { ReportsWriteFaults result (W.faults writer.old) (W.faults writer.new) }
{
    let text = format!(in alloc; "Protocol error: {fault}")?;
    write_error(alloc, out, text.as_bytes())?;
    send(store, writer, out, synced)
}
