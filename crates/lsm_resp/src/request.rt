//! Requests: arrays of bulk strings, and inline ones.

ghost use Rattle.std.specs.Prelude.{◌≡◌, ◌<◌, ◌≤◌, [], IfErr, IfNone, IfOk, IfSome, None, Ok, get_or, length, take};
ghost use Rattle.lsm_resp.specs.Enough.{IsEnough, enough_for_request};
ghost use Rattle.lsm_resp.specs.Lines.{FindsLine, FindsLineRequest};
ghost use Rattle.lsm_resp.specs.Outcomes.{IsFault, IsPartOfRequest, IsRequest, OfProtocol, TakesRequest, WaitsForMore};
ghost use Rattle.lsm_resp.specs.Pieces.{FindsArray};
ghost use Rattle.lsm_resp.specs.Requests.{FindsRequest, TakesWithin, words_of};
ghost use Rattle.lsm_resp.specs.declared.request.Parsed.TheVariants.{Partial};

use crate::bulk::{Bulks, read_bulks};
use crate::header::read_header;
use crate::inline::read_inline;
use crate::{MAX_WORDS, ParseError, ProtocolFault};
use std::alloc::Global;

/// What the bytes of an input begin with.
#[derive(Debug, Drop)]
pub enum Parsed<'a> {
    /// A request: its words, and how many bytes it takes. An empty one is answered with nothing.
    Request(Vec<&'a [u8]>, usize),
    /// The beginning of a request, or nothing.
    Partial,
}

/// The request ahead. More bytes are asked for only if the request goes on behind the input; of bytes that are no request within
/// the limits, the fault is the first one.
pub fn parse_request(alloc: Global, input: &[u8]) -> Result<Parsed<'_>, ParseError>
    ensures found { FindsRequest input.now result }
    ensures nothing { input.now ≡ [] → result ≡ Ok Partial }
    ensures line { FindsLineRequest input.now result }
    ensures within { IfOk result (TakesWithin input.now) }
    ensures enough { IfOk result (IsEnough input.now) }
    ensures request { IfOk result (TakesRequest input.now) }
    ensures partial { IfOk result (WaitsForMore input.now) }
    ensures refused { IfErr result (OfProtocol (IsFault input.now)) }
{
    match read_any(alloc, input) {
        Ok(Some(found)) => Ok(Parsed::Request(found.words, found.len)),
        Ok(None) => Ok(Parsed::Partial),
        Err(why) => Err(why),
    }
}

/// The request ahead, or `None` if not all of it has come.
fn read_any(alloc: Global, input: &[u8]) -> Result<Option<Bulks<'_>>, ParseError>
    ensures found { FindsArray input.now result }
    ensures line { FindsLine input.now result }
    ensures nothing { input.now ≡ [] → result ≡ Ok None }
    ensures within { IfOk result (λ found. IfSome found (λ bulks. (0 < bulks.len) × (bulks.len ≤ length input.now))) }
    ensures light { IfOk result (λ found. IfSome found (λ bulks. bulks.len ≤ enough_for_request)) }
    ensures enough { IfOk result (λ found. IfNone found (length input.now < enough_for_request)) }
    ensures request { IfOk result (λ found. IfSome found (λ bulks. IsRequest (words_of bulks.words.items) (take bulks.len input.now))) }
    ensures partial { IfOk result (λ found. IfNone found (IsPartOfRequest input.now)) }
    ensures refused { IfErr result (OfProtocol (IsFault input.now)) }
{
    if input.is_empty() {
        return Ok(None);
    }
    if input[0] == b'*' {
        read_array(alloc, input)
    } else {
        read_inline(alloc, input)
    }
}

/// The array of bulk strings ahead, or `None` if not all of it has come.
fn read_array(alloc: Global, input: &[u8]) -> Result<Option<Bulks<'_>>, ParseError>
    requires { get_or input.now 0 0 ≡ 42 }
    ensures found { FindsArray input.now result }
    ensures within { IfOk result (λ found. IfSome found (λ bulks. (0 < bulks.len) × (bulks.len ≤ length input.now))) }
    ensures light { IfOk result (λ found. IfSome found (λ bulks. bulks.len ≤ enough_for_request)) }
    ensures enough { IfOk result (λ found. IfNone found (length input.now < enough_for_request)) }
    ensures request { IfOk result (λ found. IfSome found (λ bulks. IsRequest (words_of bulks.words.items) (take bulks.len input.now))) }
    ensures partial { IfOk result (λ found. IfNone found (IsPartOfRequest input.now)) }
    ensures refused { IfErr result (OfProtocol (IsFault input.now)) }
{
    let Some(header) = read_header(input)? else {
        return Ok(None);
    };
    if header.number > MAX_WORDS {
        return Err(ParseError::Protocol(ProtocolFault::TooManyWords));
    }
    let (_, rest) = input.split_at(header.len);
    match read_bulks(alloc, rest, header.number) {
        Ok(Some(found)) => Ok(Some(Bulks {
            words: found.words,
            len: header.len + found.len,
        })),
        Ok(None) => Ok(None),
        Err(why) => Err(why),
    }
}
