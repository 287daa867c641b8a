//! Bulk strings: the words of a request.

ghost use Rattle.std.specs.Prelude.{◌≡◌, ◌≢◌, ◌+◌, ◌<◌, ◌≤◌, ◌∷◌, ◌++◌, [], IfErr, IfNone, IfOk, IfSome, OnSome, drop, length, take};
ghost use Rattle.lsm_resp.specs.declared.limits.TheConstants.{MAX_WORD_BYTES};
ghost use Rattle.lsm_resp.specs.Enough.{enough_for_bulk, enough_for_bulks, enough_for_header};
ghost use Rattle.lsm_resp.specs.Outcomes.{AreRead, IsFaultOfWord, IsFaultOfWords, IsPartOfWord, IsPartOfWords, OfProtocol};
ghost use Rattle.lsm_resp.specs.Pieces.{FindsBulk, FindsBulks, FindsBytes};
ghost use Rattle.lsm_resp.specs.Requests.{words_of};
ghost use Rattle.lsm_resp.specs.Wire.{bulk_bytes};
ghost use Rattle.lsm_resp.specs.declared.fault.ProtocolFault.TheVariants.{NoLineEnd};

use crate::header::read_header;
use crate::{MAX_REQUEST_BYTES, MAX_WORD_BYTES, ParseError, ProtocolFault};
use std::alloc::Global;

/// A word, and how many bytes its bulk string has.
#[derive(Clone, Copy, Debug)]
pub(crate) struct Bulk<'a> {
    pub(crate) word: &'a [u8],
    pub(crate) len: usize,
}

/// Words, and how many bytes their bulk strings have.
#[derive(Debug, Drop)]
pub(crate) struct Bulks<'a> {
    pub(crate) words: Vec<&'a [u8]>,
    pub(crate) len: usize,
}

/// So many bytes, with a line end behind them, or `None` if not all of it has come.
fn read_bytes(input: &[u8], len: usize) -> Result<Option<&[u8]>, ProtocolFault>
    requires { len ≤ MAX_WORD_BYTES }
    ensures found { FindsBytes input.now len result }
    ensures within { IfOk result (λ found. OnSome found (len + 2 ≤ length input.now)) }
    ensures enough { IfOk result (λ found. IfNone found (length input.now < len + 2)) }
    ensures len { IfOk result (λ found. IfSome found (λ bytes. length bytes.now ≡ len)) }
    ensures ended { IfOk result (λ found. IfSome found (λ bytes. take (len + 2) input.now ≡ bytes.now ++ 13 ∷ 10 ∷ [])) }
    ensures refused { IfErr result (λ why. (why ≡ NoLineEnd) × (len + 2 ≤ length input.now) × (take 2 (drop len input.now) ≢ 13 ∷ 10 ∷ [])) }
{
    if input.len() < len + 2 {
        return Ok(None);
    }
    if input[len] != b'\r' || input[len + 1] != b'\n' {
        return Err(ProtocolFault::NoLineEnd);
    }
    let (bytes, _) = input.split_at(len);
    Ok(Some(bytes))
}

/// The bulk string ahead, or `None` if not all of it has come.
pub(crate) fn read_bulk(input: &[u8]) -> Result<Option<Bulk<'_>>, ProtocolFault>
    ensures found { FindsBulk input.now result }
    ensures within { IfOk result (λ found. IfSome found (λ bulk. bulk.len ≤ length input.now)) }
    ensures light { IfOk result (λ found. IfSome found (λ bulk. bulk.len ≤ enough_for_header + length bulk.word.now + 2)) }
    ensures enough { IfOk result (λ found. IfNone found (length input.now < enough_for_bulk)) }
    ensures short { IfOk result (λ found. IfSome found (λ bulk. length bulk.word.now ≤ MAX_WORD_BYTES)) }
    ensures word { IfOk result (λ found. IfSome found (λ bulk. take bulk.len input.now ≡ bulk_bytes bulk.word.now)) }
    ensures part { IfOk result (λ found. IfNone found (IsPartOfWord input.now)) }
    ensures refused { IfErr result (IsFaultOfWord input.now) }
{
    if !input.is_empty() && input[0] != b'$' {
        return Err(ProtocolFault::NoBulk);
    }
    let Some(header) = read_header(input)? else {
        return Ok(None);
    };
    if header.number > MAX_WORD_BYTES {
        return Err(ProtocolFault::WordTooLong);
    }
    let (_, rest) = input.split_at(header.len);
    let Some(word) = read_bytes(rest, header.number)? else {
        return Ok(None);
    };
    Ok(Some(Bulk {
        word,
        len: header.len + (header.number + 2),
    }))
}

/// The `count` bulk strings ahead, or `None` if not all of them have come.
pub(crate) fn read_bulks(
    alloc: Global,
    input: &[u8],
    count: usize,
) -> Result<Option<Bulks<'_>>, ParseError>
    ensures found { FindsBulks input.now count result }
    ensures within { IfOk result (λ found. IfSome found (λ bulks. bulks.len ≤ length input.now)) }
    ensures light { IfOk result (λ found. IfSome found (λ bulks. bulks.len ≤ enough_for_bulks count)) }
    ensures enough { IfOk result (λ found. IfNone found (length input.now < enough_for_bulks count)) }
    ensures words { IfOk result (λ found. IfSome found (λ bulks. AreRead count (words_of bulks.words.items) (take bulks.len input.now))) }
    ensures part { IfOk result (λ found. IfNone found (IsPartOfWords count input.now)) }
    ensures refused { IfErr result (OfProtocol (IsFaultOfWords count input.now)) }
{
    let mut words = Vec::new(alloc);
    let mut len = 0;
    let mut total = 0;
    for _done in 0..count {
        let (_, rest) = input.split_at(len);
        let Some(bulk) = read_bulk(rest)? else {
            return Ok(None);
        };
        total += bulk.word.len();
        if total > MAX_REQUEST_BYTES {
            return Err(ParseError::Protocol(ProtocolFault::RequestTooLong));
        }
        let Ok(()) = words.push(bulk.word) else {
            return Err(ParseError::OutOfMemory);
        };
        len += bulk.len;
    }
    Ok(Some(Bulks { words, len }))
}
