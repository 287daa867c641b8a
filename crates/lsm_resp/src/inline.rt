//! Inline requests: a line of words, as a person types it.

ghost use Rattle.std.specs.Prelude.{◌≡◌, ◌≢◌, ◌+◌, ◌<◌, ◌≤◌, IfErr, IfNone, IfOk, IfSome, get_or, length, take};
ghost use Rattle.lsm_resp.specs.declared.limits.TheConstants.{MAX_LINE_BYTES};
ghost use Rattle.lsm_resp.specs.Lines.{FindsEnd, FindsLine, is_blank, line_words};
ghost use Rattle.lsm_resp.specs.Outcomes.{IsRequest, OfProtocol, bytes_before};
ghost use Rattle.lsm_resp.specs.Requests.{words_of};
ghost use Rattle.lsm_resp.specs.declared.fault.ProtocolFault.TheVariants.{LineTooLong};

use crate::bulk::Bulks;
use crate::find::index_of;
use crate::{MAX_LINE_BYTES, ParseError, ProtocolFault};
use std::alloc::{AllocError, Global};

/// The words of the line ahead, or `None` if its end has not come. A line of blanks has none.
pub(crate) fn read_inline(alloc: Global, input: &[u8]) -> Result<Option<Bulks<'_>>, ParseError>
    requires { get_or input.now 0 0 ≢ 42 }
    ensures line { FindsLine input.now result }
    ensures within { IfOk result (λ found. IfSome found (λ bulks. (0 < bulks.len) × (bulks.len ≤ length input.now))) }
    ensures light { IfOk result (λ found. IfSome found (λ bulks. bulks.len ≤ MAX_LINE_BYTES + 1)) }
    ensures enough { IfOk result (λ found. IfNone found (length input.now ≤ MAX_LINE_BYTES)) }
    ensures words { IfOk result (λ found. IfSome found (λ bulks. IsRequest (words_of bulks.words.items) (take bulks.len input.now))) }
    ensures part { IfOk result (λ found. IfNone found (bytes_before 10 input.now ≡ length input.now)) }
    ensures refused { IfErr result (OfProtocol (λ why. (why ≡ LineTooLong) × (MAX_LINE_BYTES < bytes_before 10 input.now))) }
{
    let Some(end) = line_end(input)? else {
        return Ok(None);
    };
    let (line, _) = input.split_at(end);
    let words = words_in(alloc, line)?;
    Ok(Some(Bulks {
        words,
        len: end + 1,
    }))
}

/// The index of the first line feed, or `None` if it has not come.
fn line_end(input: &[u8]) -> Result<Option<usize>, ProtocolFault>
    ensures line { FindsEnd input.now result }
    ensures value { IfOk result (λ found. IfSome found (λ end. end ≡ bytes_before 10 input.now)) }
    ensures part { IfOk result (λ found. IfNone found (bytes_before 10 input.now ≡ length input.now)) }
    ensures refused { IfErr result (λ why. (why ≡ LineTooLong) × (MAX_LINE_BYTES < bytes_before 10 input.now)) }
    ensures within { IfOk result (λ found. IfSome found (λ end. (end < length input.now) × (end ≤ MAX_LINE_BYTES))) }
    ensures enough { IfOk result (λ found. IfNone found (length input.now ≤ MAX_LINE_BYTES)) }
{
    let at = index_of(input, b'\n');
    if at > MAX_LINE_BYTES {
        return Err(ProtocolFault::LineTooLong);
    }
    if at == input.len() {
        return Ok(None);
    }
    Ok(Some(at))
}

/// The words of a line, which blanks part.
fn words_in(alloc: Global, line: &[u8]) -> Result<Vec<&[u8]>, AllocError>
    ensures { IfOk result (λ words. words_of words.items ≡ line_words line.now) }
{
    line.split(|byte| is_blank(*byte))
        .filter(|word| !word.is_empty())
        .collect(alloc)
}

fn is_blank(byte: u8) -> bool
    ensures { result ≡ is_blank byte }
{
    byte == b' ' || byte == b'\t' || byte == b'\r'
}
