//! Lines that announce how many words or bytes follow: a mark, decimal digits, and a line end.

ghost use Rattle.std.specs.Prelude.{◌≡◌, ◌<◌, ◌≤◌, ◌↔◌, ◌^◌, IfErr, IfNone, IfOk, IfSome, IsTrue, drop, get_or, length, take};
ghost use Rattle.std.specs.Fmt.{decimal};
ghost use Rattle.lsm_resp.specs.Enough.{enough_for_header};
ghost use Rattle.lsm_resp.specs.Outcomes.{IsNoLength, IsPartOfLength};
ghost use Rattle.lsm_resp.specs.Pieces.{FindsHeader, IsPlainNumber, ReadsNumber};
ghost use Rattle.lsm_resp.specs.Wire.{header_bytes};
ghost use Rattle.lsm_resp.specs.declared.fault.ProtocolFault.TheVariants.{BadLength};

use crate::ProtocolFault;
use crate::find::index_of;
use crate::limits::MAX_HEADER_BYTES;

/// A number, and how many bytes spell it with its mark and its line end.
#[derive(Clone, Copy, Debug, PartialEq, Eq)]
pub(crate) struct Header {
    pub(crate) number: usize,
    pub(crate) len: usize,
}

/// The number that decimal digits spell, below 2^64: without a sign, and with no zero in front.
pub fn read_number(digits: &[u8]) -> Option<u64>
    ensures read { ReadsNumber digits.now result }
    ensures only { IfSome result (λ n. digits.now ≡ decimal n) }
{
    if !is_plain(digits) {
        return None;
    }
    match str::from_utf8(digits) {
        Err(_) => None,
        Ok(text) => text.parse().ok(),
    }
}

/// Whether neither a sign nor a zero stands before other digits.
fn is_plain(digits: &[u8]) -> bool
    ensures { IsTrue result ↔ IsPlainNumber digits.now }
{
    digits.len() == 1 || (!digits.is_empty() && digits[0] > b'0')
}

/// What the line ahead announces, or `None` if its end has not come. The mark is not looked at.
pub(crate) fn read_header(input: &[u8]) -> Result<Option<Header>, ProtocolFault>
    ensures found { FindsHeader input.now result }
    ensures within { IfOk result (λ found. IfSome found (λ header. (0 < header.len) × (header.len ≤ length input.now))) }
    ensures light { IfOk result (λ found. IfSome found (λ header. header.len ≤ enough_for_header)) }
    ensures enough { IfOk result (λ found. IfNone found (length input.now < enough_for_header)) }
    ensures number { IfOk result (λ found. IfSome found (λ header. (header.number < 2 ^ 64) × (take header.len input.now ≡ header_bytes (get_or input.now 0 0) header.number))) }
    ensures part { IfOk result (λ found. IfNone found (IsPartOfLength (drop 1 input.now))) }
    ensures refused { IfErr result (λ why. (why ≡ BadLength) × IsNoLength (drop 1 input.now)) }
{
    let Some((_, rest)) = input.split_first() else {
        return Ok(None);
    };
    let at = index_of(rest, b'\r');
    if at >= MAX_HEADER_BYTES {
        return Err(ProtocolFault::BadLength);
    }
    if rest.len() < at + 2 {
        return Ok(None);
    }
    if rest[at + 1] != b'\n' {
        return Err(ProtocolFault::BadLength);
    }
    let (digits, _) = rest.split_at(at);
    match read_number(digits) {
        None => Err(ProtocolFault::BadLength),
        Some(number) => Ok(Some(Header {
            number: number as usize,
            len: at + 3,
        })),
    }
}
