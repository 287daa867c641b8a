//! The command `scan`: what its words ask for, now or at a snapshot.

ghost use Rattle.std.specs.Prelude.{Ok, None};
ghost use Rattle.lsm_key.specs.Reading.{Gives};
ghost use Rattle.lsm_line.specs.Text.{words};
ghost use Rattle.lsm_line.specs.Commands.{call_event, number_or_fault, name_or_fault, reading_at, scan, scan_at, some_name};

use crate::call::Call;
use crate::fault::Reason;
use crate::number::read_number;
use crate::snapshot::{named, reading_at};
use crate::token::key_or_value;
use crate::words::Words;
use lsm_coord::ScanRange;
use lsm_key::Refused;
use std::alloc::Global;

/// `scan LO HI LIMIT`, or `scan LO HI LIMIT @E.N`
pub fn scan(alloc: Global, mut args: Words<'_>) -> Result<Call, Refused<Reason>>
    ensures { Gives call_event result (scan (words args.entry.rest.now)) }
{
    let (Some(lo), Some(hi), Some(limit)) = (args.next(), args.next(), args.next()) else {
        return Err(Refused::Fault(Reason::WrongWordCount));
    };
    match (args.next(), args.next()) {
        (None, _) => scan_now(alloc, lo, hi, limit),
        (Some(name), None) => scan_then(alloc, lo, hi, limit, name),
        (Some(_), Some(_)) => Err(Refused::Fault(Reason::WrongWordCount)),
    }
}

// At the latest sequence.
fn scan_now(alloc: Global, lo: &[u8], hi: &[u8], limit: &[u8]) -> Result<Call, Refused<Reason>>
    ensures { Gives call_event result (scan_at lo.now hi.now limit.now (Ok None)) }
{
    let lo = key_or_value(alloc, lo)?;
    let hi = key_or_value(alloc, hi)?;
    let limit = counted(read_number(limit))?;
    let at = None;
    Ok(Call::Scan(ScanRange { lo, hi, at, limit }))
}

// At the snapshot of this name.
fn scan_then(
    alloc: Global,
    lo: &[u8],
    hi: &[u8],
    limit: &[u8],
    name: &[u8],
) -> Result<Call, Refused<Reason>>
    ensures { Gives call_event result (scan_at lo.now hi.now limit.now (some_name (name_or_fault (reading_at name.now)))) }
{
    let lo = key_or_value(alloc, lo)?;
    let hi = key_or_value(alloc, hi)?;
    let limit = counted(read_number(limit))?;
    let at = Some(named(reading_at(name))?);
    Ok(Call::Scan(ScanRange { lo, hi, at, limit }))
}

/// The number that a word must be.
pub fn counted(number: Option<u64>) -> Result<u64, Refused<Reason>>
    ensures { Gives (λ n. n) result (number_or_fault number) }
{
    number.ok_or(Refused::Fault(Reason::BadNumber))
}
