//! The pairs of a range as lines.

ghost use Rattle.std.specs.Prelude.{◌≡◌, ◌++◌, [], IfOk, OnOk};
ghost use Rattle.lsm_commands.specs.Once.{IsOfAll, WritesPairs, pair_line};

use crate::CommandError;
use bytes::Bytes;
use lsm_io::write_out;
use lsm_key::MAX_KEY_BYTES;
use lsm_line::{write_bytes, write_line_end, write_text};
use lsm_store::Store;
use lsm_vault::Vault;
use std::alloc::{AllocError, Global};
use std::io::Write;

/// How many bytes of lines are kept back before they are written.
const BUFFER_BYTES: usize = 65_536;

/// Which pairs are written, and what stands before each.
#[derive(Drop)]
pub(crate) struct PairRange {
    lo: Bytes,
    hi: Bytes,
    limit: u64,
    head: &'static str,
}

impl PairRange {
    /// The first pairs from a key up to another one, at most `limit` of them: lines `KEY VALUE`.
    pub(crate) fn between(lo: Bytes, hi: Bytes, limit: u64) -> PairRange
        ensures { (result.lo ≡ lo) × (result.hi ≡ hi) × (result.limit ≡ limit) × (result.head.now ≡ []) }
    {
        PairRange {
            lo,
            hi,
            limit,
            head: "",
        }
    }

    /// All pairs: lines `put KEY VALUE`.
    pub(crate) fn all(alloc: Global) -> Result<PairRange, AllocError>
        ensures { IfOk result IsOfAll }
    {
        // No key is as long, so each comes before this one.
        let hi = vec![in alloc; 0xff; MAX_KEY_BYTES + 1]?;
        Ok(PairRange {
            lo: Bytes::new(),
            hi: Bytes::from_vec(hi)?,
            limit: u64::MAX,
            head: "put ",
        })
    }
}

/// Writes a line for each pair of a range, ascending by key. All are of one state of the store.
pub(crate) fn write_pairs<V: Vault, W: Write>(
    alloc: Global,
    store: &Store<V>,
    range: &PairRange,
    writer: &mut W,
) -> Result<(), CommandError>
    ensures { OnOk result (WritesPairs store.now range.now (W.contents writer.old) (W.contents writer.new)) }
{
    let mut out = Vec::new(alloc);
    let mut left = range.limit;
    let mut pairs = store.range(&range.lo, &range.hi, None)?;
    while left > 0 {
        let Some(pair) = pairs.next() else {
            break;
        };
        let (key, value) = pair?;
        left -= 1;
        write_pair(&mut out, range.head, &key, &value)?;
        if out.len() >= BUFFER_BYTES {
            write_out(writer, &mut out)?;
        }
    }
    Ok(write_out(writer, &mut out)?)
}

// The line of a pair.
fn write_pair(out: &mut Vec<u8>, head: &str, key: &Bytes, value: &Bytes) -> Result<(), AllocError>
    ensures { OnOk result (out.new.items ≡ out.old.items ++ pair_line head.now (key.now, value.now)) }
{
    write_text(out, head)?;
    write_bytes(out, key.as_slice())?;
    write_text(out, " ")?;
    write_bytes(out, value.as_slice())?;
    write_line_end(out)
}
