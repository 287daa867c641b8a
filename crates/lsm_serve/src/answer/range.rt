//! The command `RANGE`, which is the store's own: the pairs of a range of keys.

ghost use Rattle.std.specs.Prelude.{◌≡◌, ◌++◌, ◌∷◌, [], IfOk, OnOk, Some};
ghost use Rattle.lsm_resp.specs.Requests.{words_of};
ghost use Rattle.lsm_serve.specs.Answers.{AnswersRange, Ranges, RangesWithin, ReadsLimit, in_turn};

use super::arguments::three;
use crate::{Answer, Command, CommandRefusal};
use bytes::Bytes;
use lsm_key::Items;
use lsm_resp::{RespReply, read_number};
use lsm_store::Store;
use lsm_vault::Vault;
use std::alloc::{AllocError, Global};

/// The most keys that a `RANGE` may ask for: as many as an `MSET` may put.
pub(crate) const MAX_RANGE_KEYS: u64 = 1000;

pub(crate) fn range<V: Vault>(
    alloc: Global,
    store: &Store<V>,
    args: &[&[u8]],
) -> Result<Answer, AllocError>
    ensures { IfOk result (λ answer. AnswersRange store.now (words_of args.now) answer store.now) }
{
    match three(args) {
        Some((lo, hi, limit)) => range_of(alloc, store, lo, hi, limit),
        None => Ok(Answer::Refused(CommandRefusal::WrongCount(Command::Range))),
    }
}

fn range_of<V: Vault>(
    alloc: Global,
    store: &Store<V>,
    lo: &[u8],
    hi: &[u8],
    limit: &[u8],
) -> Result<Answer, AllocError>
    ensures { IfOk result (λ answer. Ranges store.now lo.now hi.now limit.now answer store.now) }
{
    match limit_of(limit) {
        Some(limit) => range_within(alloc, store, lo, hi, limit),
        None => Ok(Answer::Refused(CommandRefusal::NoNumber)),
    }
}

/// The limit that the word spells, if it is not too large.
fn limit_of(word: &[u8]) -> Option<u64>
    ensures { ReadsLimit word.now result }
{
    let limit = read_number(word)?;
    if limit <= MAX_RANGE_KEYS {
        Some(limit)
    } else {
        None
    }
}

fn range_within<V: Vault>(
    alloc: Global,
    store: &Store<V>,
    lo: &[u8],
    hi: &[u8],
    limit: u64,
) -> Result<Answer, AllocError>
    ensures { IfOk result (λ answer. RangesWithin store.now lo.now hi.now limit answer store.now) }
{
    match store.scan(lo, hi, None, limit) {
        Ok(pairs) => {
            let values = in_turn(alloc, &pairs)?;
            Ok(Answer::Reply(RespReply::Array(Items::from_vec(values))))
        }
        Err(why) => Ok(Answer::Refused(CommandRefusal::Store(why))),
    }
}

/// Each key with its value behind it. Shares the bytes.
fn in_turn(alloc: Global, pairs: &[(Bytes, Bytes)]) -> Result<Vec<Option<Bytes>>, AllocError>
    ensures { IfOk result (λ values. values.items ≡ in_turn pairs.now) }
{
    let mut values = Vec::new(alloc);
    for pair in pairs {
        push(&mut values, pair.0.clone()?)?;
        push(&mut values, pair.1.clone()?)?;
    }
    Ok(values)
}

fn push(values: &mut Vec<Option<Bytes>>, value: Bytes) -> Result<(), AllocError>
    ensures { OnOk result (values.new.items ≡ values.old.items ++ Some value ∷ []) }
{
    match values.push(Some(value)) {
        Ok(()) => Ok(()),
        Err(_) => Err(AllocError),
    }
}
