//! Commands that write: `SET`, `MSET`, and `SAVE`, which brings what was written into tables.

ghost use Rattle.std.specs.Prelude.{◌≡◌, ◌++◌, ◌∷◌, [], IfErr, IfOk, OnErr, OnOk};
ghost use Rattle.lsm_resp.specs.Requests.{words_of};
ghost use Rattle.lsm_store.specs.Store.{Accepts, Keeps};
ghost use Rattle.lsm_key.specs.declared.op.Op.TheVariants.{Put};
ghost use Rattle.lsm_serve.specs.Answers.{AnswersSave, AnswersSet, AnswersSetAll, PutsRefuse, Saves, Sets, puts, refused_set};

use super::arguments::{are_pairs, two};
use super::plain::done;
use crate::{Answer, Command, CommandRefusal};
use bytes::Bytes;
use lsm_key::{Batch, Op};
use lsm_store::{Store, StoreError};
use lsm_vault::Vault;
use std::alloc::{AllocError, Global};

pub(crate) fn set<V: Vault>(store: &mut Store<V>, args: &[&[u8]]) -> Answer
    ensures { AnswersSet store.old (words_of args.now) result store.new }
{
    match two(args) {
        Some((key, value)) => set_key(store, key, value),
        None => refused_set(args.len()),
    }
}

/// Why this number of arguments is refused.
fn refused_set(count: usize) -> Answer
    ensures { result ≡ refused_set count }
{
    if count > 2 {
        Answer::Refused(CommandRefusal::Syntax)
    } else {
        Answer::Refused(CommandRefusal::WrongCount(Command::Set))
    }
}

fn set_key<V: Vault>(store: &mut Store<V>, key: &[u8], value: &[u8]) -> Answer
    ensures { Sets store.old key.now value.now result store.new }
{
    match store.put(key, value) {
        Ok(()) => done(),
        Err(why) => Answer::Refused(CommandRefusal::Store(why)),
    }
}

pub(crate) fn set_all<V: Vault>(alloc: Global, store: &mut Store<V>, args: &[&[u8]]) -> Answer
    ensures { AnswersSetAll store.old (words_of args.now) result store.new }
{
    if !are_pairs(args) {
        return Answer::Refused(CommandRefusal::WrongCount(Command::MultiSet));
    }
    match write_puts(alloc, store, args) {
        Ok(()) => done(),
        Err(why) => Answer::Refused(CommandRefusal::Store(why)),
    }
}

pub(crate) fn save<V: Vault>(store: &mut Store<V>, args: &[&[u8]]) -> Answer
    ensures { AnswersSave store.old (words_of args.now) result store.new }
{
    if args.is_empty() {
        flush(store)
    } else {
        Answer::Refused(CommandRefusal::WrongCount(Command::Save))
    }
}

fn flush<V: Vault>(store: &mut Store<V>) -> Answer
    ensures { Saves store.old result store.new }
{
    match store.flush() {
        Ok(()) => done(),
        Err(why) => Answer::Refused(CommandRefusal::Store(why)),
    }
}

/// Puts keys, each with the value behind it, as one batch.
fn write_puts<V: Vault>(
    alloc: Global,
    store: &mut Store<V>,
    pairs: &[&[u8]],
) -> Result<(), StoreError>
    ensures ok { OnOk result (Accepts store.old (puts (words_of pairs.now)) store.new) }
    ensures err { OnErr result (Keeps store.old store.new) }
    ensures refused { IfErr result (PutsRefuse store.old (words_of pairs.now) store.new) }
{
    let ops = puts_of(alloc, pairs)?;
    let batch = Batch::from_vec(ops)?;
    store.write(&batch)
}

/// A put of each key with the value behind it.
fn puts_of(alloc: Global, pairs: &[&[u8]]) -> Result<Vec<Op>, AllocError>
    ensures { IfOk result (λ ops. ops.items ≡ puts (words_of pairs.now)) }
{
    let mut ops = Vec::new(alloc);
    for i in 0..pairs.len() / 2 {
        let op = put_of(alloc, pairs[2 * i], pairs[2 * i + 1])?;
        push(&mut ops, op)?;
    }
    Ok(ops)
}

fn push(ops: &mut Vec<Op>, op: Op) -> Result<(), AllocError>
    ensures { OnOk result (ops.new.items ≡ ops.old.items ++ op ∷ []) }
{
    match ops.push(op) {
        Ok(()) => Ok(()),
        Err(_) => Err(AllocError),
    }
}

fn put_of(alloc: Global, key: &[u8], value: &[u8]) -> Result<Op, AllocError>
    ensures { IfOk result (λ op. op ≡ Put key.now value.now) }
{
    let key = Bytes::copy_from_slice(alloc, key)?;
    let value = Bytes::copy_from_slice(alloc, value)?;
    Ok(Op::Put(key, value))
}
