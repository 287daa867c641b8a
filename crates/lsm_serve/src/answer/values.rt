//! Commands that read values: `GET`, and `MGET` for several keys.

ghost use Rattle.std.specs.Prelude.{◌≡◌, ◌++◌, ◌∷◌, [], IfErr, IfOk, OnOk, Some};
ghost use Rattle.lsm_resp.specs.Requests.{words_of};
ghost use Rattle.lsm_store.specs.Store.{OfCoord};
ghost use Rattle.lsm_serve.specs.Answers.{AnswersGet, AnswersGetAll, AnswersKey, IsShortOfMemory, ReadsAll};

use super::arguments::one;
use crate::{Answer, Command, CommandRefusal};
use bytes::Bytes;
use lsm_key::Items;
use lsm_resp::RespReply;
use lsm_store::{Store, StoreError};
use lsm_vault::Vault;
use std::alloc::{AllocError, Global};

pub(crate) fn get<V: Vault>(store: &mut Store<V>, args: &[&[u8]]) -> Answer
    ensures { AnswersGet store.old (words_of args.now) result store.new }
{
    match one(args) {
        Some(key) => get_key(store, key),
        None => Answer::Refused(CommandRefusal::WrongCount(Command::Get)),
    }
}

fn get_key<V: Vault>(store: &mut Store<V>, key: &[u8]) -> Answer
    ensures { AnswersKey store.old key.now result store.new }
{
    match store.get(key, None) {
        Ok(value) => Answer::Reply(RespReply::Bulk(value)),
        Err(why) => Answer::Refused(CommandRefusal::Store(why)),
    }
}

pub(crate) fn get_all<V: Vault>(alloc: Global, store: &mut Store<V>, args: &[&[u8]]) -> Answer
    ensures { AnswersGetAll store.old (words_of args.now) result store.new }
{
    if args.is_empty() {
        return Answer::Refused(CommandRefusal::WrongCount(Command::MultiGet));
    }
    match values_of(alloc, store, args) {
        Ok(values) => Answer::Reply(RespReply::Array(Items::from_vec(values))),
        Err(why) => Answer::Refused(CommandRefusal::Store(why)),
    }
}

/// The value of each key.
fn values_of<V: Vault>(
    alloc: Global,
    store: &mut Store<V>,
    keys: &[&[u8]],
) -> Result<Vec<Option<Bytes>>, StoreError>
    ensures ok { IfOk result (λ values. ReadsAll store.old (words_of keys.now) values.items) }
    ensures refused { IfErr result IsShortOfMemory }
    ensures same { store.new ≡ store.old }
{
    let mut values = Vec::with_capacity(alloc, keys.len())?;
    for key in keys {
        let value = store.get(key, None)?;
        push(&mut values, value)?;
    }
    Ok(values)
}

fn push(values: &mut Vec<Option<Bytes>>, value: Option<Bytes>) -> Result<(), AllocError>
    ensures { OnOk result (values.new.items ≡ values.old.items ++ value ∷ []) }
{
    match values.push(value) {
        Ok(()) => Ok(()),
        Err(_) => Err(AllocError),
    }
}
