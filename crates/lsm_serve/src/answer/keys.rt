//! Commands that count keys: `EXISTS`, and `DEL`, which counts the keys that it deletes.

ghost use Rattle.std.specs.Prelude.{◌≡◌, IfErr, IfOk, OnErr};
ghost use Rattle.lsm_resp.specs.Requests.{words_of};
ghost use Rattle.lsm_store.specs.Store.{Keeps, OpRefuses};
ghost use Rattle.lsm_key.specs.declared.op.Op.TheVariants.{Delete};
ghost use Rattle.lsm_serve.specs.Answers.{AnswersDelete, AnswersExists, CountsKeys, DeletesFirst, DeletesKey, DeletesKeys, IsShortOfMemory, KeyHasValue};

use crate::{Answer, Command, CommandRefusal};
use lsm_resp::RespReply;
use lsm_store::{Store, StoreError};
use lsm_vault::Vault;

pub(crate) fn exists<V: Vault>(store: &mut Store<V>, args: &[&[u8]]) -> Answer
    ensures { AnswersExists store.old (words_of args.now) result store.new }
{
    if args.is_empty() {
        return Answer::Refused(CommandRefusal::WrongCount(Command::Exists));
    }
    match count_keys(store, args) {
        Ok(count) => Answer::Reply(RespReply::Integer(count)),
        Err(why) => Answer::Refused(CommandRefusal::Store(why)),
    }
}

pub(crate) fn delete<V: Vault>(store: &mut Store<V>, args: &[&[u8]]) -> Answer
    ensures { AnswersDelete store.old (words_of args.now) result store.new }
{
    if args.is_empty() {
        return Answer::Refused(CommandRefusal::WrongCount(Command::Delete));
    }
    match delete_keys(store, args) {
        Ok(count) => Answer::Reply(RespReply::Integer(count)),
        Err(why) => Answer::Refused(CommandRefusal::Store(why)),
    }
}

/// How many of the keys have a value.
fn count_keys<V: Vault>(store: &mut Store<V>, keys: &[&[u8]]) -> Result<u64, StoreError>
    ensures ok { IfOk result (CountsKeys store.old (words_of keys.now)) }
    ensures refused { IfErr result IsShortOfMemory }
    ensures same { store.new ≡ store.old }
{
    let mut count = 0;
    for key in keys {
        count += u64::from(has_value(store, key)?);
    }
    Ok(count)
}

/// Whether a key has a value.
fn has_value<V: Vault>(store: &mut Store<V>, key: &[u8]) -> Result<bool, StoreError>
    ensures ok { IfOk result (KeyHasValue store.old key.now) }
    ensures refused { IfErr result IsShortOfMemory }
    ensures same { store.new ≡ store.old }
{
    match store.get(key, None)? {
        None => Ok(false),
        Some(_value) => Ok(true),
    }
}

/// Deletes the keys that have a value, in turn. Returns how many they were.
fn delete_keys<V: Vault>(store: &mut Store<V>, keys: &[&[u8]]) -> Result<u64, StoreError>
    ensures ok { IfOk result (λ count. DeletesKeys store.old (words_of keys.now) count store.new) }
    ensures refused { IfErr result (DeletesFirst store.old (words_of keys.now) store.new) }
{
    let mut count = 0;
    for key in keys {
        count += u64::from(delete_key(store, key)?);
    }
    Ok(count)
}

/// Deletes a key that has a value. Returns whether it had one.
fn delete_key<V: Vault>(store: &mut Store<V>, key: &[u8]) -> Result<bool, StoreError>
    ensures ok { IfOk result (λ had. DeletesKey store.old key.now had store.new) }
    ensures err { OnErr result (Keeps store.old store.new) }
    ensures refused { IfErr result (OpRefuses store.old (Delete key.now) store.new) }
{
    match store.get(key, None)? {
        None => Ok(false),
        Some(_value) => {
            store.delete(key)?;
            Ok(true)
        }
    }
}
