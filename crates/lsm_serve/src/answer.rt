//! What is answered to a request, by the command that its first word names. Each kind of command has a file of its own.

ghost use Rattle.std.specs.Prelude.{◌≡◌, IfOk, OnErr};
ghost use Rattle.lsm_resp.specs.Requests.{words_of};
ghost use Rattle.lsm_serve.specs.Answers.{AnswersRequest, AnswersCommand};

mod arguments;
mod figures;
mod keys;
mod plain;
mod range;
mod values;
mod writes;

use crate::{Command, CommandRefusal};
pub(crate) use arguments::one;
use lsm_key::Seq;
use lsm_resp::RespReply;
use lsm_store::Store;
use lsm_vault::Vault;
use std::alloc::{AllocError, Global};

/// What is answered to a request.
#[derive(Debug, Drop)]
pub enum Answer {
    Reply(RespReply),
    Refused(CommandRefusal),
}

/// Answers a request: a command's name, and its arguments. Without a name it is refused as unknown. `INFO` has the sequence up to which
/// the store was synced last. If memory runs out before it is answered, the store is as it was.
pub fn answer_request<V: Vault>(
    alloc: Global,
    store: &mut Store<V>,
    synced: Seq,
    words: &[&[u8]],
) -> Result<Answer, AllocError>
    ensures ok { IfOk result (λ answer. AnswersRequest synced store.old (words_of words.now) answer store.new) }
    ensures err { OnErr result (store.new ≡ store.old) }
{
    let Some((name, args)) = words.split_first() else {
        return Ok(Answer::Refused(CommandRefusal::UnknownCommand));
    };
    match Command::of(name) {
        None => Ok(Answer::Refused(CommandRefusal::UnknownCommand)),
        Some(command) => answer_command(alloc, store, synced, command, args),
    }
}

/// Answers a command.
fn answer_command<V: Vault>(
    alloc: Global,
    store: &mut Store<V>,
    synced: Seq,
    command: Command,
    args: &[&[u8]],
) -> Result<Answer, AllocError>
    ensures ok { IfOk result (λ answer. AnswersCommand synced store.old command (words_of args.now) answer store.new) }
    ensures err { OnErr result (store.new ≡ store.old) }
{
    match command {
        Command::Ping => plain::ping(alloc, args),
        Command::Echo => plain::echo(alloc, args),
        Command::Set => Ok(writes::set(store, args)),
        Command::Get => Ok(values::get(store, args)),
        Command::Delete => Ok(keys::delete(store, args)),
        Command::Exists => Ok(keys::exists(store, args)),
        Command::MultiGet => Ok(values::get_all(alloc, store, args)),
        Command::MultiSet => Ok(writes::set_all(alloc, store, args)),
        Command::Range => range::range(alloc, store, args),
        Command::Save => Ok(writes::save(store, args)),
        Command::Info => figures::info(alloc, store, synced),
        Command::Describe => Ok(plain::nothing(alloc)),
        Command::Config => Ok(plain::config(alloc, args)),
        Command::Select => Ok(plain::select(args)),
        Command::Quit => Ok(plain::quit(args)),
    }
}
