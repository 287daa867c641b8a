//! Commands that do not ask the store.

ghost use Rattle.std.specs.Prelude.{◌≡◌, IfOk, Some, codes, []};
ghost use Rattle.lsm_resp.specs.declared.reply.RespReply.TheVariants.{Array, Bulk, Simple};
ghost use Rattle.lsm_resp.specs.Requests.{words_of};
ghost use Rattle.lsm_serve.specs.declared.answer.Answer.TheVariants.{Reply as InReply};
ghost use Rattle.lsm_serve.specs.Answers.{IsConfig, IsEcho, IsPing, IsQuit, IsSelect, SelectsIndex};

use super::arguments::one;
use crate::{Answer, Command, CommandRefusal};
use bytes::Bytes;
use lsm_key::Items;
use lsm_resp::RespReply;
use std::alloc::{AllocError, Global};

pub(crate) fn done() -> Answer
    ensures { result ≡ InReply (Simple (codes "OK")) }
{
    Answer::Reply(RespReply::Simple(Bytes::from_static(b"OK")))
}

fn pong() -> Answer
    ensures { result ≡ InReply (Simple (codes "PONG")) }
{
    Answer::Reply(RespReply::Simple(Bytes::from_static(b"PONG")))
}

/// An empty array.
pub(crate) fn nothing(alloc: Global) -> Answer
    ensures { result ≡ InReply (Array []) }
{
    Answer::Reply(RespReply::Array(Items::new(alloc)))
}

fn same(alloc: Global, message: &[u8]) -> Result<Answer, AllocError>
    ensures { IfOk result (λ answer. answer ≡ InReply (Bulk (Some message.now))) }
{
    Ok(Answer::Reply(RespReply::Bulk(Some(Bytes::copy_from_slice(alloc, message)?))))
}

pub(crate) fn ping(alloc: Global, args: &[&[u8]]) -> Result<Answer, AllocError>
    ensures { IfOk result (IsPing (words_of args.now)) }
{
    if args.is_empty() {
        return Ok(pong());
    }
    match one(args) {
        Some(message) => same(alloc, message),
        None => Ok(Answer::Refused(CommandRefusal::WrongCount(Command::Ping))),
    }
}

pub(crate) fn echo(alloc: Global, args: &[&[u8]]) -> Result<Answer, AllocError>
    ensures { IfOk result (IsEcho (words_of args.now)) }
{
    match one(args) {
        Some(message) => same(alloc, message),
        None => Ok(Answer::Refused(CommandRefusal::WrongCount(Command::Echo))),
    }
}

pub(crate) fn config(alloc: Global, args: &[&[u8]]) -> Answer
    ensures { IsConfig (words_of args.now) result }
{
    if args.is_empty() {
        return Answer::Refused(CommandRefusal::WrongCount(Command::Config));
    }
    nothing(alloc)
}

pub(crate) fn select(args: &[&[u8]]) -> Answer
    ensures { IsSelect (words_of args.now) result }
{
    match one(args) {
        Some(index) => select_index(index),
        None => Answer::Refused(CommandRefusal::WrongCount(Command::Select)),
    }
}

fn select_index(index: &[u8]) -> Answer
    ensures { SelectsIndex index.now result }
{
    if index.len() == 1 && index[0] == b'0' {
        return done();
    }
    Answer::Refused(CommandRefusal::NoDatabase)
}

pub(crate) fn quit(args: &[&[u8]]) -> Answer
    ensures { IsQuit (words_of args.now) result }
{
    if args.is_empty() {
        return done();
    }
    Answer::Refused(CommandRefusal::WrongCount(Command::Quit))
}
