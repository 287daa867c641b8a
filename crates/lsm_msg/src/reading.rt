//! Reading a message's bytes.
//!
//! A message is encoded as: the letters `LSMM`, u8 version, u8 kind (1 job, 2 fetch, 3 table, 4 gone, 5 result, 6 ask,
//! 7 edit, 8 base, 9 current), its sender and its receiver (each u8 role: 0 coordinator, 1 worker, 2 follower; and u8
//! number), and its body. All numbers are big-endian. The version is 2 where a key in the message's own fields is longer
//! than `MAX_SHORT_KEY_BYTES`, and else 1; table bytes inside it do not count.

mod inputs;
mod job;
mod result;

ghost use Rattle.std.specs.Prelude.{◌≡◌, ◌≤◌, IfOk, Ok};
ghost use Rattle.lsm_key.specs.declared.limits.TheConstants.{MAX_KEY_BYTES};
ghost use Rattle.lsm_key.specs.Reading.{Gives};
ghost use Rattle.lsm_msg.specs.declared.message.Message.{Message};
ghost use Rattle.lsm_msg.specs.Messages.{IsSpelled};
ghost use Rattle.lsm_msg.specs.MessageReading.{node_from, node_at, file_number_at, version_number_at, table_body_at, body_at, message_at, read_message};

use crate::fault::{MsgError, MsgFault};
use crate::kind::{MessageKind, read_kind};
use crate::message::{Body, MAX_MESSAGE_BYTES, Message};
use crate::node::{Node, NodeIndex};
use crate::version::version_of;
use bytes::Bytes;
use job::read_job;
use lsm_edit::{read_base, read_edit};
use lsm_key::{
    FileNumber, MAX_NUMBER, Refused, VersionNumber, key_limit, know_bytes, read_ranged_u8,
    read_ranged_u64, read_u8, read_u32,
};
use result::{read_result, read_sized};
use std::alloc::Global;

/// The letters `LSMM`, with which a message begins.
pub(crate) const MAGIC: u32 = 0x4c53_4d4d;

pub(crate) const SHORT: MsgFault = MsgFault::Truncated;

pub(crate) const BAD: MsgFault = MsgFault::BadField;

/// The message that the bytes encode, all of the bytes, or the first fault. Its tables and keys share the bytes.
pub fn decode(alloc: Global, bytes: Bytes) -> Result<Message, MsgError>
    // What is decoded encodes to these bytes.
    ensures found { IfOk result (λ m. IsSpelled bytes m) }
    // What encodes to these bytes is decoded, unless memory runs out.
    ensures only { (m : Message) → IsSpelled bytes m → Gives (λ x. x) result (Ok m) }
    // The fault is the first one.
    ensures exact { Gives (λ x. x) result (read_message bytes) }
{
    know_bytes(&bytes);
    read_whole(alloc, bytes)
}

// The message that the bytes encode, with no byte left.
#[tactic(auto, unfolding(crate::specs::MessageReading::read_message))]
fn read_whole(alloc: Global, bytes: Bytes) -> Result<Message, MsgError>
    ensures { Gives (λ x. x) result (read_message bytes) }
{
    if bytes.len() > MAX_MESSAGE_BYTES {
        return Err(Refused::Fault(MsgFault::TooLarge));
    }
    let mut rest = bytes;
    let message = read_front(alloc, &mut rest)?;
    if !rest.is_empty() {
        return Err(Refused::Fault(MsgFault::TrailingBytes));
    }
    Ok(message)
}

// A message from the front.
#[tactic(auto, unfolding(crate::specs::MessageReading::message_at))]
fn read_front(alloc: Global, rest: &mut Bytes) -> Result<Message, MsgError>
    ensures { Gives (λ m. (m, rest.new)) result (message_at rest.old) }
{
    if read_u32(rest, SHORT)? != MAGIC {
        return Err(Refused::Fault(MsgFault::BadMagic));
    }
    let version = read_ranged_u8(rest, 1, 2, SHORT, MsgFault::BadVersion)?;
    let kind = read_kind(rest)?;
    let src = read_node(rest)?;
    let dst = read_node(rest)?;
    let body = read_body(alloc, kind, rest, key_limit(version))?;
    if version_of(&body) != version {
        return Err(Refused::Fault(MsgFault::NeedlessVersion));
    }
    Ok(Message { src, dst, body })
}

// A node from the front.
#[tactic(auto, unfolding(crate::specs::MessageReading::node_at))]
fn read_node(rest: &mut Bytes) -> Result<Node, MsgError>
    ensures { Gives (λ n. (n, rest.new)) result (node_at rest.old) }
{
    let role = read_ranged_u8(rest, 0, 2, SHORT, BAD)?;
    let index = read_u8(rest, SHORT)?;
    node_of(role, index)
}

// The node of a role and a number.
fn node_of(role: u8, index: u8) -> Result<Node, MsgError>
    ensures { Gives (λ n. n) result (node_from role index) }
{
    if role == 0 {
        if index == 0 {
            return Ok(Node::Coordinator);
        }
        return Err(Refused::Fault(BAD));
    }
    match NodeIndex::new(index) {
        None => Err(Refused::Fault(BAD)),
        Some(index) if role == 1 => Ok(Node::Worker(index)),
        Some(index) => Ok(Node::Follower(index)),
    }
}

// A body of the kind from the front, with keys of at most `max_key` bytes.
fn read_body(
    alloc: Global,
    kind: MessageKind,
    rest: &mut Bytes,
    max_key: usize,
) -> Result<Body, MsgError>
    requires { max_key ≤ MAX_KEY_BYTES }
    ensures { Gives (λ b. (b, rest.new)) result (body_at max_key kind rest.old) }
{
    match kind {
        MessageKind::Job => Ok(Body::Job(read_job(alloc, rest, max_key)?)),
        MessageKind::Fetch => Ok(Body::Fetch(read_file_number(rest)?)),
        MessageKind::Table => read_table(rest),
        MessageKind::Gone => Ok(Body::Gone(read_file_number(rest)?)),
        MessageKind::Result => Ok(Body::Result(read_result(alloc, rest)?)),
        MessageKind::Ask => Ok(Body::Ask(read_version_number(rest)?)),
        MessageKind::Edit => Ok(Body::Edit(read_edit(alloc, rest, max_key, SHORT, BAD)?)),
        MessageKind::Base => Ok(Body::Base(read_base(alloc, rest, max_key, SHORT, BAD)?)),
        MessageKind::Current => Ok(Body::Current(read_version_number(rest)?)),
    }
}

// A file's number and its table from the front.
#[tactic(auto, unfolding(crate::specs::MessageReading::table_body_at))]
fn read_table(rest: &mut Bytes) -> Result<Body, MsgError>
    ensures { Gives (λ b. (b, rest.new)) result (table_body_at rest.old) }
{
    let number = read_file_number(rest)?;
    let table = read_sized(rest)?;
    Ok(Body::Table(number, table))
}

fn read_file_number(rest: &mut Bytes) -> Result<FileNumber, MsgError>
    ensures { Gives (λ n. (n, rest.new)) result (file_number_at rest.old) }
{
    let number = read_ranged_u64(rest, 1, MAX_NUMBER, SHORT, BAD)?;
    Ok(FileNumber::new(number))
}

fn read_version_number(rest: &mut Bytes) -> Result<VersionNumber, MsgError>
    ensures { Gives (λ n. (n, rest.new)) result (version_number_at rest.old) }
{
    let number = read_ranged_u64(rest, 0, MAX_NUMBER, SHORT, BAD)?;
    Ok(VersionNumber::new(number))
}
