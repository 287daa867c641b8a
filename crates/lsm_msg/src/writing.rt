//! Writing a message as bytes.
//!
//! A message, its numbers big-endian:
//!
//!     4 bytes   the letters LSMM
//!     1 byte    version: 2 if a key in its own fields has more than 1,024 bytes, else 1
//!     1 byte    kind, 1 to 9, as below
//!     2 bytes   sender: role, 0 for the coordinator, 1 for a worker, 2 for a follower; then its number, from 1, or 0
//!     2 bytes   receiver, as the sender
//!               the body, which depends on the kind
//!
//! The bodies:
//!
//!     1 job     job name, u8 level, u32 block target; u8 count of points, u64 each; u16 count of inputs, a file record
//!               each; u32 count of deeper ranges, two keys each
//!     2 fetch   u64 file number
//!     3 table   u64 file number, and the table
//!     4 gone    u64 file number
//!     5 result  job name; u32 count of tables, and each of them
//!     6 ask     u64 version number
//!     7 edit    the edit, as in a manifest
//!     8 base    the whole version
//!     9 current u64 version number
//!
//! A job name is u64 epoch and u64 number. A table is u32 length and its bytes. A key is u16 length and its bytes. File
//! records, edits and versions are as `lsm_edit` writes them. docs/FORMATS.md has each field's range, and examples.

mod job;
mod result;

ghost use Rattle.std.specs.Prelude.{◌≡◌, ◌++◌, ◌≤◌, IfErr, OnOk, length};
ghost use Rattle.std.specs.Int.{w64, to_be_bytes};
ghost use Rattle.lsm_edit.specs.File.{size};
ghost use Rattle.lsm_key.specs.declared.refused.Refused.TheVariants.{OutOfMemory};
ghost use Rattle.lsm_key.specs.Reading.{Gives};
ghost use Rattle.lsm_msg.specs.declared.message.TheConstants.{MAX_MESSAGE_BYTES};
ghost use Rattle.lsm_msg.specs.Messages.{AreTableBytes, IsBody, body_text, encoding, message, node, sized};

use crate::fault::{MsgError, MsgFault};
use crate::kind::MessageKind;
use crate::message::{Body, MAX_MESSAGE_BYTES, Message};
use crate::node::Node;
use crate::reading::MAGIC;
use crate::version::version_of;
use bytes::{BufMut, Bytes, BytesMut};
use job::{job_bytes, write_job};
use lsm_edit::{base_bytes, edit_bytes, write_base, write_edit};
use lsm_key::{FileNumber, Refused};
use result::{result_bytes, write_result, write_sized};
use std::alloc::{AllocError, Global};

// The size of a message without its body: the letters, the version, the kind and two nodes of two bytes.
const HEAD_BYTES: usize = 10;

/// The one encoding of the message. Refuses as `TooLarge` if it has more bytes than `MAX_MESSAGE_BYTES`, before it takes
/// memory.
pub fn encode(alloc: Global, m: &Message) -> Result<Bytes, MsgError>
    requires { IsBody m.now.body }
    ensures exact { Gives (λ b. b) result (encoding m.now) }
    // A message that is too large is refused as that, also if there is no memory.
    ensures fits { IfErr result (λ e. e ≡ OutOfMemory → length (message m.now) ≤ MAX_MESSAGE_BYTES) }
{
    let size = body_bytes(&m.body).saturating_add(HEAD_BYTES);
    if size > MAX_MESSAGE_BYTES {
        return Err(Refused::Fault(MsgFault::TooLarge));
    }
    let mut out = BytesMut::with_capacity(alloc, size)?;
    write_message(&mut out, m)?;
    Ok(out.freeze()?)
}

// Appends the message.
fn write_message(out: &mut BytesMut, m: &Message) -> Result<(), AllocError>
    requires body { IsBody m.now.body }
    requires small { length (body_text m.now.body) ≤ MAX_MESSAGE_BYTES }
    ensures { OnOk result (out.new.items ≡ out.old.items ++ message m.now) }
{
    out.put_u32(MAGIC)?;
    out.put_u8(version_of(&m.body))?;
    out.put_u8(MessageKind::of(&m.body).code())?;
    write_node(out, m.src)?;
    write_node(out, m.dst)?;
    write_body(out, &m.body)?;
    Ok(())
}

// Appends the code of the node's role, and its number.
fn write_node(out: &mut BytesMut, n: Node) -> Result<(), AllocError>
    ensures { OnOk result (out.new.items ≡ out.old.items ++ node n) }
{
    let (role, index) = match n {
        Node::Coordinator => (0, 0),
        Node::Worker(index) => (1, index.number()),
        Node::Follower(index) => (2, index.number()),
    };
    out.put_u8(role)?;
    out.put_u8(index)?;
    Ok(())
}

// Appends the body.
fn write_body(out: &mut BytesMut, body: &Body) -> Result<(), AllocError>
    requires sound { IsBody body.now }
    requires small { length (body_text body.now) ≤ MAX_MESSAGE_BYTES }
    ensures { OnOk result (out.new.items ≡ out.old.items ++ body_text body.now) }
{
    match body {
        Body::Job(job) => write_job(out, job),
        Body::Fetch(number) => out.put_u64(number.number()),
        Body::Table(number, table) => write_table(out, *number, table),
        Body::Gone(number) => out.put_u64(number.number()),
        Body::Result(made) => write_result(out, made),
        Body::Ask(number) => out.put_u64(number.number()),
        Body::Edit(edit) => write_edit(out, edit),
        Body::Base(version) => write_base(out, version),
        Body::Current(number) => out.put_u64(number.number()),
    }
}

// Appends the number of a file, and its table.
fn write_table(out: &mut BytesMut, number: FileNumber, table: &Bytes) -> Result<(), AllocError>
    requires { AreTableBytes table.now }
    ensures { OnOk result (out.new.items ≡ out.old.items ++ (to_be_bytes w64 number ++ sized table.now)) }
{
    out.put_u64(number.number())?;
    write_sized(out, table)?;
    Ok(())
}

// How many bytes the body has, at most `usize::MAX`.
fn body_bytes(body: &Body) -> usize
    requires { IsBody body.now }
    ensures { result ≡ size (body_text body.now) }
{
    match body {
        Body::Job(job) => job_bytes(job),
        Body::Table(_, table) => 12 + table.len(),
        Body::Result(made) => result_bytes(made),
        Body::Edit(edit) => edit_bytes(edit),
        Body::Base(version) => base_bytes(version),
        Body::Fetch(_) | Body::Gone(_) | Body::Ask(_) | Body::Current(_) => 8,
    }
}
