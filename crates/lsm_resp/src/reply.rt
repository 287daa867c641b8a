//! Replies.

ghost use Rattle.std.specs.Prelude.{◌≡◌, ◌++◌, ◌∷◌, [], OnOk, length};
ghost use Rattle.std.specs.Fmt.{decimal};
ghost use Rattle.lsm_resp.specs.Wire.{bulk_bytes, bulk_or_null_bytes, bulks_bytes, header_bytes, line_bytes, reply_bytes};

use bytes::Bytes;
use lsm_key::Items;
use std::alloc::AllocError;
use std::io::Write;

/// A reply. Neither a simple string nor an error has a line end within.
#[derive(Debug, Drop)]
pub enum RespReply {
    Simple(Bytes),
    Error(Bytes),
    Integer(u64),
    /// A value, or null.
    Bulk(Option<Bytes>),
    /// Values and nulls.
    Array(Items<Option<Bytes>>),
}

/// Appends a reply's bytes.
pub fn write_reply(out: &mut Vec<u8>, reply: &RespReply) -> Result<(), AllocError>
    ensures { OnOk result (out.new.items ≡ out.old.items ++ reply_bytes reply.now) }
{
    match reply {
        RespReply::Simple(text) => write_line(out, b'+', text.as_slice()),
        RespReply::Error(text) => write_line(out, b'-', text.as_slice()),
        RespReply::Integer(number) => write_header(out, b':', *number),
        RespReply::Bulk(value) => write_bulk_or_null(out, value),
        RespReply::Array(values) => write_array(out, values.as_slice()),
    }
}

/// A mark, text, and a line end.
fn write_line(out: &mut Vec<u8>, mark: u8, text: &[u8]) -> Result<(), AllocError>
    ensures { OnOk result (out.new.items ≡ out.old.items ++ line_bytes mark text.now) }
{
    out.push(mark)?;
    out.extend_from_slice(text)?;
    write_line_end(out)
}

fn write_line_end(out: &mut Vec<u8>) -> Result<(), AllocError>
    ensures { OnOk result (out.new.items ≡ out.old.items ++ 13 ∷ 10 ∷ []) }
{
    out.extend_from_slice(b"\r\n")
}

fn write_decimal(out: &mut Vec<u8>, number: u64) -> Result<(), AllocError>
    ensures { OnOk result (out.new.items ≡ out.old.items ++ decimal number) }
{
    write!(out, "{number}").map_err(|_| AllocError)
}

/// A mark, a number in decimal digits, and a line end.
#[tactic(auto, unfolding(crate::specs::Wire::header_bytes))]
fn write_header(out: &mut Vec<u8>, mark: u8, number: u64) -> Result<(), AllocError>
    ensures { OnOk result (out.new.items ≡ out.old.items ++ header_bytes mark number) }
{
    out.push(mark)?;
    write_decimal(out, number)?;
    write_line_end(out)
}

#[tactic(auto, unfolding(crate::specs::Wire::bulk_bytes))]
fn write_bulk(out: &mut Vec<u8>, value: &[u8]) -> Result<(), AllocError>
    ensures { OnOk result (out.new.items ≡ out.old.items ++ bulk_bytes value.now) }
{
    write_header(out, b'$', value.len() as u64)?;
    out.extend_from_slice(value)?;
    write_line_end(out)
}

fn write_null(out: &mut Vec<u8>) -> Result<(), AllocError>
    ensures { OnOk result (out.new.items ≡ out.old.items ++ 36 ∷ 45 ∷ 49 ∷ 13 ∷ 10 ∷ []) }
{
    out.extend_from_slice(b"$-1\r\n")
}

fn write_bulk_or_null(out: &mut Vec<u8>, value: &Option<Bytes>) -> Result<(), AllocError>
    ensures { OnOk result (out.new.items ≡ out.old.items ++ bulk_or_null_bytes value.now) }
{
    match value {
        None => write_null(out),
        Some(value) => write_bulk(out, value.as_slice()),
    }
}

fn write_array(out: &mut Vec<u8>, values: &[Option<Bytes>]) -> Result<(), AllocError>
    ensures { OnOk result (out.new.items ≡ out.old.items ++ header_bytes 42 (length values.now) ++ bulks_bytes values.now) }
{
    write_header(out, b'*', values.len() as u64)?;
    for value in values {
        write_bulk_or_null(out, value)?;
    }
    Ok(())
}
