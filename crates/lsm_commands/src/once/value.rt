//! The command `get`: the value of a key, as its bytes or as hexadecimal digits.

ghost use Rattle.std.specs.Prelude.{◌≡◌, ◌++◌, ◌∷◌, [], ◌<◌, IfOk, OnOk, Some};
ghost use Rattle.std.specs.List.{flat_map};
ghost use Rattle.lsm_line.specs.Lines.{hex_digit};
ghost use Rattle.lsm_commands.specs.Once.{WritesValue, hex_text, value_text};

use super::Form;
use crate::CommandError;
use bytes::Bytes;
use lsm_io::write_out;
use lsm_line::write_line_end;
use lsm_store::Store;
use lsm_vault::Vault;
use std::alloc::{AllocError, Global};
use std::io::Write;

/// Writes the value of a key. Returns whether it has one.
pub(crate) fn write_value<V: Vault, W: Write>(
    alloc: Global,
    store: &mut Store<V>,
    key: &Bytes,
    form: Form,
    writer: &mut W,
) -> Result<bool, CommandError>
    ensures written { IfOk result (WritesValue store.old key.now form (W.contents writer.old) (W.contents writer.new)) }
    ensures same { store.new ≡ store.old }
{
    let Some(value) = store.get(key.as_slice(), None)? else {
        return Ok(false);
    };
    let mut out = text_of(alloc, form, &value)?;
    write_out(writer, &mut out)?;
    Ok(true)
}

// The text of a value.
fn text_of(alloc: Global, form: Form, value: &Bytes) -> Result<Vec<u8>, AllocError>
    ensures { IfOk result (λ text. text.items ≡ value_text form (Some value.now)) }
{
    let mut text = Vec::new(alloc);
    match form {
        Form::Bytes => text.extend_from_slice(value.as_slice())?,
        Form::Hex => write_hex_line(&mut text, value.as_slice())?,
    }
    Ok(text)
}

// Appends a line of two hexadecimal digits a byte.
fn write_hex_line(out: &mut Vec<u8>, bytes: &[u8]) -> Result<(), AllocError>
    ensures { OnOk result (out.new.items ≡ out.old.items ++ flat_map hex_text bytes.now ++ 10 ∷ []) }
{
    for byte in bytes {
        out.extend_from_slice(&[hex_digit(*byte / 16), hex_digit(*byte % 16)])?;
    }
    write_line_end(out)
}

// The hexadecimal digit of a number below 16.
fn hex_digit(number: u8) -> u8
    requires { number < 16 }
    ensures { result ≡ hex_digit number }
{
    if number < 10 {
        b'0' + number
    } else {
        b'a' + (number - 10)
    }
}
