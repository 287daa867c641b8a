//! Pieces of lines: text, numbers, keys and values, appended to a buffer.

ghost use Rattle.std.specs.Prelude.{◌≡◌, ◌++◌, ◌∷◌, [], ◌<◌, OnOk, length};
ghost use Rattle.std.specs.Fmt.{decimal};
ghost use Rattle.lsm_line.specs.Lines.{hex_digit, prints_as_itself, byte_text, bytes_text, numbers_text, name_text};

use lsm_key::FileNumber;
use std::alloc::AllocError;
use std::io::Write;

/// Appends text.
pub fn write_text(out: &mut Vec<u8>, text: &str) -> Result<(), AllocError>
    ensures { OnOk result (out.new.items ≡ out.old.items ++ text.now) }
{
    out.extend_from_slice(text.as_bytes())
}

/// Appends the decimal digits of a number.
pub fn write_number(out: &mut Vec<u8>, number: u64) -> Result<(), AllocError>
    ensures { OnOk result (out.new.items ≡ out.old.items ++ decimal number) }
{
    write!(out, "{number}").map_err(|_| AllocError)
}

/// Appends an epoch and a number with a point between them.
pub fn write_name(out: &mut Vec<u8>, epoch: u64, number: u64) -> Result<(), AllocError>
    ensures { OnOk result (out.new.items ≡ out.old.items ++ name_text epoch number) }
{
    write_number(out, epoch)?;
    write_text(out, ".")?;
    write_number(out, number)
}

/// Appends the end of a line.
pub fn write_line_end(out: &mut Vec<u8>) -> Result<(), AllocError>
    ensures { OnOk result (out.new.items ≡ out.old.items ++ 10 ∷ []) }
{
    out.push(b'\n')?;
    Ok(())
}

/// The hexadecimal digit of a number below 16.
fn hex_digit(number: u8) -> u8
    requires { number < 16 }
    ensures { result ≡ hex_digit number }
{
    if number < 10 {
        b'0' + number
    } else {
        b'a' + (number - 10)
    }
}

/// Whether the byte prints as itself.
fn prints_as_itself(byte: u8) -> bool
    ensures { result ≡ prints_as_itself byte }
{
    byte >= b'!' && byte <= b'~' && !(byte == b'%' || byte == b'"' || byte == b'=')
}

/// Appends a byte of a key or value.
fn write_byte(out: &mut Vec<u8>, byte: u8) -> Result<(), AllocError>
    ensures { OnOk result (out.new.items ≡ out.old.items ++ byte_text byte) }
{
    if prints_as_itself(byte) {
        out.push(byte)?;
        Ok(())
    } else {
        out.extend_from_slice(&[b'%', hex_digit(byte / 16), hex_digit(byte % 16)])
    }
}

/// Appends a key or value: a byte from `!` to `~` except `%`, `"` and `=` as itself, any other as `%` and two
/// hexadecimal digits, and the empty text as `""`.
pub fn write_bytes(out: &mut Vec<u8>, bytes: &[u8]) -> Result<(), AllocError>
    ensures { OnOk result (out.new.items ≡ out.old.items ++ bytes_text bytes.now) }
{
    if bytes.is_empty() {
        return write_text(out, "\"\"");
    }
    for byte in bytes {
        write_byte(out, *byte)?;
    }
    Ok(())
}

/// Appends the numbers of files with commas between them.
pub fn write_numbers(out: &mut Vec<u8>, numbers: &[FileNumber]) -> Result<(), AllocError>
    ensures { OnOk result (out.new.items ≡ out.old.items ++ numbers_text numbers.now) }
{
    let Some((first, others)) = numbers.split_first() else {
        return Ok(());
    };
    write_number(out, first.number())?;
    for number in others {
        out.push(b',')?;
        write_number(out, number.number())?;
    }
    Ok(())
}
