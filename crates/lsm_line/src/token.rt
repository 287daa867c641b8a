//! Keys and values as scripts write them: the word `""` is the empty text; otherwise `%` and two hexadecimal digits are
//! that byte, and any other byte from `!` to `~` is itself.

ghost use Rattle.std.specs.Prelude.{◌≡◌, ◌<◌, IfOk, length};
ghost use Rattle.lsm_key.specs.Reading.{Gives};
ghost use Rattle.lsm_line.specs.Tokens.{hex, escape, literal, onto, read_bytes, token};
ghost use Rattle.lsm_line.specs.Commands.{key_or_value};

use crate::fault::Reason;
use bytes::Bytes;
use lsm_key::Refused;
use std::alloc::{AllocError, Global};

/// The value of a hexadecimal digit.
fn read_hex(byte: u8) -> Option<u8>
    ensures { result ≡ hex byte }
{
    match byte {
        b'0'..=b'9' => Some(byte - b'0'),
        b'a'..=b'f' => Some(byte - b'a' + 10),
        b'A'..=b'F' => Some(byte - b'A' + 10),
        _ => None,
    }
}

/// The byte of two hexadecimal digits.
fn read_escape(high: u8, low: u8) -> Option<u8>
    ensures { result ≡ escape high low }
{
    Some(read_hex(high)? * 16 + read_hex(low)?)
}

/// A byte that is written as itself.
fn read_literal(byte: u8) -> Option<u8>
    ensures { result ≡ literal byte }
{
    if byte < b'!' || byte > b'~' || byte == b'%' {
        None
    } else {
        Some(byte)
    }
}

/// The first byte that the word encodes, and the rest of the word.
fn read_first(word: &[u8]) -> (Option<u8>, &[u8])
    requires { 0 < length word.now }
    ensures value { read_bytes word.now ≡ onto result.0 (read_bytes result.1.now) }
    ensures shorter { length result.1.now < length word.now }
{
    let first = word[0];
    if first != b'%' {
        (read_literal(first), &word[1..])
    } else if word.len() < 3 {
        (None, &word[1..])
    } else {
        (read_escape(word[1], word[2]), &word[3..])
    }
}

/// The bytes that a key or value word means, or `None` if it is no such word.
#[tactic(auto, unfolding(crate::specs::Tokens::token))]
pub fn read_token(alloc: Global, word: &[u8]) -> Result<Option<Bytes>, AllocError>
    ensures { IfOk result (λ bytes. bytes ≡ token word.now) }
{
    if word == b"\"\"".as_slice() {
        return Ok(Some(Bytes::new()));
    }
    let mut bytes = Vec::with_capacity(alloc, word.len())?;
    let mut rest = word;
    while !rest.is_empty() {
        let (Some(byte), after) = read_first(rest) else {
            return Ok(None);
        };
        bytes.push(byte)?;
        rest = after;
    }
    Ok(Some(Bytes::from_vec(bytes)?))
}

/// The bytes of a word that must be a key or a value.
pub fn key_or_value(alloc: Global, word: &[u8]) -> Result<Bytes, Refused<Reason>>
    ensures { Gives (λ bytes. bytes) result (key_or_value word.now) }
{
    read_token(alloc, word)?.ok_or(Refused::Fault(Reason::BadToken))
}
