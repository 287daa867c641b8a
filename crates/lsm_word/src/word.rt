//! Keys and values as words: any bytes as text without a space, for whatever prints them.

use std::fmt;

/// A key or value as a script writes it: a byte from `!` to `~` except `%`, `"` and `=` as itself, any other as `%` and two
/// lower-case hexadecimal digits, and the empty text as `""`.
#[derive(Clone, Copy)]
pub struct Word<'a>(pub &'a [u8]);

impl fmt::Display for Word<'_> {
    fn fmt<W: fmt::Write>(&self, f: &mut fmt::Formatter<W>) -> fmt::Result {
        if self.0.is_empty() {
            return f.write_str("\"\"");
        }
        for byte in self.0 {
            if prints_as_itself(*byte) {
                f.write_char(char::from(*byte))?;
            } else {
                write!(f, "%{byte:02x}")?;
            }
        }
        Ok(())
    }
}

// Whether the byte prints as itself.
fn prints_as_itself(byte: u8) -> bool {
    byte.is_ascii_graphic() && !matches!(byte, b'%' | b'"' | b'=')
}
