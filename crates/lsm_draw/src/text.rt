//! Texts within markup, and texts that fit their column.

ghost use Rattle.std.specs.Prelude.{◌≡◌, ◌+◌, ◌≤◌, Some, length, take, cond, not, nat_le, IsTrue, ◌↔◌, ◌<◌};
ghost use Rattle.lsm_draw.specs.Texts.{escaped, markup_of};

use std::fmt;

/// A text as it is written between tags: a byte from space to `~` as itself or as its entity, any other as `?`. So it is as
/// long, in characters, as it has bytes.
#[derive(Clone, Copy)]
pub struct Escaped<'a>(pub &'a [u8]);

impl fmt::Display for Escaped<'_> {
    ghost output = { λ e. Some (escaped e.0.now) };

    fn fmt<W: fmt::Write>(&self, f: &mut fmt::Formatter<W>) -> fmt::Result {
        for byte in self.0 {
            write!(f, "{}", Markup(*byte))?;
        }
        Ok(())
    }
}

// A byte of such a text.
#[derive(Clone, Copy)]
struct Markup(u8);

impl fmt::Display for Markup {
    ghost output = { λ m. Some (markup_of m.0) };

    fn fmt<W: fmt::Write>(&self, f: &mut fmt::Formatter<W>) -> fmt::Result {
        match self.0 {
            b'&' => write!(f, "&amp;"),
            b'<' => write!(f, "&lt;"),
            b'>' => write!(f, "&gt;"),
            b'"' => write!(f, "&quot;"),
            b'\'' => write!(f, "&#39;"),
            byte if byte >= b' ' && byte <= b'~' => write!(f, "{}", char::from(byte)),
            _ => write!(f, "?"),
        }
    }
}

/// The beginning of a text that has room in a column.
#[derive(Clone, Copy)]
pub(crate) struct Cut<'a> {
    pub kept: &'a [u8],
    /// An ellipsis stands after it.
    pub is_cut: bool,
}

impl<'a> Cut<'a> {
    /// The text, or its beginning and an ellipsis if it has more than `most` characters.
    pub(crate) fn to(text: &'a [u8], most: usize) -> Cut<'a>
        requires { 1 ≤ most }
        ensures fits { length result.kept.now + cond result.is_cut 1 0 ≤ most }
        ensures whole { IsTrue result.is_cut ↔ (most < length text.entry.now) }
        ensures beginning { result.kept.now ≡ take (length result.kept.now) text.entry.now }
    {
        if text.len() <= most {
            let is_cut = false;
            return Cut { kept: text, is_cut };
        }
        let is_cut = true;
        Cut {
            kept: &text[..most - 1],
            is_cut,
        }
    }
}

impl fmt::Display for Cut<'_> {
    fn fmt<W: fmt::Write>(&self, f: &mut fmt::Formatter<W>) -> fmt::Result {
        write!(f, "{}", Escaped(self.kept))?;
        if self.is_cut {
            write!(f, "\u{2026}")?;
        }
        Ok(())
    }
}
