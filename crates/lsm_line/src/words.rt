//! The lines of a text, and the words of a line.

ghost use Rattle.std.specs.Prelude.{◌≡◌, not, position};
ghost use Rattle.lsm_line.specs.Text.{is_separator, is_line_feed};

/// Whether the byte stands between words.
fn is_separator(byte: u8) -> bool
    ensures { result ≡ is_separator byte }
{
    byte == b' ' || byte == b'\t' || byte == b'\r'
}

/// The place of the first separator.
fn separator_at(line: &[u8]) -> Option<usize>
    ensures { result ≡ position is_separator line.now }
{
    line.iter().position(|byte| is_separator(*byte))
}

/// The place of the first byte of a word.
fn word_at(line: &[u8]) -> Option<usize>
    ensures { result ≡ position (λ byte. not (is_separator byte)) line.now }
{
    line.iter().position(|byte| !is_separator(*byte))
}

/// The place of the first line feed.
fn line_feed_at(text: &[u8]) -> Option<usize>
    ensures { result ≡ position is_line_feed text.now }
{
    text.iter().position(|byte| *byte == b'\n')
}

/// The words of a line, each once, from the front.
#[derive(Drop)]
pub struct Words<'a> {
    rest: &'a [u8],
}

impl<'a> Words<'a> {
    ghost use Rattle.std.specs.Prelude.{◌≡◌};

    /// The words of this line.
    pub fn new(line: &'a [u8]) -> Words<'a>
        ensures { result.rest ≡ line.entry }
    {
        Words { rest: line }
    }
}

impl<'a> Iterator for Words<'a> {
    type Item = &'a [u8];

    ghost use Rattle.std.specs.Iterator.{YieldsFirstRef, item_count};
    ghost use Rattle.lsm_line.specs.Text.{words};

    ghost next_gives = { YieldsFirstRef (λ s. words s.rest.now) };

    ghost remaining = { item_count (λ s. words s.rest.now) };

    fn next(&mut self) -> Option<&'a [u8]> {
        let start = word_at(self.rest).unwrap_or(self.rest.len());
        let rest = &self.rest[start..];
        let end = separator_at(rest).unwrap_or(rest.len());
        let (word, rest) = rest.split_at(end);
        self.rest = rest;
        if word.is_empty() { None } else { Some(word) }
    }
}

/// The lines of a text, each once, from the front.
#[derive(Drop)]
pub struct Lines<'a> {
    rest: Option<&'a [u8]>,
}

impl<'a> Lines<'a> {
    ghost use Rattle.std.specs.Prelude.{◌≡◌, Some};

    /// The lines of this text.
    pub fn new(text: &'a [u8]) -> Lines<'a>
        ensures { result.rest ≡ Some text.entry }
    {
        Lines { rest: Some(text) }
    }
}

impl<'a> Iterator for Lines<'a> {
    type Item = &'a [u8];

    ghost use Rattle.std.specs.Iterator.{YieldsFirstRef, item_count};
    ghost use Rattle.lsm_line.specs.Text.{lines_left};

    ghost next_gives = { YieldsFirstRef (λ s. lines_left s.rest) };

    ghost remaining = { item_count (λ s. lines_left s.rest) };

    fn next(&mut self) -> Option<&'a [u8]> {
        let text = self.rest.take()?;
        let end = line_feed_at(text).unwrap_or(text.len());
        let (line, rest) = text.split_at(end);
        if !rest.is_empty() {
            self.rest = Some(&rest[1..]);
        }
        Some(line)
    }
}
