//! How the commands of a session are written.

use super::request::LineFault;
use lsm_line::{Reason, Words};
use std::str;

/// How each command is written, by its name.
static USAGES: [(&str, &str); 14] = [
    ("put", "usage: put K V"),
    ("del", "usage: del K"),
    ("batch", "usage: batch put K V del K .."),
    ("get", "usage: get K [@E.N]"),
    ("scan", "usage: scan LO HI LIMIT [@E.N]"),
    ("snap", "usage: snap"),
    ("release", "usage: release E.N"),
    ("flush", "usage: flush"),
    ("compact", "usage: compact"),
    ("show", "usage: show c"),
    ("stats", "usage: stats"),
    ("help", "usage: help"),
    ("quit", "usage: quit"),
    ("exit", "usage: exit"),
];

/// How the command of a faulty line is written, or where its name is found; nothing of a line that is too long, which was not kept.
pub(crate) fn usage_of(line: &[u8], fault: LineFault) -> Option<&'static str> {
    if matches!(fault, LineFault::TooLong | LineFault::MaybeCut) {
        return None;
    }
    let name = Words::new(line).next()?;
    Some(command_usage(str::from_utf8(name).unwrap_or("")))
}

/// What is to be known of a faulty line that has quotes.
pub(crate) fn quotes_of(line: &[u8], fault: LineFault) -> Option<&'static str> {
    let is_count = matches!(fault, LineFault::Words(Reason::WrongWordCount));
    if is_count && Words::new(line).any(|word| word.len() > 2 && word[0] == b'"') {
        return Some("quotes do not join words: a space in a word is written %20");
    }
    None
}

// How the command of this name is written.
fn command_usage(name: &str) -> &'static str {
    for (command, usage) in &USAGES {
        if name == *command {
            return *usage;
        }
    }
    "'help' lists the commands"
}
