//! The legend, above the first row: what each mark and each arrow means.

use crate::mark::Mark;
use crate::place::MARGIN;
use std::io::{self, Write};

/// From one entry to the next one. In pixels: 18 characters beside the mark.
const ENTRY: u64 = 152;

/// From a line of entries to the next one. In pixels.
const LINE: u64 = 20;

/// The middle of the first line of entries. In pixels.
const TOP: u64 = 22;

/// From the left of an entry to the middle of its mark, and to its text. In pixels.
const MARK: u64 = 8;

const TEXT: u64 = 24;

const MARKS: [(Mark, &str); 8] = [
    (Mark::Plain, "write, read, .."),
    (Mark::Freeze, "memtable frozen"),
    (Mark::Flush, "flushed: file"),
    (Mark::Pick, "job picked"),
    (Mark::Install, "result installed"),
    (Mark::Version, "follower moved"),
    (Mark::Restart, "node restarted"),
    (Mark::Refused, "refused"),
];

const ARROWS: [(&str, &str); 4] = [
    ("near", "message"),
    ("far", "message, late"),
    ("again", "delivered again"),
    ("never", "never delivered"),
];

/// Draws the marks in two lines, and the arrows in a third one.
pub(crate) fn draw_legend<W: Write>(out: &mut W) -> io::Result<()> {
    let mut entry = 0u8;
    for (mark, text) in MARKS.iter() {
        let (column, line) = (u64::from(entry % 4), u64::from(entry / 4));
        let (left, middle) = (MARGIN + ENTRY * column, TOP + LINE * line);
        let (x, text_x, text_y) = (left + MARK, left + TEXT, middle + 4);
        let (class, outline) = (mark.name(), mark.outline());
        writeln!(
            out,
            "<path class=\"{class}\" d=\"M{x} {middle}{outline}\"/><text x=\"{text_x}\" y=\"{text_y}\">{text}</text>"
        )?;
        entry = entry.saturating_add(1);
    }
    draw_arrows(out)
}

// The third line.
fn draw_arrows<W: Write>(out: &mut W) -> io::Result<()> {
    let middle = TOP + 2 * LINE;
    let mut entry = 0u8;
    for (class, text) in ARROWS.iter() {
        let left = MARGIN + ENTRY * u64::from(entry % 4);
        let (end, text_x, text_y) = (left + 18, left + TEXT, middle + 4);
        writeln!(
            out,
            "<path class=\"{class}\" d=\"M{left} {middle}H{end}\"/><text x=\"{text_x}\" y=\"{text_y}\">{text}</text>"
        )?;
        entry = entry.saturating_add(1);
    }
    Ok(())
}
