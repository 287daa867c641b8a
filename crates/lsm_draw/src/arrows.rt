//! Arrows, from the row and the node where a message was sent to those where it was delivered.

use crate::chart::{Arrival, Message};
use crate::lanes::Lanes;
use crate::place::{x_of, y_of};
use std::io::{self, Write};

/// An arrow over more rows than this is drawn thin and light.
const FAR: u32 = 12;

/// How far an arrow's ends stay from the middles of its marks. In pixels.
const CLEARANCE: u8 = 8;

/// How far the arrow of a message that is never delivered reaches. In pixels.
const REACH: u8 = 52;

// So far from a column's line, on the side of another column.
fn beside(from: u8, to: u8, distance: u8) -> u64 {
    if from < to {
        x_of(from) + u64::from(distance)
    } else {
        x_of(from) - u64::from(distance)
    }
}

/// Draws the arrow of a message that came in a row: another way if it had come before.
pub(crate) fn draw_arrival<W: Write>(
    out: &mut W,
    lanes: &Lanes,
    arrival: &Arrival,
    row: u32,
) -> io::Result<()> {
    let message = &arrival.message;
    let class = if message.is_delivered {
        "again"
    } else if row.saturating_sub(message.row) > FAR {
        "far"
    } else {
        "near"
    };
    let (from, to) = (lanes.column_of(message.from), lanes.column_of(message.to));
    let (left, right) = (beside(from, to, CLEARANCE), beside(to, from, CLEARANCE));
    let (top, bottom) = (y_of(message.row), y_of(row));
    let number = arrival.number;
    writeln!(
        out,
        "<path class=\"{class}\" d=\"M{left} {top}L{right} {bottom}\"><title>message {number}</title></path>"
    )
}

/// Draws a short arrow that ends in the air. Those of one row go different ways.
pub(crate) fn draw_stub<W: Write>(out: &mut W, lanes: &Lanes, message: &Message) -> io::Result<()> {
    let (from, to) = (lanes.column_of(message.from), lanes.column_of(message.to));
    let (start, end) = (beside(from, to, CLEARANCE), beside(from, to, REACH));
    let top = y_of(message.row);
    let bottom = top + 6 + 3 * u64::from(message.nth.min(4));
    writeln!(
        out,
        "<path class=\"never\" d=\"M{start} {top}L{end} {bottom}\"/>"
    )
}
