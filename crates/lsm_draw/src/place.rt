//! Where things stand, in pixels. From left to right: the script's lines, the labels of the coordinator, its line, a line for
//! each other node with labels to its right, and the lines of replies. Every column is as wide as its longest text.

ghost use Rattle.std.specs.Prelude.{◌≡◌, ◌+◌, ◌*◌};
ghost use Rattle.lsm_draw.specs.Places.{line_x, names_row_y, row_y};

/// The width of a character of 11 pixels, with room to spare: fixed-width fonts take 6.7.
pub(crate) const CELL: u64 = 7;

pub(crate) const MARGIN: u64 = 16;

/// The height of a row.
pub(crate) const ROW: u64 = 20;

/// After this many rows the nodes' names stand once more.
pub(crate) const BAND: u64 = 40;

/// Where the first row of names stands, under the legend.
const TOP: u64 = 100;

/// In characters.
pub(crate) const SCRIPT_CHARS: usize = 22;

/// In characters.
pub(crate) const LABEL_CHARS: usize = 20;

/// In characters.
pub(crate) const REPLY_CHARS: usize = 42;

/// Between a node's line and its labels.
pub(crate) const LABEL_GAP: u64 = 12;

/// The place of the coordinator's line.
const COORDINATOR: u64 = 336;

/// From a node's line to the next one.
pub(crate) const LANE: u64 = 160;

/// The place of a node's line, by its column.
pub(crate) fn x_of(column: u8) -> u64
    ensures { result ≡ line_x column }
{
    COORDINATOR + LANE * u64::from(column)
}

/// The middle of a row, by how many rows are above it.
pub(crate) fn y_of(row: u32) -> u64
    ensures { result ≡ row_y row }
{
    let row = u64::from(row);
    TOP + ROW * (row + row / BAND + 1)
}

/// The middle of a row of names, by how many rows of names are above it.
pub(crate) fn names_y(band: u32) -> u64
    ensures { result ≡ names_row_y band }
{
    TOP + ROW * ((BAND + 1) * u64::from(band))
}

/// How wide a picture of this many columns is.
pub(crate) fn width_of(columns: u8) -> u64
    ensures { result ≡ line_x columns + CELL * REPLY_CHARS + MARGIN }
{
    x_of(columns) + CELL * REPLY_CHARS as u64 + MARGIN
}
