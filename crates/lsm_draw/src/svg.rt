//! Drawing a chart as an SVG document. Where things stand is said in `place`, and what is drawn in `chart`.

use crate::arrows::{draw_arrival, draw_stub};
use crate::chart::{Chart, Row};
use crate::lanes::{Lanes, NAMES};
use crate::legend::draw_legend;
use crate::place::{
    BAND, LABEL_CHARS, LABEL_GAP, MARGIN, REPLY_CHARS, ROW, SCRIPT_CHARS, names_y, width_of, x_of,
    y_of,
};
use crate::text::Cut;
use std::io::{self, Write};

// Colours, and the heads of arrows. Labels have a rim in the colour of the ground, so that they can be read over an arrow.
const STYLE: &str =
    "<style>text{font:11px ui-monospace,'DejaVu Sans Mono',Menlo,Consolas,monospace;fill:#222}.label{paint-order:stroke;stroke:#fff;stroke-width:3px;stroke-linejoin:round}.left{text-anchor:end}.name{font-weight:bold;text-anchor:middle}.head{font-weight:bold}.reply{fill:#666}.band{fill:#f5f6f8}.life{stroke:#c8ccd2}.near,.far,.again,.never{fill:none;stroke:#555;marker-end:url(#tip)}.far{stroke:#9aa0a8;stroke-width:.6}.again{stroke:#b0368c;stroke-dasharray:7 3}.never{stroke-dasharray:2 3}.event{fill:#777}.freeze{fill:#fff;stroke:#1565c0;stroke-width:1.5}.flush{fill:#1565c0}.pick{fill:#d97706}.install{fill:#15803d}.version{fill:#0f766e}.restart{fill:#111}.refused{fill:none;stroke:#c62828;stroke-width:2.5}</style>\n<defs><marker id=\"tip\" viewBox=\"0 0 8 8\" refX=\"7\" refY=\"4\" markerWidth=\"7\" markerHeight=\"7\" markerUnits=\"userSpaceOnUse\" orient=\"auto\"><path fill=\"#555\" d=\"M0 0L8 4L0 8z\"/></marker></defs>\n";

/// Writes the chart as one SVG document. Rows from the 2^32nd on are drawn in one place.
pub fn write_svg<W: Write>(out: &mut W, chart: &Chart) -> io::Result<()> {
    let count = chart.rows.len();
    let rows = u32::try_from(count).unwrap_or(u32::MAX);
    let (width, height) = (width_of(chart.lanes.columns()), y_of(rows) + ROW);
    writeln!(
        out,
        "<svg xmlns=\"http://www.w3.org/2000/svg\" width=\"{width}\" height=\"{height}\" viewBox=\"0 0 {width} {height}\">"
    )?;
    writeln!(out, "<title>Space-time diagram of {count} events</title>")?;
    out.write_all(STYLE.as_bytes())?;
    writeln!(
        out,
        "<rect width=\"{width}\" height=\"{height}\" fill=\"#fff\"/>"
    )?;
    draw_legend(out)?;
    draw_bands(out, rows, width)?;
    draw_lines(out, &chart.lanes, rows)?;
    draw_names(out, &chart.lanes, rows)?;
    draw_messages(out, chart)?;
    draw_rows(out, chart)?;
    writeln!(out, "</svg>")
}

// Every other row is a little darker.
fn draw_bands<W: Write>(out: &mut W, rows: u32, width: u64) -> io::Result<()> {
    for row in 0..rows {
        if row % 2 == 1 {
            let top = y_of(row) - ROW / 2;
            writeln!(
                out,
                "<rect class=\"band\" y=\"{top}\" width=\"{width}\" height=\"{ROW}\"/>"
            )?;
        }
    }
    Ok(())
}

// The line of each node.
fn draw_lines<W: Write>(out: &mut W, lanes: &Lanes, rows: u32) -> io::Result<()> {
    let (top, bottom) = (names_y(0) + 8, y_of(rows));
    for column in 0..lanes.columns() {
        let x = x_of(column);
        writeln!(out, "<path class=\"life\" d=\"M{x} {top}V{bottom}\"/>")?;
    }
    Ok(())
}

// The names, above the first row and after every `BAND` rows.
fn draw_names<W: Write>(out: &mut W, lanes: &Lanes, rows: u32) -> io::Result<()> {
    let last = rows.saturating_sub(1) / BAND as u32;
    for band in 0..=last {
        let y = names_y(band) + 4;
        let replies = x_of(lanes.columns());
        writeln!(
            out,
            "<text class=\"head\" x=\"{MARGIN}\" y=\"{y}\">script</text>"
        )?;
        draw_names_at(out, lanes, y)?;
        writeln!(
            out,
            "<text class=\"head\" x=\"{replies}\" y=\"{y}\">reply</text>"
        )?;
    }
    Ok(())
}

// The name of each node.
fn draw_names_at<W: Write>(out: &mut W, lanes: &Lanes, y: u64) -> io::Result<()> {
    for (place, name) in NAMES.iter().enumerate() {
        if lanes.is_taken(place) {
            let x = x_of(lanes.columns_before(place));
            writeln!(
                out,
                "<text class=\"name label\" x=\"{x}\" y=\"{y}\">{name}</text>"
            )?;
        }
    }
    Ok(())
}

// Every arrow, under the marks and labels.
fn draw_messages<W: Write>(out: &mut W, chart: &Chart) -> io::Result<()> {
    for message in chart.messages.iter().chain(chart.lost.iter()) {
        if !message.is_delivered {
            draw_stub(out, &chart.lanes, message)?;
        }
    }
    let mut row = 0u32;
    for it in chart.rows.iter() {
        if let Some(arrival) = &it.arrival {
            draw_arrival(out, &chart.lanes, arrival, row)?;
        }
        row = row.saturating_add(1);
    }
    Ok(())
}

// The texts and the mark of each row.
fn draw_rows<W: Write>(out: &mut W, chart: &Chart) -> io::Result<()> {
    let replies = x_of(chart.lanes.columns());
    let mut number = 0u32;
    for row in chart.rows.iter() {
        let text_y = y_of(number) + 4;
        let script = Cut::to(row.script.as_bytes(), SCRIPT_CHARS);
        let reply = Cut::to(row.reply.as_bytes(), REPLY_CHARS);
        writeln!(out, "<text x=\"{MARGIN}\" y=\"{text_y}\">{script}</text>")?;
        draw_mark(out, &chart.lanes, row, number)?;
        writeln!(
            out,
            "<text class=\"reply\" x=\"{replies}\" y=\"{text_y}\">{reply}</text>"
        )?;
        number = number.saturating_add(1);
    }
    Ok(())
}

// The mark of a row, and its label: to the left of the coordinator's line, and to the right of any other one.
fn draw_mark<W: Write>(out: &mut W, lanes: &Lanes, row: &Row, number: u32) -> io::Result<()> {
    let (x, y) = (x_of(lanes.column_of(row.lane)), y_of(number));
    let (class, outline) = (row.mark.name(), row.mark.outline());
    let label = Cut::to(row.label.as_bytes(), LABEL_CHARS);
    let text_y = y + 4;
    writeln!(out, "<path class=\"{class}\" d=\"M{x} {y}{outline}\"/>")?;
    if row.lane.is_coordinator() {
        let text_x = x.saturating_sub(LABEL_GAP);
        writeln!(
            out,
            "<text class=\"left\" x=\"{text_x}\" y=\"{text_y}\">{label}</text>"
        )
    } else {
        let text_x = x + LABEL_GAP;
        writeln!(
            out,
            "<text class=\"label\" x=\"{text_x}\" y=\"{text_y}\">{label}</text>"
        )
    }
}
