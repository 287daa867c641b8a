//! A space-time diagram of a script's run, as SVG: a line for each node, time downwards, a row for each event, an arrow
//! for each delivery.
//!
//! It promises that texts can't become markup, and that columns hold their longest texts and rows keep their distances.
//! That each text is put at its place, cut to its column, is tested. It is given the lines of events and replies. It
//! stands on `lsm_world` for events and replies, of which alone it derives who sent which message.
#![tactic(auto)]

mod arrows;
mod chart;
mod label;
mod lanes;
mod laws;
mod legend;
mod mark;
mod place;
mod svg;
mod text;

pub use chart::{Chart, Lines};
pub use laws::{columns_hold_their_texts, no_text_is_markup, rows_are_apart};
pub use svg::write_svg;
pub use text::Escaped;
