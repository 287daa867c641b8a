//! The command `draw`: runs a script, and draws its events and messages.

use crate::error::RunError;
use crate::run::new_world;
use lsm_draw::{Chart, Lines, write_svg};
use lsm_io::{read_all, write_out};
use lsm_key::Limits;
use lsm_script::{ScriptLine, parse, write_line};
use lsm_vault::MemoryVault;
use lsm_world::{Event, World};
use std::alloc::{AllocError, Global};
use std::io::{Read, Write};

/// Runs the script that the reader gives against the nodes of a new store, and writes one SVG document of what happened. The
/// script is read whole first; if it is faulty, or memory runs out, nothing is written.
pub fn draw_script<R: Read, W: Write>(
    alloc: Global,
    reader: &mut R,
    writer: &mut W,
    limits: Limits,
) -> Result<(), RunError> {
    let text = read_all(alloc, reader)?;
    let events = parse(alloc, &text)?;
    let mut world = new_world(alloc, limits)?;
    let charted = chart(alloc, &mut world, &events);
    world.close();
    let mut picture = Vec::new(alloc);
    write_svg(&mut picture, &charted?).map_err(|_| RunError::OutOfMemory)?;
    Ok(write_out(writer, &mut picture)?)
}

/// Runs the events in order.
fn chart(
    alloc: Global,
    world: &mut World<MemoryVault>,
    events: &[Event],
) -> Result<Chart, AllocError> {
    let mut chart = Chart::new(alloc);
    let mut line = Vec::new(alloc);
    for event in events {
        let reply = world.step(event.copy(alloc)?);
        line.clear();
        write_line(alloc, &mut line, &reply)?;
        let asked = format!(in alloc; "{}", ScriptLine(event))?;
        let answered = String::from_utf8_lossy(alloc, line.trim_ascii_end())?;
        let lines = Lines {
            event: asked.as_str(),
            reply: answered.as_str(),
        };
        chart.row(event, &reply, lines)?;
    }
    Ok(chart)
}
