//! The command `run`: runs a script, and writes a line for each reply.

ghost use Rattle.std.specs.Prelude.{◌≡◌, ◌⊎◌, ◌++◌, ℕ, List, IfErr, IfOk, OnOk, OnErr, IfSome};
ghost use Rattle.std.specs.Io.KnownBytes.{Appends};
ghost use Rattle.lsm_world.specs.declared.event.Event.{Event};
ghost use Rattle.lsm_world.specs.declared.reply.Reply.{Reply};
ghost use Rattle.lsm_world.specs.Schedules.{IsNew, replies_in};
ghost use Rattle.lsm_script.specs.Replies.{reply_lines};
ghost use Rattle.lsm_sim.specs.Runs.{Happens, HappensInPart, PrintsScript, StopsFor};

use crate::error::RunError;
use lsm_io::{read_all, write_all};
use lsm_key::Limits;
use lsm_script::{parse, write_line};
use lsm_vault::MemoryVault;
use lsm_world::{Event, World};
use std::alloc::{AllocError, Global};
use std::io::{Read, Write};

/// How many bytes of lines are buffered before they are written.
const BUFFER_BYTES: usize = 65_536;

/// Runs the script that the reader gives against the nodes of a new store, and writes a line for each reply. The script
/// is read whole first; if it is faulty, nothing is written.
pub fn run_script<R: Read, W: Write>(
    alloc: Global,
    reader: &mut R,
    writer: &mut W,
    limits: Limits,
) -> Result<(), RunError>
    ensures ok { OnOk result (IfSome (R.remaining reader.old) (λ text. PrintsScript limits text (W.contents writer.old) (W.contents writer.new))) }
    ensures err { IfErr result (λ e. StopsFor limits e (R.remaining reader.old) (W.contents writer.old) (W.contents writer.new)) }
{
    let text = read_all(alloc, reader)?;
    let events = parse(alloc, &text)?;
    let mut world = new_world(alloc, limits)?;
    let ran = run(alloc, &mut world, events, writer);
    world.close();
    ran
}

/// The nodes of a new store over a vault in memory. Such a vault, while it is empty, is refused only if memory runs out.
pub(crate) fn new_world(alloc: Global, limits: Limits) -> Result<World<MemoryVault>, AllocError>
    ensures { IfOk result (IsNew limits) }
{
    match World::new(alloc, MemoryVault::new(alloc), limits) {
        Ok(world) => Ok(world),
        Err((_why, _vault)) => Err(AllocError),
    }
}

/// Runs the events in order, and writes a line for each reply.
fn run<W: Write>(
    alloc: Global,
    world: &mut World<MemoryVault>,
    events: Vec<Event>,
    writer: &mut W,
) -> Result<(), RunError>
    ensures ok { OnOk result ((steps : List (Event × Reply)) × Happens world.old.nodes events.items steps world.new.nodes × Appends (W.contents writer.old) (W.contents writer.new) (reply_lines (replies_in steps))) }
    ensures err { OnErr result (HappensInPart world.old.nodes events.items world.new.nodes (W.contents writer.old) (W.contents writer.new)) }
    ensures errors { IfErr result (λ e. (e ≡ RunError.WriteFault) ⊎ (e ≡ RunError.OutOfMemory)) }
{
    let mut out = Vec::new(alloc);
    for event in events {
        let reply = world.step(event);
        write_line(alloc, &mut out, &reply)?;
        drop(reply);
        if out.len() >= BUFFER_BYTES {
            write_all(writer, &out)?;
            out.clear();
        }
    }
    write_all(writer, &out)?;
    writer.flush().map_err(|_| RunError::WriteFault)
}
