//! The line of an event: how a script asks for it.

use lsm_coord::{ScanRange, SnapId};
use lsm_key::Op;
use lsm_word::{Operation, Operations, Word};
use lsm_world::Event;
use std::fmt;

/// An event as the line of a script that asks for it, without its end. A batch of one operation is that operation's own line;
/// a delivery is of one message.
#[derive(Clone, Copy)]
pub struct ScriptLine<'a>(pub &'a Event);

impl fmt::Display for ScriptLine<'_> {
    fn fmt<W: fmt::Write>(&self, f: &mut fmt::Formatter<W>) -> fmt::Result {
        match self.0 {
            Event::Write(ops) => write_ops(f, ops.as_slice()),
            Event::Freeze => f.write_str("freeze"),
            Event::Flush => f.write_str("flush"),
            Event::Snap => f.write_str("snap"),
            Event::Release(id) => write!(f, "release {id}"),
            Event::Get(key, at) => write!(f, "get {}{}", Word(key.as_slice()), At(*at)),
            Event::Scan(range) => write_scan(f, range),
            Event::Show => f.write_str("show c"),
            Event::Trim(version) => write!(f, "trim {}", version.number()),
            Event::Pick(dispatcher) => write!(f, "pick {}", dispatcher.number()),
            Event::GiveUp(dispatcher) => write!(f, "giveup {}", dispatcher.number()),
            Event::Deliver(message) => write!(f, "deliver {message}"),
            Event::RestartCoordinator => f.write_str("restart c"),
            Event::RestartWorker(worker) => write!(f, "restart w{}", worker.number()),
            Event::Ask(follower) => write!(f, "ask {}", follower.number()),
            Event::Read(follower, key) => {
                write!(f, "read {} {}", follower.number(), Word(key.as_slice()))
            }
            Event::ShowFollower(follower) => write!(f, "show f{}", follower.number()),
            Event::RestartFollower(follower) => write!(f, "restart f{}", follower.number()),
        }
    }
}

// ` @E.N`, or nothing for the present.
#[derive(Clone, Copy)]
struct At(Option<SnapId>);

impl fmt::Display for At {
    fn fmt<W: fmt::Write>(&self, f: &mut fmt::Formatter<W>) -> fmt::Result {
        match self.0 {
            None => Ok(()),
            Some(id) => write!(f, " @{id}"),
        }
    }
}

// The operation, or `batch` and the operations if there is not just one.
fn write_ops<W: fmt::Write>(f: &mut fmt::Formatter<W>, ops: &[Op]) -> fmt::Result {
    if let [op] = ops {
        return write!(f, "{}", Operation(op));
    }
    write!(f, "batch{}", Operations(ops))
}

// `scan LO HI LIMIT`, and where it reads
fn write_scan<W: fmt::Write>(f: &mut fmt::Formatter<W>, range: &ScanRange) -> fmt::Result {
    let (lo, hi) = (Word(range.lo.as_slice()), Word(range.hi.as_slice()));
    write!(f, "scan {lo} {hi} {}{}", range.limit, At(range.at))
}
