//! The command `explore`: runs schedules beside a model, with a bar that shows how far it has come.

use crate::error::RunError;
use crate::options::Exploration;
use lsm_explore::{Progress, Report, Settings, Wrong, explore};
use lsm_io::write_out;
use lsm_script::{ScriptLine, write_line};
use std::alloc::{AllocError, Global};
use std::io::Write;
use std::rt::Clock;
use std::thread;
use std::thread::Threads;
use std::time::Instant;

/// How many steps the bar has.
const STEPS: u64 = 40;

/// A bar on standard error, with the time that is left if what is left takes as long as what is done.
struct Bar<'a, R> {
    rt: &'a R,
    // None if the clock failed.
    start: Option<Instant>,
}

impl<R> Drop for Bar<'_, R> {
    fn drop(self) {
        let Bar { rt: _, start: _ } = self;
    }
}

impl<R: Eprint + Clock> Bar<'_, R> {
    // The seconds that are left.
    fn seconds_left(&self, done: u64, of: u64) -> Option<u64> {
        let start = self.start.as_ref()?;
        let elapsed = start.elapsed(self.rt).ok()?.as_secs();
        let left = of.saturating_sub(done);
        Some(elapsed.saturating_mul(left) / done.max(1))
    }

    // Draws this many steps.
    fn draw(&self, step: u64, left: Option<u64>) {
        let (done, rest) = (step as usize, STEPS.saturating_sub(step) as usize);
        let _ = match left {
            Some(left) => eprint!(self.rt; "\r[{:#<done$}{:.<rest$}] {left} s left ", "", ""),
            None => eprint!(self.rt; "\r[{:#<done$}{:.<rest$}]", "", ""),
        };
    }
}

impl<R: Eprint + Clock> Progress for Bar<'_, R> {
    fn told(&self, done: u64, of: u64) {
        let step = done.saturating_mul(STEPS) / of.max(1);
        let before = done.saturating_sub(1).saturating_mul(STEPS) / of.max(1);
        if step > before {
            self.draw(step, self.seconds_left(done, of));
        }
    }
}

/// Runs the schedules that are asked for, and writes how many there were and how many of them have a wrong answer, and the first one of
/// these as a script. Returns whether all answers were right.
pub(crate) fn explore_schedules<R: Threads + Sync + Eprint + Clock + AllocGlobal, W: Write>(
    rt: &R,
    writer: &mut W,
    exploration: Exploration,
) -> Result<bool, RunError> {
    let alloc = rt.alloc();
    let threads = match exploration.threads {
        Some(threads) => threads as usize,
        None => thread::available_parallelism(rt).map_or(1, |threads| threads.get()),
    };
    let settings = Settings {
        events: u32::try_from(exploration.events).unwrap_or(u32::MAX),
        limits: exploration.limits,
        threads,
        seed: exploration.seed,
    };
    let bar = Bar {
        rt,
        start: Instant::now(rt).ok(),
    };
    let report = explore(rt, alloc, settings, &bar)?;
    let _ = rt.eprintln("");
    let mut text = report_text(alloc, &report, exploration.limits.l0)?;
    write_out(writer, &mut text)?;
    Ok(report.wrong == 0)
}

// The line, and the script of the first wrong schedule.
fn report_text(alloc: Global, report: &Report, l0: u64) -> Result<Vec<u8>, AllocError> {
    let mut out = Vec::new(alloc);
    let Report {
        schedules,
        events,
        wrong,
        first,
    } = report;
    let line = format!(in alloc; "schedules {schedules} events {events} wrong {wrong}\n")?;
    out.extend_from_slice(line.as_bytes())?;
    if let Some(wrong) = first {
        write_wrong(alloc, &mut out, wrong, l0)?;
    }
    Ok(out)
}

// A schedule as a script, and what is wrong with its last reply.
fn write_wrong(alloc: Global, out: &mut Vec<u8>, wrong: &Wrong, l0: u64) -> Result<(), AllocError> {
    let head = format!(in alloc; "# lsmsim run --l0 {l0}: the last reply is wrong\n")?;
    out.extend_from_slice(head.as_bytes())?;
    for event in wrong.events.iter() {
        let line = format!(in alloc; "{}\n", ScriptLine(event))?;
        out.extend_from_slice(line.as_bytes())?;
    }
    out.extend_from_slice(b"# answered: ")?;
    write_line(alloc, out, &wrong.reply)?;
    let allowed = format!(in alloc; "# the model allows: {}\n", wrong.allowed)?;
    out.extend_from_slice(allowed.as_bytes())
}
