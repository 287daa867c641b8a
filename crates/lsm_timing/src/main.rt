//! The program `lsm_timing`: times the store by its public calls. Each figure is a line `name n checksum` on standard
//! output and a line `name n nanoseconds` on standard error.
#![tactic(auto)]

mod bench;
mod churn;
mod clock;
mod durable;
mod error;
mod figure;
mod fill;
mod flushes;
mod forms;
mod keys;
mod load;
mod merges;
mod options;
mod pauses;
mod picks;
mod reads;
mod synced;
mod threads;

use bench::Bench;
use error::{NO_STORE, OUT_OF_MEMORY, TimingError};
use fill::{MemoryStore, opened};
use forms::Task;
use keys::{KeyShape, Shape};
use lsm_coord::Coord;
use lsm_vault::MemoryVault;
use options::{OptionsError, Request, print_help, request_of};
use picks::LOOSE;
use std::io::ErrorKind;
use std::process::ExitCode;
use std::sync::Wait;
use std::thread::Threads;
use std::{env, io};
use threads::time_threads;

/// The exit status if the arguments are refused.
const REFUSED: u8 = 2;

/// The exit status if a figure is not taken.
const FAILED: u8 = 1;

/// Reports the error on standard error.
fn fail(rt: &HostRuntime, error: TimingError) -> ExitCode {
    let _ = rt.eprintln(error);
    ExitCode::from(FAILED)
}

/// Reports what is wrong with the arguments on standard error, or prints the help that they ask for on standard output.
fn answer(rt: &HostRuntime, why: OptionsError<'_>) -> ExitCode {
    if let OptionsError::Help = why {
        return match print_help(rt) {
            Ok(()) => ExitCode::SUCCESS,
            Err(error) => fail(rt, TimingError::from(error)),
        };
    }
    let _ = eprintln!(rt; "error: {why}");
    ExitCode::from(REFUSED)
}

/// The words after the program's name.
fn words_of(rt: &HostRuntime) -> io::Result<Vec<String>> {
    let mut words = env::args(rt)?;
    let _name = words.next();
    Ok(words.collect(rt.alloc())?)
}

/// Takes a figure.
fn run<R: Threads + Wait + Sync>(
    rt: &R,
    bench: Bench,
    task: Task,
    first: u64,
    second: u64,
) -> Result<(), TimingError> {
    match task {
        Task::Durable => durable::time_durable(bench, first, second),
        Task::Synced => synced::time_synced(bench, first, second),
        Task::Threads => time_threads(rt, bench, first, second, true),
        Task::ThreadsAlone => time_threads(rt, bench, first, second, false),
        Task::Merge | Task::Pick => run_coord(bench, task, first),
        _ => run_new(bench, task, first, second),
    }
}

/// Takes a figure of a new store in memory. The store is dear to drop, so it is lent, and closed in the end.
fn run_new(bench: Bench, task: Task, first: u64, second: u64) -> Result<(), TimingError> {
    let mut store = opened(bench, MemoryVault::new(bench.alloc()))?;
    let timed = run_over(bench, &mut store, task, first, second);
    drop(store.close());
    timed
}

fn run_over(
    bench: Bench,
    store: &mut MemoryStore,
    task: Task,
    first: u64,
    second: u64,
) -> Result<(), TimingError> {
    match task {
        Task::Fill => fill::time_fill(bench, store, first, second),
        Task::Get => reads::time_gets(bench, store, first, second),
        Task::Scan => reads::time_scans(bench, store, first, second),
        Task::Churn => churn::time_churn(bench, store, first),
        Task::Pauses => pauses::time_pauses(bench, store, first, second),
        Task::Flush => flushes::time_flush(bench, store, first),
        _ => Ok(()),
    }
}

/// Takes a figure of a new coordinator in memory, which is lent and closed as a store is.
fn run_coord(bench: Bench, task: Task, first: u64) -> Result<(), TimingError> {
    let limits = match task {
        Task::Pick => LOOSE,
        _ => bench.limits,
    };
    let Ok(mut coord) = Coord::open(bench.alloc(), MemoryVault::new(bench.alloc()), limits) else {
        return Err(NO_STORE);
    };
    let timed = match task {
        Task::Pick => picks::time_picks(bench, &mut coord, first),
        _ => merges::time_merge(bench, &mut coord, first),
    };
    drop(coord.close());
    timed
}

/// Enough entries for a merge of level 0, and for merges of level 1 after it.
const MERGED: u64 = 260_000;

/// Entries of another shape than the default.
const OTHER: Shape = Shape {
    keys: KeyShape::Prefixed,
    value_len: 1_000,
};

/// Figures at a small size, each with its numbers and its entries.
const SMALL: [(Task, u64, u64, Shape); 11] = [
    (Task::Fill, MERGED, 1_000, Shape::DEFAULT),
    (Task::Get, MERGED, 2_000, Shape::DEFAULT),
    (Task::Scan, MERGED, 0, Shape::DEFAULT),
    (Task::Scan, 2_000, 50, Shape::DEFAULT),
    (Task::Merge, 1, 0, Shape::DEFAULT),
    (Task::Flush, 1_000, 0, Shape::DEFAULT),
    (Task::Pick, 5, 0, Shape::DEFAULT),
    (Task::Churn, MERGED, 0, Shape::DEFAULT),
    (Task::Pauses, 2_000, 100, Shape::DEFAULT),
    (Task::Get, 20_000, 500, OTHER),
    (Task::Threads, 1, 1, Shape::DEFAULT),
];

/// Takes what is asked, or each figure of a store in memory at a small size.
fn run_all<R: Threads + Wait + Sync>(
    rt: &R,
    bench: Bench,
    request: Request,
) -> Result<(), TimingError> {
    let Task::All = request.task else {
        return run(rt, bench, request.task, request.first, request.second);
    };
    for (task, first, second, shape) in &SMALL {
        let bench = Bench {
            shape: *shape,
            ..bench
        };
        run(rt, bench, *task, *first, *second)?;
    }
    Ok(())
}

fn main(rt: HostRuntime) -> ExitCode {
    let words = match words_of(&rt) {
        Ok(words) => words,
        Err(error) => {
            if error.kind() == ErrorKind::OutOfMemory {
                return fail(&rt, OUT_OF_MEMORY);
            }
            let _ = rt.eprintln("error: an argument is not valid UTF-8");
            return ExitCode::from(REFUSED);
        }
    };
    let request = match request_of(words.as_slice()) {
        Ok(request) => request,
        Err(why) => return answer(&rt, why),
    };
    let bench = Bench {
        rt,
        clock: request.clock,
        shape: request.shape,
        limits: request.limits,
    };
    match run_all(&rt, bench, request) {
        Ok(()) => ExitCode::SUCCESS,
        Err(error) => fail(&rt, error),
    }
}
