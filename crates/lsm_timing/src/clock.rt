//! The clocks that figures are taken by.

use std::io;
use std::rt::{Clock, CpuClock};
use std::time::Duration;

/// Whose time a figure is.
#[derive(Clone, Copy)]
pub(crate) enum ClockKind {
    /// The time that passes, with what else the machine does in it.
    Wall,
    /// The time that the process has a processor, so that figures of a busy machine compare.
    Processor,
}

impl ClockKind {
    /// The time since a start of the clock's own.
    pub(crate) fn now(self, rt: &HostRuntime) -> io::Result<Duration> {
        match self {
            ClockKind::Wall => rt.monotonic(),
            ClockKind::Processor => rt.process_cpu_time(),
        }
    }

    /// The time of this thread: of the wall, or that it has a processor.
    pub(crate) fn now_of_thread(self, rt: &HostRuntime) -> io::Result<Duration> {
        match self {
            ClockKind::Wall => rt.monotonic(),
            ClockKind::Processor => rt.thread_cpu_time(),
        }
    }
}
