//! What all figures of a run have in common.

use crate::clock::ClockKind;
use crate::keys::Shape;
use lsm_key::Limits;
use std::alloc::Global;
use std::io;
use std::time::Duration;

/// What all figures of a run have in common.
#[derive(Clone, Copy)]
pub(crate) struct Bench {
    pub(crate) rt: HostRuntime,
    pub(crate) clock: ClockKind,
    pub(crate) shape: Shape,
    /// Those of each store.
    pub(crate) limits: Limits,
}

impl Bench {
    pub(crate) fn alloc(self) -> Global {
        self.rt.alloc()
    }

    /// What the clock shows.
    pub(crate) fn now(self) -> io::Result<Duration> {
        self.clock.now(&self.rt)
    }
}
