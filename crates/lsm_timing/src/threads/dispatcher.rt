//! The thread of a dispatcher.

use super::course::Course;
use lsm_msg::NodeIndex;
use lsm_nodes::{Hub, Start, Tally, Witness};
use lsm_threads::dispatch_with_worker;
use lsm_vault::Vault;
use std::sync::Wait;
use std::thread::Threads;

/// After this many rounds a worker is started anew.
const ROUNDS: u64 = 1 << 32;

/// A dispatcher with its worker, until the run is over. If there are to be none it settles nothing.
pub(super) fn dispatch_until_over<
    V: Vault + Send,
    J: Start + Send + Sync,
    N: Witness + Drop + Send,
    R: Threads + Wait + Sync,
>(rt: &R, course: &Course, hub: &Hub<V, J, N>, index: NodeIndex, tally: Tally<J>) -> Tally<J> {
    let mut tally = tally;
    for _ in rt.forever() {
        if !course.has_workers || course.is_over() {
            break;
        }
        if tally.parts() == 0 || tally.picked() >= u64::MAX - ROUNDS {
            break;
        }
        let installed = tally.installed();
        tally = match dispatch_with_worker(
            rt,
            course.bench.alloc(),
            hub,
            index,
            ROUNDS,
            &course.is_over,
            tally,
        ) {
            Ok((tally, _last, _lost)) => tally,
            Err(tally) => {
                course.miss();
                tally
            }
        };
        if tally.installed() == installed {
            course.rest();
        }
    }
    tally
}
