//! The thread of a follower.

ghost use Rattle.std.specs.Prelude.{◌≡◌, []};

use super::course::Course;
use lsm_follow::Follower;
use lsm_key::{MAX_NUMBER, VersionNumber};
use lsm_nodes::{Hub, Start, Witness};
use lsm_readers::{LogName, Publisher};
use lsm_threads::come_to;
use lsm_vault::Vault;
use std::sync::Wait;
use std::thread::Threads;

/// A follower that comes to one current version after another until the run is over, and the version that it came to.
#[tactic(auto, using(lsm_threads::proofs::InStep::in_step_new))]
pub(crate) fn follow_until_over<
    'a,
    V: Vault + Send,
    J: Start + LogName + Send + Sync,
    N: Witness + Drop + Send,
    R: Threads + Wait + Sync,
>(rt: &'a R, course: &Course, hub: &Hub<V, J, N>, publisher: Publisher<J, &'a R>) -> u64
    requires { publisher ≡ record { published = []; taken = [] } }
{
    let alloc = course.bench.alloc();
    let goal = VersionNumber::new(MAX_NUMBER);
    let mut followed = (Follower::new(alloc, course.first), publisher);
    for _ in rt.forever() {
        if course.is_over() {
            break;
        }
        let (follower, publisher) = followed;
        followed = match come_to(rt, alloc, hub, follower, publisher, goal) {
            Ok((follower, publisher, _ending)) => (follower, publisher),
            Err(followed) => {
                course.miss();
                followed
            }
        };
        course.rest();
    }
    let (follower, _publisher) = followed;
    follower.show().number.number()
}
