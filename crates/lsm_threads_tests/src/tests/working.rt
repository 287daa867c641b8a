//! A worker's loop.

use super::vectors::{FETCH, GONE, JOB, JUNK, RESULT, TABLE};
use super::{Messages, are_sent, waiting};
use crossbeam_channel::unbounded;
use lsm_msg::NodeIndex;
use lsm_threads::{ChannelPort, Ending, worker_loop};
use lsm_work::Worker;
use std::alloc::Global;
use std::sync::Wait;
use std::test::Fail;

// What comes, what is sent, and how the loop ends.
const WORK: [(Messages, Messages, Ending); 6] = [
    (&[], &[], Ending::Closed),
    (&[JUNK, JOB], &[], Ending::NoMessage),
    (&[JOB], &[FETCH], Ending::Closed),
    (&[JOB, GONE, JOB], &[FETCH], Ending::Dropped),
    (&[JOB, TABLE], &[FETCH, RESULT], Ending::Closed),
    (
        &[JOB, JOB, TABLE, TABLE],
        &[FETCH, FETCH, RESULT],
        Ending::Closed,
    ),
];

// How the loop ends, if it sends these messages.
fn work<R: Wait>(rt: &R, alloc: Global, come: Messages, wanted: Messages) -> Result<Ending, Fail> {
    let index = NodeIndex::new(1).ok_or("no index")?;
    let inbox = waiting(rt, alloc, come)?;
    let (outbox, sent) = unbounded(alloc)?;
    let mut port = ChannelPort::new(rt, alloc, inbox, outbox);
    let (_worker, ending) = worker_loop(rt, Worker::new(alloc, index), &mut port);
    if !are_sent(rt, &sent, wanted) {
        return Err("out of memory, or other messages were sent")?;
    }
    Ok(ending)
}

#[test]
fn a_worker_sends_what_comes_of_its_mail(rt: HostRuntime) -> Result<(), Fail> {
    for (come, wanted, ending) in WORK {
        if work(&rt, rt.alloc(), come, wanted)? != ending {
            return Err("out of memory, or another ending")?;
        }
    }
    Ok(())
}

#[test]
fn a_worker_ends_if_nobody_takes_what_it_sends(rt: HostRuntime) -> Result<(), Fail> {
    let index = NodeIndex::new(1).ok_or("no index")?;
    let inbox = waiting(&rt, rt.alloc(), &[JOB, TABLE])?;
    let (outbox, sent) = unbounded(rt.alloc())?;
    drop(sent);
    let mut port = ChannelPort::new(&rt, rt.alloc(), inbox, outbox);
    let (_worker, ending) = worker_loop(&rt, Worker::new(rt.alloc(), index), &mut port);
    if ending != Ending::Closed {
        return Err("out of memory, or another ending")?;
    }
    Ok(())
}
