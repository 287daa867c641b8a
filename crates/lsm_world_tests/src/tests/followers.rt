//! A schedule of a follower, worked out by hand: each event with its reply.

use super::schedules::EventReply;
use super::see_fail;
use std::test::Fail;

/// The coordinator is down after a restart that is refused, and followers go on: they take messages, ask, read, list their version
/// and start anew.
const DOWN: [EventReply; 23] = [
    ("put a 1", "seq 1\n"),
    ("flush", "version 2 flushed 1 file 1\n"),
    ("ask 1", "message 1\n"),
    ("deliver 1", "served message 2\n"),
    ("deliver 2", "version 1\n"),
    ("ask 1", "message 3\n"),
    ("deliver 3", "served message 4\n"),
    ("restart c", "refused Device\nto open"),
    ("trim 1", "refused Down\n"),
    ("deliver 4", "waiting 1 message 5\n"),
    ("deliver 5", "refused Down\n"),
    ("read 1 a", "at 1 none\n"),
    ("show f1", "show 1 flushed 0\n"),
    ("ask 1", "message 6\n"),
    ("deliver 6", "refused Down\n"),
    ("restart f1", "restarted f1\n"),
    ("show f1", "show 0 flushed 0\n"),
    ("deliver 2", "version 1\n"),
    ("deliver 4", "waiting 1 message 7\n"),
    ("restart c", "epoch 2 version 3 last 1\n"),
    ("deliver 7", "served message 8\n"),
    ("deliver 8", "version 2\n"),
    ("read 1 a", "at 2 value 1\n"),
];

#[test]
fn followers_go_on_without_a_coordinator(rt: HostRuntime) -> Result<(), Fail> {
    // The first call of the restart, after five of the opening, that of the write and three of the flush.
    see_fail(&rt, rt.alloc(), 9, &[&DOWN])
}
