//! Schedules that were worked out by hand: each event with its reply.

/// The line of an event, and what is told of it: the line of its reply, and what that does not say, as `write_more` has it.
pub(super) type EventReply = (&'static str, &'static str);

/// Whatever is told of it.
pub(super) const ANY: &str = "";

/// A key is put and deleted, each is flushed, and a job of both files is picked.
pub(super) const PICKED: [EventReply; 5] = [
    ("put a 1", "seq 1\n"),
    ("flush", "version 2 flushed 1 file 1\n"),
    ("del a", "seq 2\n"),
    ("flush", "version 3 flushed 2 file 2\n"),
    ("pick 1", "job 1.1 level 0 inputs 1,2 message 1\n"),
];

/// The first worker gets both tables, and merges them.
pub(super) const MERGED: [EventReply; 5] = [
    ("deliver 1", "collecting 2 messages 2-3\n"),
    ("deliver 2", "served message 4\n"),
    ("deliver 3", "served message 5\n"),
    ("deliver 4", "collecting 1\n"),
    ("deliver 5", "merged message 6\n"),
];

/// The result is installed once.
pub(super) const INSTALLED: [EventReply; 3] = [
    ("deliver 6", "installed version 4 files none\n"),
    ("get a", "none\n"),
    ("deliver 6", "refused NoClaim\n"),
];

/// The result is installed, the versions before are let go, and the coordinator restarts twice. How many tables the trim removes is as
/// many as an earlier one left.
pub(super) const RESTARTED_TWICE: [EventReply; 7] = [
    ("deliver 6", "installed version 4 files none\n"),
    ("trim 4", ANY),
    ("get a", "none\n"),
    ("restart c", "epoch 2 version 5 last 2\n"),
    ("restart c", "epoch 3 version 6 last 2\n"),
    ("show c", "show 6 flushed 2\n"),
    ("get a", "none\n"),
];

/// Files of two keys.
pub(super) const TWO: [EventReply; 8] = [
    ("put a 1", "seq 1\n"),
    ("flush", "version 2 flushed 1 file 1\n"),
    ("put a 2", "seq 2\n"),
    ("flush", "version 3 flushed 2 file 2\n"),
    ("put m 1", "seq 3\n"),
    ("flush", "version 4 flushed 3 file 3\n"),
    ("put m 2", "seq 4\n"),
    ("flush", "version 5 flushed 4 file 4\n"),
];

/// Two jobs at a time; the later one is merged last and installed first.
pub(super) const TWO_JOBS: [EventReply; 16] = [
    ("pick 1", "job 1.1 level 0 inputs 1,2 message 1\n"),
    ("pick 2", "job 1.2 level 0 inputs 3,4 message 2\n"),
    ("deliver 1", "collecting 2 messages 3-4\n"),
    ("deliver 2", "collecting 2 messages 5-6\n"),
    ("deliver 3", "served message 7\n"),
    ("deliver 4", "served message 8\n"),
    ("deliver 5", "served message 9\n"),
    ("deliver 6", "served message 10\n"),
    ("deliver 7", "collecting 1\n"),
    ("deliver 8", "merged message 11\n"),
    ("deliver 9", "collecting 1\n"),
    ("deliver 10", "merged message 12\n"),
    ("deliver 12", "installed version 6 files 5\n"),
    ("deliver 11", "installed version 7 files 6\n"),
    ("show c", "show 7 flushed 4 L1 5,6\n"),
    ("get a", "value 2\n"),
];

/// The coordinator restarts after the merge: the result is refused, and the next job is of the next epoch.
pub(super) const REFUSED: [EventReply; 3] = [
    ("restart c", "epoch 2 version 4 last 2\n"),
    ("deliver 6", "refused OldEpoch\n"),
    ("pick 1", "job 2.1 level 0 inputs 1,2 message 7\n"),
];

/// A write that is refused is not there, and its sequence is given again.
pub(super) const UNWRITTEN: [EventReply; 6] = [
    ("put a 1", "refused Device\n"),
    ("get a", "none\n"),
    ("put b 2", "seq 1\n"),
    ("restart c", "epoch 2 version 2 last 1\n"),
    ("get a", "none\n"),
    ("get b", "value 2\n"),
];

/// A freeze that is refused freezes nothing, and is done again.
pub(super) const UNFROZEN: [EventReply; 5] = [
    ("put a 1", "seq 1\n"),
    ("freeze", "refused Device\n"),
    ("put a 2", "seq 2\n"),
    ("freeze", "frozen 2\n"),
    ("flush", "version 2 flushed 2 file 1\n"),
];

/// Records that a flush could not cut are read past by the next opening, and cut.
pub(super) const UNCUT: [EventReply; 6] = [
    ("put a 1", "seq 1\n"),
    ("flush", "version 2 flushed 1 file 1\n"),
    ("put a 2", "seq 2\n"),
    ("restart c", "epoch 2 version 3 last 2\n"),
    ("flush", "version 4 flushed 2 file 2\n"),
    ("get a", "value 2\n"),
];

/// What is frozen is so after a restart, and is flushed first.
pub(super) const FROZEN: [EventReply; 7] = [
    ("put a 1", "seq 1\n"),
    ("freeze", "frozen 1\n"),
    ("put b 2", "seq 2\n"),
    ("restart c", "epoch 2 version 2 last 2\n"),
    ("flush", "version 3 flushed 1 file 1\n"),
    ("flush", "version 4 flushed 2 file 2\n"),
    ("get b", "value 2\n"),
];

/// A flush that is refused is done again.
pub(super) const FAILED: [EventReply; 4] = [
    ("put a 1", "seq 1\n"),
    ("flush", "refused Device\n"),
    ("flush", "version 2 flushed 1 file 1\n"),
    ("get a", "value 1\n"),
];

/// The coordinator is down after a restart that is refused, and a worker goes on. A claim is given back once it is up again.
pub(super) const STOPPED: [EventReply; 10] = [
    ("restart c", "refused Device\nto open"),
    ("get a", "refused Down\n"),
    ("pick 2", "refused Down\n"),
    ("giveup 1", "refused Down\n"),
    ("restart w1", "restarted w1\n"),
    ("deliver 1", "collecting 2 messages 2-3\n"),
    ("deliver 2", "refused Down\n"),
    ("restart c", "epoch 2 version 4 last 2\n"),
    ("giveup 1", "stale 1.1\n"),
    ("get a", "none\n"),
];

/// A trim that is refused has raised the floor, and removed a table; the next one removes the other one.
pub(super) const TRIMMED: [EventReply; 2] = [
    ("trim 4", "refused Device\n"),
    ("trim 1", "floor 4 removed 1\nfile 2"),
];
