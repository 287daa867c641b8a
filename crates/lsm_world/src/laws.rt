//! What no nodes do, and schedules written out in full. The functions do nothing: each is the proof of its contract.

ghost use Rattle.lsm_world.specs.WorkedSchedules.{ClaimsAreGivenBack, EachCallAnswers, FollowersGoOn, JobIsMergedAndInstalled};
ghost use Rattle.lsm_world.specs.WrongWorlds.{DeadSnapshotIsNoRun, EpochAgainIsNoRun, LateResultIsNotInstalled, LostMessageCountsNoNumber};
ghost use Rattle.lsm_world.specs.WrongWorlds.{MergedAgainIsNoRun, ReturnedClaimInstallsNothing, SequenceGivenTwiceIsNoRun, SkippedWriteIsNoRun};
ghost use Rattle.lsm_world.specs.WrongWorlds.{TableLetGoIsNotServed, TwoListingsAreNoRun, VersionNotHeldIsNoRun, WriteLostAtRefusedRestartIsNotNewest};

/// Worlds that a user would call broken are none.
pub fn wrong_worlds()
    // by the replies of a run
    ensures held { VersionNotHeldIsNoRun }
    ensures skipped { SkippedWriteIsNoRun }
    ensures twice { SequenceGivenTwiceIsNoRun }
    ensures epoch { EpochAgainIsNoRun }
    ensures listings { TwoListingsAreNoRun }
    ensures merged { MergedAgainIsNoRun }
    ensures snapshot { DeadSnapshotIsNoRun }
    ensures newest { WriteLostAtRefusedRestartIsNotNewest }
    // by the steps of the nodes
    ensures late { LateResultIsNotInstalled }
    ensures returned { ReturnedClaimInstallsNothing }
    ensures let_go { TableLetGoIsNotServed }
    ensures lost { LostMessageCountsNoNumber }
{}

/// These schedules of a new store are runs of the model. Each event comes in them, with each of its replies that is no refusal.
pub fn worked_schedules()
    ensures calls { EachCallAnswers }
    ensures job { JobIsMergedAndInstalled }
    ensures claims { ClaimsAreGivenBack }
    ensures followers { FollowersGoOn }
{}
