//! What holds in every run of a store, and runs written out in full. The functions do nothing: each is the proof of its
//! contract.

ghost use Rattle.lsm_coord.specs.Model.Laws.{VersionsStay, ListingsAgree, FollowersAgree, GetGivesTheWrite, FlushedRises, ScansAreDetermined, SnapshotsAgree};
ghost use Rattle.lsm_coord.specs.Model.Examples.{FlushedWriteIsFound, RestartKeepsWrites, FreezeOutlivesRestart, RefusedWriteIsNotThere, LastOfABatchCounts, FrozenIsFlushedFirst, AbsentIsRefused, DownUntilRestarted, MergeKeepsAnswers, FollowerLiesBehind, EpochsFollow, CausesBesideTheState};
ghost use Rattle.lsm_coord.specs.Model.Examples.{LostWriteIsNoRun, ShortFlushIsNoRun, EmptyListingIsNoRun, LostAtRestartIsNoRun, SnapshotKeptIsNoRun, KeptAfterDeviceIsNoRun, UnforcedRefusalIsNoRun, FileGivenTwiceIsNoRun, NewerValueIsNoRun};
ghost use Rattle.lsm_coord.specs.Model.Examples.{SecondWriteLostIsNoRun, FileForgottenIsNoRun, FlushLosesWriteIsNoRun};
ghost use Rattle.lsm_coord.specs.Model.Examples.{InstallOfNothingIsNoRun, NumberUsedAgainIsNoRun, LeapIsNoRun, FallBackIsNoRun, NameGivenTwiceIsNoRun};
ghost use Rattle.lsm_coord.specs.Model.Examples.{FlushedWriteIsLostIsNoRun, FloorFallsIsNoRun, DownWhileUpIsNoRun, AnswerWhileDownIsNoRun};

/// Along a run a version, once it is there, never changes its flushed sequence or its files.
pub fn versions_stay()
    ensures { VersionsStay }
{}

/// Two listings at one version number are equal, whichever nodes showed them.
pub fn listings_agree()
    ensures { ListingsAgree }
{}

/// In a run of a new store two reads of one key at one version number give one value, whichever followers gave it.
pub fn followers_agree()
    ensures { FollowersAgree }
{}

/// A get returns what an answered write of its key leaves, the value of a put and none for a deletion, if no event
/// between them writes the key. Restarts of the coordinator lose no write.
pub fn get_gives_the_write()
    ensures { GetGivesTheWrite }
{}

/// In a run of a new store flushed sequences ascend with the version number, up to the end of the frozen memtable and to the number
/// of writes.
pub fn flushed_rises()
    ensures { FlushedRises }
{}

/// In a run of a new store two gets of one key at one snapshot give one value: no name of a snapshot is issued twice.
pub fn snapshots_agree()
    ensures { SnapshotsAgree }
{}

/// The writes, the sequence, the bounds and the limit of a scan determine its result.
pub fn scans_are_determined()
    ensures { ScansAreDetermined }
{}

/// These are runs of a new store.
pub fn worked_runs()
    ensures flushed { FlushedWriteIsFound }
    ensures restarted { RestartKeepsWrites }
    ensures freeze { FreezeOutlivesRestart }
    ensures device { RefusedWriteIsNotThere }
    ensures batch { LastOfABatchCounts }
    ensures frozen { FrozenIsFlushedFirst }
    ensures absent { AbsentIsRefused }
    ensures down { DownUntilRestarted }
    ensures merged { MergeKeepsAnswers }
    ensures behind { FollowerLiesBehind }
    ensures epochs { EpochsFollow }
    ensures causes { CausesBesideTheState }
{}

/// These are not.
pub fn wrong_runs()
    ensures lost { LostWriteIsNoRun }
    ensures short { ShortFlushIsNoRun }
    ensures listing { EmptyListingIsNoRun }
    ensures dropped { LostAtRestartIsNoRun }
    ensures kept { SnapshotKeptIsNoRun }
    ensures failed { KeptAfterDeviceIsNoRun }
    ensures refused { UnforcedRefusalIsNoRun }
    ensures twice { FileGivenTwiceIsNoRun }
    ensures newer { NewerValueIsNoRun }
    ensures second { SecondWriteLostIsNoRun }
    ensures forgotten { FileForgottenIsNoRun }
    ensures emptied { FlushLosesWriteIsNoRun }
    ensures nothing { InstallOfNothingIsNoRun }
    ensures again { NumberUsedAgainIsNoRun }
    ensures leap { LeapIsNoRun }
    ensures back { FallBackIsNoRun }
    ensures name { NameGivenTwiceIsNoRun }
    ensures gone { FlushedWriteIsLostIsNoRun }
    ensures floor { FloorFallsIsNoRun }
    ensures up { DownWhileUpIsNoRun }
    ensures down { AnswerWhileDownIsNoRun }
{}
