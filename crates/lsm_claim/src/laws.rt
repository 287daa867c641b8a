//! What the tests for conflicts mean. The functions do nothing: each is the proof of its contract.

ghost use Rattle.lsm_claim.specs.Laws.{ConflictsGoBothWays, HullsMeetWhereTheyShareAKey, JobsShareTheLevelsThatBothUse};

/// Two hulls meet exactly when some key is in both.
pub fn hulls_meet_where_they_share_a_key()
    ensures { HullsMeetWhereTheyShareAKey }
{}

/// Two jobs share a level exactly when both use one.
pub fn jobs_share_the_levels_that_both_use()
    ensures { JobsShareTheLevelsThatBothUse }
{}

/// Conflicts are symmetric.
pub fn conflicts_go_both_ways()
    ensures { ConflictsGoBothWays }
{}
