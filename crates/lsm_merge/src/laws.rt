//! What the definitions of a merge and of a walk imply, and the weight at which an output is closed as a number. The functions do
//! nothing: each is the proof of its contract.

ghost use Rattle.std.specs.Prelude.{◌≡◌};
ghost use Rattle.lsm_merge.specs.declared.outputs.TheConstants.{OUTPUT_TARGET};
ghost use Rattle.lsm_merge.specs.Laws.{AMergeHasOneOutcome, AWalkIsRefusedForASharedEntry, AWalkReadsOneEntryAhead, AWalkTakesFromEachCursor, AnEndedWalkGaveWhatIsKept};

/// The outputs of a job's tables are determined, to the byte: every worker produces the same.
pub fn a_merge_has_one_outcome()
    ensures { AMergeHasOneOutcome }
{}

/// What a walk gave, up to its end, is what a merge keeps of the entries of its cursors, of which no two share one.
pub fn an_ended_walk_gave_what_is_kept()
    ensures { AnEndedWalkGaveWhatIsKept }
{}

/// A walk is refused only where two of its cursors share an entry.
pub fn a_walk_is_refused_for_a_shared_entry()
    ensures { AWalkIsRefusedForASharedEntry }
{}

/// A walk reads each cursor one entry ahead: what a cursor has given, but for the one entry that the walk holds of it, was taken, and
/// of one that the walk holds no entry of, all was. So no list of entries is held.
pub fn a_walk_reads_one_entry_ahead()
    ensures ahead { AWalkReadsOneEntryAhead }
    ensures each { AWalkTakesFromEachCursor }
{}

/// The limits of a merge are these numbers.
pub fn merge_limits_are_these()
    ensures { OUTPUT_TARGET ≡ 2000000 }
{}
