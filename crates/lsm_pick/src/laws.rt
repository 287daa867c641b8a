//! What the definition of a candidate implies. The functions do nothing: each is the proof of its contract.

ghost use Rattle.lsm_pick.specs.Laws.{ACandidateProposesOneWant, BothOrdersAreAlike};

/// Each candidate determines at most one compaction of a version's files, so the three outcomes of a pick are mutually
/// exclusive.
pub fn a_candidate_proposes_one_want()
    ensures { ACandidateProposesOneWant }
{}

/// Whatever the pointers are, both orders have the same candidates: something is picked in the one exactly where
/// something is in the other, and nothing is, or only what is too large, exactly where the other says so.
pub fn both_orders_are_alike()
    ensures { BothOrdersAreAlike }
{}
