//! What calls of a memtable do one after another, as a fact on the definitions. The function does nothing: it is the proof of its contract.

ghost use Rattle.lsm_mem.specs.Laws.{AnUndoTakesBackABatch};

/// An `undo` from the first sequence of the batch that was applied last leaves the entries that were there before it.
pub fn an_undo_takes_back_a_batch()
    ensures { AnUndoTakesBackABatch }
{}
