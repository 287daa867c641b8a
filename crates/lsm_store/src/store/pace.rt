//! Compactions at the pace of the writes, so that no write has to make up for many.

ghost use Rattle.lsm_store.specs.Store.{Keeps};

use super::Store;
use lsm_key::MAX_MEMTABLE_WEIGHT;
use lsm_vault::Vault;

/// One compaction runs each time this much is written: a twelfth of a memtable. A memtable goes down each level as four tables, each
/// by a compaction of its own, so twelve keep up with three levels. In bytes.
const STEP_WEIGHT: usize = MAX_MEMTABLE_WEIGHT / 12;

impl<V: Vault> Store<V> {
    // Runs the compactions that what was written calls for, as far as they are due. If one is refused, that is not reported: the
    // writes were accepted, and it stays due. The next write that has to make room while level 0 is due meets it again.
    pub(super) fn keep_pace(&mut self)
        ensures { Keeps self.old self.new }
    {
        let steps = self.unpaced / STEP_WEIGHT;
        self.unpaced %= STEP_WEIGHT;
        let _refused = self.compact(steps as u64);
    }
}
