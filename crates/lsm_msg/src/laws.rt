//! What the definition of a merge implies, what installs and flushes leave unchanged, and what damaged messages are told
//! as. The functions do nothing: each is the proof of its contract.

ghost use Rattle.std.specs.Prelude.{◌≡◌, ◌≢◌, ℕ, ◌<◌, List, length, take, slice_index, IfOk, Err};
ghost use Rattle.lsm_msg.specs.declared.fault.MsgFault.TheVariants.{Truncated};
ghost use Rattle.lsm_msg.specs.declared.message.Message.{Message};
ghost use Rattle.lsm_msg.specs.Messages.{IsSpelled};
ghost use Rattle.lsm_msg.specs.MessageReading.{read_message};
ghost use Rattle.lsm_msg.specs.Laws.{KeptAreInputs, HiddenEntriesGo, ReadsStay, ASnapshotKeepsBoth, BothGo, ADeeperFileKeepsTheDeletion};
ghost use Rattle.lsm_msg.specs.InstallLaws.{InstallsKeepReads, InstallsAddNoEntry, InstallsKeepOrder, InstallsKeepJobs, FlushesKeepOrder, FlushesKeepJobs};

/// A merge makes no entry: what is kept was in its inputs.
pub fn kept_are_inputs()
    ensures { KeptAreInputs }
{}

/// Of two entries of a key the older one is dropped if no point sees it without the newer.
pub fn hidden_entries_go()
    ensures { HiddenEntriesGo }
{}

/// Reads of what is kept return what reads of the inputs returned: the latest read, a read at each point, and one that
/// sees every input. No two inputs may share a key and sequence.
pub fn reads_stay()
    ensures { ReadsStay }
{}

/// An install of what is kept changes no read: the latest, those at the points of the job, and those that see every
/// input. There may be newer entries above the version, such as those of memtables.
pub fn installs_keep_reads()
    ensures { InstallsKeepReads }
{}

/// An install whose outputs hold only entries of its inputs, kept or not, adds no entry, and the newer entries of a key
/// are still in the source that is searched first.
pub fn installs_keep_order()
    ensures entries { InstallsAddNoEntry }
    ensures order { InstallsKeepOrder }
{}

/// An install keeps each want legal that does not conflict. Their jobs keep their inputs and, if its outputs hold only
/// entries of its own inputs, what they know of deeper keys.
pub fn installs_keep_jobs()
    ensures { InstallsKeepJobs }
{}

/// After a flush of entries newer than all others, the newer entries of a key are still in the source that is searched
/// first.
pub fn flushes_keep_order()
    ensures { FlushesKeepOrder }
{}

/// A flush under a new number keeps each want legal. Their jobs keep their inputs and what they know of deeper keys.
pub fn flushes_keep_jobs()
    ensures { FlushesKeepJobs }
{}

/// A put and its deletion, merged with a snapshot between them, with none, and with a deeper file that may have the key.
pub fn worked_merges()
    ensures snapshot { ASnapshotKeepsBoth }
    ensures alone { BothGo }
    ensures deeper { ADeeperFileKeepsTheDeletion }
{}

/// A proper beginning of a message is refused as truncated.
pub fn a_beginning_of_a_message_is_truncated()
    ensures { (bytes : List ℕ) (m : Message) (n : ℕ) → IsSpelled bytes m → n < length bytes → read_message (take n bytes) ≡ Err Truncated }
{}

/// Bytes other than those of a message, such as those with a byte changed, are refused with a named fault, or are the one encoding of another
/// message.
pub fn a_change_is_refused_or_another_message()
    ensures { (bytes changed : List ℕ) (m : Message) → IsSpelled bytes m → ((i : ℕ) → slice_index changed i < 256) → changed ≢ bytes
        → IfOk (read_message changed) (λ other. IsSpelled changed other × (other ≢ m)) }
{}
