//! The commands, each with its numbers and what they may be.

/// The most entries of a store that is filled.
const MAX_ENTRIES: u64 = 100_000_000;

/// What is timed.
#[derive(Clone, Copy)]
pub(crate) enum Task {
    Fill,
    Get,
    Scan,
    Durable,
    Synced,
    Churn,
    Pauses,
    Merge,
    Flush,
    Pick,
    Threads,
    ThreadsAlone,
    All,
}

/// A number of a command, from 1 on.
#[derive(Clone, Copy)]
pub(crate) struct Number {
    /// Its name, as the help shows it.
    pub(crate) name: &'static str,
    pub(crate) most: u64,
    /// What it is if it is not given. Without a default it has to be given.
    pub(crate) default: Option<u64>,
}

/// How a figure is asked for: a command with its numbers.
#[derive(Clone, Copy)]
pub(crate) struct Form {
    pub(crate) name: &'static str,
    pub(crate) task: Task,
    pub(crate) first: Option<Number>,
    pub(crate) second: Option<Number>,
    /// Its line of the help.
    pub(crate) help: &'static str,
}

const ENTRIES: Option<Number> = Some(Number {
    name: "<N>",
    most: MAX_ENTRIES,
    default: None,
});

const BATCH: Option<Number> = Some(Number {
    name: "<BATCH>",
    most: 1_000,
    default: None,
});

const TURN: Option<Number> = Some(Number {
    name: "<K>",
    most: 1_000,
    default: None,
});

const GETS: Option<Number> = Some(Number {
    name: "<M>",
    most: MAX_ENTRIES,
    default: None,
});

const SCANS: Option<Number> = Some(Number {
    name: "[K]",
    most: MAX_ENTRIES,
    default: Some(0),
});

const MEGABYTES: Option<Number> = Some(Number {
    name: "<MB>",
    most: 230,
    default: None,
});

const MEMTABLE: Option<Number> = Some(Number {
    name: "[N]",
    most: 61_538,
    default: Some(61_538),
});

const FILES: Option<Number> = Some(Number {
    name: "[FILES]",
    most: 100_000,
    default: Some(5_000),
});

const SECONDS: Option<Number> = Some(Number {
    name: "<SECONDS>",
    most: 600,
    default: None,
});

const READERS: Option<Number> = Some(Number {
    name: "[READERS]",
    most: 4,
    default: Some(0),
});

/// All commands.
pub(crate) static FORMS: [Form; 13] = [
    Form {
        name: "fill",
        task: Task::Fill,
        first: ENTRIES,
        second: BATCH,
        help: "  fill <N> <BATCH>: Put N entries into a new store, with all flushes and merges",
    },
    Form {
        name: "get",
        task: Task::Get,
        first: ENTRIES,
        second: GETS,
        help: "  get <N> <M>: Get M random keys that exist, and M keys that do not, of N entries",
    },
    Form {
        name: "scan",
        task: Task::Scan,
        first: ENTRIES,
        second: SCANS,
        help: "  scan <N> [K]: Scan a store of N entries whole, or 20 keys from each of K random ones",
    },
    Form {
        name: "durable",
        task: Task::Durable,
        first: ENTRIES,
        second: GETS,
        help: "  durable <N> <M>: Fill a store in the new folder lsm_timing.store, open it again, and get M random keys",
    },
    Form {
        name: "synced",
        task: Task::Synced,
        first: ENTRIES,
        second: TURN,
        help: "  synced <N> <K>: Put N entries into a store in a new folder, with a sync behind each K, as they come and gathered",
    },
    Form {
        name: "churn",
        task: Task::Churn,
        first: ENTRIES,
        second: None,
        help: "  churn <N>: Put and delete N/4 keys in random order, N times, one time in eight a deletion, and scan what is left",
    },
    Form {
        name: "pauses",
        task: Task::Pauses,
        first: ENTRIES,
        second: BATCH,
        help: "  pauses <N> <BATCH>: Tell the longest write of a fill",
    },
    Form {
        name: "merge",
        task: Task::Merge,
        first: MEGABYTES,
        second: None,
        help: "  merge <MB>: Merge the tables of two levels, of MB megabytes of keys and values",
    },
    Form {
        name: "flush",
        task: Task::Flush,
        first: MEMTABLE,
        second: None,
        help: "  flush [N]: Flush a memtable of N entries",
    },
    Form {
        name: "pick",
        task: Task::Pick,
        first: FILES,
        second: None,
        help: "  pick [FILES]: Pick a merge, 20 times",
    },
    Form {
        name: "threads",
        task: Task::Threads,
        first: SECONDS,
        second: READERS,
        help: "  threads <SECONDS> [READERS]: Let two writers, two dispatchers with workers, a follower and its readers share a store",
    },
    Form {
        name: "threads_alone",
        task: Task::ThreadsAlone,
        first: SECONDS,
        second: READERS,
        help: "  threads_alone <SECONDS> [READERS]: The same without dispatchers, so that nothing is merged",
    },
    Form {
        name: "all",
        task: Task::All,
        first: None,
        second: None,
        help: "  all: Each figure of a store in memory at a small size",
    },
];
