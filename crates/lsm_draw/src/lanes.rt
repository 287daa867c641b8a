//! The lines of the nodes that take part, each in a column of its own.

use lsm_msg::NodeIndex;

/// How many nodes there may be: a coordinator, four workers, four followers.
const NODES: usize = 9;

/// The line of a node, by its place in the order of all nodes.
#[derive(Clone, Copy)]
pub(crate) struct Lane(u8);

impl Lane {
    /// The coordinator's line, which is the leftmost one. Dispatchers have no other.
    pub(crate) fn coordinator() -> Lane {
        Lane(0)
    }

    /// The line of a worker.
    pub(crate) fn worker(index: NodeIndex) -> Lane {
        Lane(index.number())
    }

    /// The line of a follower, to the right of every worker's.
    pub(crate) fn follower(index: NodeIndex) -> Lane {
        Lane(4 + index.number())
    }

    /// Whether it is the coordinator's.
    pub(crate) fn is_coordinator(self) -> bool {
        self.0 == 0
    }
}

/// Which nodes take part.
#[derive(Clone, Copy)]
pub(crate) struct Lanes {
    taken: [bool; NODES],
}

impl Lanes {
    /// The coordinator's alone.
    pub(crate) fn new() -> Lanes {
        let mut taken = [false; NODES];
        taken[0] = true;
        Lanes { taken }
    }

    /// Lets a node take part.
    pub(crate) fn take(&mut self, lane: Lane) {
        let place = usize::from(lane.0);
        if place < NODES {
            self.taken[place] = true;
        }
    }

    /// The column of a node's line: how many stand to its left.
    pub(crate) fn column_of(&self, lane: Lane) -> u8 {
        self.columns_before(usize::from(lane.0))
    }

    /// How many columns there are.
    pub(crate) fn columns(&self) -> u8 {
        self.columns_before(NODES)
    }

    /// Whether the node at a place in the order of all takes part.
    pub(crate) fn is_taken(&self, place: usize) -> bool {
        match self.taken.get(place) {
            Some(is_taken) => *is_taken,
            None => false,
        }
    }

    /// How many nodes before a place in the order of all take part.
    pub(crate) fn columns_before(&self, place: usize) -> u8 {
        let mut columns = 0u8;
        for is_taken in self.taken.iter().take(place) {
            if *is_taken {
                columns = columns.saturating_add(1);
            }
        }
        columns
    }
}

/// The names of all nodes, in order.
pub(crate) const NAMES: [&str; NODES] = [
    "coordinator",
    "worker 1",
    "worker 2",
    "worker 3",
    "worker 4",
    "follower 1",
    "follower 2",
    "follower 3",
    "follower 4",
];
