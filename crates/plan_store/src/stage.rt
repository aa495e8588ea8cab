use plan_machine::{Job, OpShape, Phase};

/// What a node is: whether it is a source, its operator's shape, whether the order of its rows is kept, its inputs (0
/// where it has none) and its user.
#[derive(Debug, Clone, Copy, PartialEq, Eq)]
pub struct NodeInfo {
    pub source: bool,
    pub shape: OpShape,
    pub kept: bool,
    pub first: u32,
    pub second: u32,
    pub user: u32,
}

/// Where a node stands: its phase, the number of the batch that it gives next, how many it gives, where it is a source
/// or tails, and how many of its tasks are in flight.
#[derive(Debug, Clone, Copy, PartialEq, Eq)]
pub struct Stage {
    pub phase: Phase,
    pub next: u64,
    pub count: u64,
    pub busy: u32,
}

/// A task in flight: its node, its job, and the number of the batch that it gives or the place of the one that it took.
#[derive(Debug, Clone, Copy, PartialEq, Eq)]
pub struct Flight {
    pub node: u32,
    pub job: Job,
    pub number: u64,
}
