use column_batch::Batch;
use row_table::Table;
use std::alloc::Global;
use std::sync::Arc;

/// A batch that waits on an edge, and how many rows of its output were given before.
#[derive(Debug, Drop)]
pub struct Waiting {
    pub batch: Batch,
    pub from: u64,
}

/// A worker's part of a node: its shares of the operator and of what all workers share, and its own local part.
#[derive(Drop)]
pub struct Part<O, S, L> {
    pub op: Arc<O, Global>,
    pub shared: Arc<S, Global>,
    pub local: L,
}

/// A worker's share of a node: of a source its table, of any other node its part.
#[derive(Drop)]
pub enum Share<O, S, L> {
    Table(Arc<Table, Global>),
    Part(Part<O, S, L>),
}

/// What a worker takes from the state with a job: its share of the node, or the shares of all workers, and the batch or
/// the number of the batch that it works on.
#[derive(Drop)]
pub enum Work<O, S, L> {
    Emit {
        table: Arc<Table, Global>,
        number: u64,
    },
    Fold {
        part: Part<O, S, L>,
        batch: Batch,
    },
    Seal {
        row: Vec<Option<Share<O, S, L>>>,
    },
    Stream {
        part: Part<O, S, L>,
        batch: Batch,
        from: u64,
    },
    Close {
        row: Vec<Option<Share<O, S, L>>>,
    },
    Tail {
        part: Part<O, S, L>,
        number: u64,
    },
}

/// What the worker gives back: the shares that it took, and what its job made; of a batch that it folded its index, 0
/// where it has none, and the number of its rows, by which a fetch knows what it has seen.
#[derive(Drop)]
pub enum Fruit<O, S, L> {
    Emit {
        table: Arc<Table, Global>,
        out: Batch,
    },
    Fold {
        part: Part<O, S, L>,
        index: u64,
        rows: u64,
    },
    Seal {
        row: Vec<Option<Share<O, S, L>>>,
        count: u64,
    },
    Stream {
        part: Part<O, S, L>,
        out: Batch,
        rest: Option<Waiting>,
    },
    Close {
        row: Vec<Option<Share<O, S, L>>>,
        count: u64,
    },
    Tail {
        part: Part<O, S, L>,
        out: Batch,
    },
}
