// What can happen in a run, and the stages of a node's life.

ghost use Rattle.std.specs.Prelude.{◌↔◌, IsTrue};
ghost use Rattle.plan_machine.specs.Upkeep.{IsUpkeep};

/// The stage that a node is in. As in Acero, a source makes batches, a node receives the batches of
/// its inputs until it is told that an input has ended, then gives what it kept, and at last tells its
/// output that it has ended.
#[derive(Clone, Copy, PartialEq, Eq, Debug)]
pub enum Phase {
    /// A source, which gives the rows of its table.
    Emitting,
    /// Gathers the batches of one input, and gives nothing yet.
    Folding,
    /// Gives rows for each batch that it takes.
    Streaming,
    /// Gives the rows that it made of all that it gathered.
    Tailing,
    /// A node that gives nothing, as the sink, has gathered all its input.
    Sealed,
    /// Has ended.
    Done,
}

/// What a worker can do at a node.
#[derive(Clone, Copy, PartialEq, Eq, Debug)]
pub enum Job {
    /// Give a batch of a source's table.
    Emit,
    /// Take a batch into the worker's own part of what the node gathers.
    Fold,
    /// Put all workers' parts together, once the gathered input has ended.
    Seal,
    /// Give the rows of a batch, or the next part of them.
    Stream,
    /// Put all workers' parts together, once the streamed input has ended.
    Close,
    /// Give a batch of the rows that the node made of all that it gathered.
    Tail,
}

/// An entry of a plan's history. Nodes, edges and workers are numbered from 1; edge e leads from node
/// e to the one node that uses it.
#[derive(Clone, Copy, PartialEq, Eq, Debug)]
pub enum Entry {
    /// The worker takes a job at the node. The batch is the number of the batch that an Emit or a Tail
    /// gives, the place in the waiting batches of the one that a Fold or a Stream takes, and else 0.
    Claim {
        worker: u32,
        node: u32,
        job: Job,
        batch: u64,
    },
    /// The worker gives back what it has in hand.
    Deliver {
        worker: u32,
    },
    /// The node that receives this edge tells the one that gives it to pause.
    Pause {
        edge: u32,
    },
    /// The node that receives this edge tells the one that gives it to resume.
    Resume {
        edge: u32,
    },
    /// The node ends.
    Finish {
        node: u32,
    },
    /// A fetch has all rows that it wants, and ends the nodes below it.
    Stop {
        node: u32,
    },
    /// The worker found no memory for its task, and the run fails.
    Fail {
        worker: u32,
    },
}

/// Whether an entry is the plan's own housekeeping, which needs no worker: a pause, a resume, the end
/// of a node, or a stop.
pub fn is_upkeep(entry: &Entry) -> bool
    ensures { IsTrue result ↔ IsUpkeep entry.now }
{
    match entry {
        Entry::Claim { .. } | Entry::Deliver { .. } | Entry::Fail { .. } => false,
        Entry::Pause { .. } | Entry::Resume { .. } | Entry::Finish { .. } | Entry::Stop { .. } =>
            true,
    }
}
