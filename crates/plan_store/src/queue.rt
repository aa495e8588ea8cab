ghost use Rattle.std.specs.Prelude.{◌≡◌, ◌<◌, slice_set, slice_index_or, vec_len};
ghost use Rattle.plan_store.specs.declared.queue.Queue.{Queue};
ghost use Rattle.plan_store.specs.Queues.{with_paused};

use backpressure::Edge;
use std::collections::VecDeque;
use task_work::Waiting;

/// An edge of the plan: the batches that wait on it, the oldest first, and its counts.
#[derive(Drop)]
pub struct Queue {
    pub waiting: VecDeque<Waiting>,
    pub edge: Edge,
}

/// Pauses an edge, or lets it go on.
pub fn set_paused(queues: &mut Vec<Queue>, place: usize, paused: bool)
    requires { place < vec_len queues.old }
    ensures { (d : Queue) → queues.new.items ≡ slice_set queues.old.items place (with_paused (slice_index_or queues.old.items place d) paused) }
{
    if paused {
        queues[place].edge.pause();
    } else {
        queues[place].edge.resume();
    }
}
