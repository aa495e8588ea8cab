//! What a delivery does to the lists of a run.
ghost use Rattle.std.specs.Prelude.{◌≡◌, ◌<◌, ◌-◌, ◌^◌, ◌++◌, [], ◌∷◌, List, length, map, Some, None, Option, slice_set, slice_index_or, vec_len, vec_capacity};
ghost use Rattle.std.specs.VecDeque.{deque_len, deque_capacity};
ghost use Rattle.plan_store.specs.declared.queue.Queue.{Queue};
ghost use Rattle.plan_store.specs.declared.stage.Stage.{Stage};
ghost use Rattle.plan_store.specs.declared.stage.NodeInfo.{NodeInfo};
ghost use Rattle.task_work.specs.declared.work.Waiting.{Waiting};
ghost use Rattle.plan_machine.specs.After.{is_done};
ghost use Rattle.plan_machine.specs.declared.entry.Entry.TheVariants as EntryOf;
ghost use Rattle.plan_store.specs.Putting.{less_busy};
ghost use Rattle.plan_store.specs.Putting.{in_phase, IsGrown, IsDeparting, HasPlace, HasSeat, HasRoom};

use crate::queue::Queue;
use crate::stage::{Flight, NodeInfo, Stage};
use plan_machine::{Entry, OpShape, Phase};
use task_work::{Share, Waiting};

/// Whether a node has ended.
pub fn has_ended(phase: Phase) -> bool
    ensures { result ≡ is_done phase }
{
    match phase {
        Phase::Done => true,
        Phase::Emitting | Phase::Folding | Phase::Streaming | Phase::Tailing | Phase::Sealed =>
            false,
    }
}

/// A worker's task at a node is no longer in flight, which the history says.
pub fn depart(
    seats: &mut Vec<Option<Flight>>,
    stages: &mut Vec<Stage>,
    history: &mut Vec<Entry>,
    flying: &mut usize,
    worker: u32,
    node: u32,
)
    requires { IsDeparting seats.old.items stages.old.items flying.old (length history.old.items) (vec_capacity history.old) worker node }
    ensures seats { seats.new.items ≡ slice_set seats.old.items (worker - 1) None }
    ensures stages { (d : Stage) → stages.new.items ≡ slice_set stages.old.items (node - 1) (less_busy (slice_index_or stages.old.items (node - 1) d)) }
    ensures history { history.new.items ≡ history.old.items ++ EntryOf.Deliver worker ∷ [] }
    ensures capacity { vec_capacity history.new ≡ vec_capacity history.old }
    ensures flying { flying.new ≡ flying.old - 1 }
{
    seats[(worker - 1) as usize] = None;
    stages[(node - 1) as usize].busy -= 1;
    history.push_reserved(Entry::Deliver { worker });
    *flying -= 1;
}

/// Puts a worker's share of a node back.
pub fn put_share<O: Drop, S: Drop, L: Drop>(
    shares: &mut Vec<Vec<Option<Share<O, S, L>>>>,
    worker: u32,
    node: u32,
    share: Share<O, S, L>,
)
    requires { HasSeat (map (λ row. row.items) shares.old.items) worker node }
    ensures { (d : List (Option (Share O S L)))
        → map (λ row. row.items) shares.new.items
        ≡ slice_set (map (λ row. row.items) shares.old.items) (node - 1)
        (slice_set (slice_index_or (map (λ row. row.items) shares.old.items) (node - 1) d) (worker - 1) (Some share)) }
{
    let row = &mut shares[(node - 1) as usize];
    row[(worker - 1) as usize] = Some(share);
}

/// Puts a batch behind all that wait on an edge.
pub fn put_back(queues: &mut Vec<Queue>, edge: u32, waiting: Waiting)
    requires { HasRoom queues.old.items edge }
    ensures { (d : Queue) → (q : Queue)
        × (queues.new.items ≡ slice_set queues.old.items (edge - 1) q)
        × IsGrown (slice_index_or queues.old.items (edge - 1) d) ((slice_index_or queues.old.items (edge - 1) d).waiting.items ++ waiting ∷ []) q }
{
    let queue = &mut queues[(edge - 1) as usize];
    queue.waiting.push_back_reserved(waiting);
    queue.edge.came();
}

/// Puts a batch before all that wait on an edge.
fn put_front(queues: &mut Vec<Queue>, edge: u32, waiting: Waiting)
    requires { HasRoom queues.old.items edge }
    ensures { (d : Queue) → (q : Queue)
        × (queues.new.items ≡ slice_set queues.old.items (edge - 1) q)
        × IsGrown (slice_index_or queues.old.items (edge - 1) d) (waiting ∷ (slice_index_or queues.old.items (edge - 1) d).waiting.items) q }
{
    let queue = &mut queues[(edge - 1) as usize];
    queue.waiting.push_front_reserved(waiting);
    queue.edge.came();
}

/// Puts the shares of all workers at a node in their place.
pub fn put_row<O: Drop, S: Drop, L: Drop>(
    shares: &mut Vec<Vec<Option<Share<O, S, L>>>>,
    node: u32,
    row: Vec<Option<Share<O, S, L>>>,
)
    requires { HasPlace (map (λ row. row.items) shares.old.items) node }
    ensures { map (λ row. row.items) shares.new.items ≡ slice_set (map (λ row. row.items) shares.old.items) (node - 1) row.items }
{
    shares[(node - 1) as usize] = row;
}

/// A node begins a phase in which it gives so many batches.
pub fn begin_phase(stages: &mut Vec<Stage>, node: u32, phase: Phase, count: u64)
    requires { HasPlace stages.old.items node }
    ensures { (d : Stage) → stages.new.items ≡ slice_set stages.old.items (node - 1) (in_phase (slice_index_or stages.old.items (node - 1) d) phase count) }
{
    let stage = &mut stages[(node - 1) as usize];
    stage.phase = phase;
    stage.count = count;
}

/// What a node does with its inputs.
pub fn shape_at(infos: &[NodeInfo], node: u32) -> OpShape
    requires { HasPlace infos.now node }
    ensures { (d : NodeInfo) → result ≡ (slice_index_or infos.now (node - 1) d).shape }
{
    infos[(node - 1) as usize].shape
}

/// A node's first input.
pub fn first_input(infos: &[NodeInfo], node: u32) -> u32
    requires { HasPlace infos.now node }
    ensures { (d : NodeInfo) → result ≡ (slice_index_or infos.now (node - 1) d).first }
{
    infos[(node - 1) as usize].first
}

/// Puts what is left of a batch, if anything is, before all batches that wait on an edge.
pub fn put_rest(queues: &mut Vec<Queue>, edge: u32, rest: Option<Waiting>)
    requires { (w : Waiting) → rest ≡ Some w → HasRoom queues.old.items edge }
    ensures none { rest ≡ None → queues.new.items ≡ queues.old.items }
    ensures some { (w : Waiting) (d : Queue) → rest ≡ Some w → (q : Queue)
        × (queues.new.items ≡ slice_set queues.old.items (edge - 1) q)
        × IsGrown (slice_index_or queues.old.items (edge - 1) d) (w ∷ (slice_index_or queues.old.items (edge - 1) d).waiting.items) q }
{
    if let Some(waiting) = rest {
        put_front(queues, edge, waiting);
    }
}
