//! What a claim does to the lists of a run.
ghost use Rattle.std.specs.Prelude.{◌≡◌, ◌<◌, ◌≤◌, ◌-◌, ◌+◌, ◌++◌, [], ◌∷◌, true, List, length, map, Some, None, Option, slice_set, slice_index_or, vec_len, vec_capacity};
ghost use Rattle.std.specs.VecDeque.{deque_len, deque_capacity};
ghost use Rattle.plan_machine.specs.declared.entry.Entry.TheVariants as EntryOf;
ghost use Rattle.plan_store.specs.declared.queue.Queue.{Queue};
ghost use Rattle.plan_store.specs.declared.stage.Stage.{Stage};
ghost use Rattle.plan_store.specs.Taking.{gives_next, next_by, with_task, IsEntering, IsShortened};

use crate::queue::Queue;
use crate::stage::{Flight, Stage};
use plan_machine::{Entry, Job};
use std::alloc::Global;
use task_work::{Share, Waiting};

/// The number of the batch that a node gives next, once the job is claimed.
fn next_after(stage: &Stage, job: Job) -> u64
    requires { gives_next job ≡ true → stage.now.next < stage.now.count }
    ensures { result ≡ next_by job stage.now.next }
{
    let _count = stage.count;
    match job {
        Job::Emit | Job::Tail => stage.next + 1,
        Job::Fold | Job::Seal | Job::Stream | Job::Close => stage.next,
    }
}

/// A worker's task is in flight from now on, which the history says.
pub fn enter(
    seats: &mut Vec<Option<Flight>>,
    stages: &mut Vec<Stage>,
    history: &mut Vec<Entry>,
    flying: &mut usize,
    worker: u32,
    flight: Flight,
)
    requires { IsEntering seats.old.items stages.old.items flying.old (length history.old.items) (vec_capacity history.old) worker flight }
    ensures seats { seats.new.items ≡ slice_set seats.old.items (worker - 1) (Some flight) }
    ensures stages { (d : Stage) → stages.new.items ≡ slice_set stages.old.items (flight.node - 1) (with_task (slice_index_or stages.old.items (flight.node - 1) d) flight.job) }
    ensures history { history.new.items ≡ history.old.items ++ EntryOf.Claim worker flight.node flight.job flight.number ∷ [] }
    ensures capacity { vec_capacity history.new ≡ vec_capacity history.old }
    ensures flying { flying.new ≡ flying.old + 1 }
{
    let Flight { node, job, number } = flight;
    let stage = &mut stages[(node - 1) as usize];
    stage.next = next_after(stage, job);
    stage.busy += 1;
    seats[(worker - 1) as usize] = Some(flight);
    history.push_reserved(Entry::Claim {
        worker,
        node,
        job,
        batch: number,
    });
    *flying += 1;
}

/// Takes a worker's share of a node.
pub fn take_share<O: Drop, S: Drop, L: Drop>(
    shares: &mut Vec<Vec<Option<Share<O, S, L>>>>,
    place: usize,
    seat: usize,
) -> Option<Share<O, S, L>>
    requires place { place < vec_len shares.old }
    requires seat { (d : List (Option (Share O S L))) → seat < length (slice_index_or (map (λ row. row.items) shares.old.items) place d) }
    ensures taken { (d : List (Option (Share O S L))) → result ≡ slice_index_or (slice_index_or (map (λ row. row.items) shares.old.items) place d) seat None }
    ensures left { (d : List (Option (Share O S L)))
        → map (λ row. row.items) shares.new.items
        ≡ slice_set (map (λ row. row.items) shares.old.items) place (slice_set (slice_index_or (map (λ row. row.items) shares.old.items) place d) seat None) }
{
    let row = &mut shares[place];
    row[seat].take()
}

/// Takes the shares of all workers of a node.
pub fn take_row<O: Drop, S: Drop, L: Drop>(
    shares: &mut Vec<Vec<Option<Share<O, S, L>>>>,
    place: usize,
) -> Vec<Option<Share<O, S, L>>>
    requires { place < vec_len shares.old }
    ensures taken { (d : List (Option (Share O S L))) → result.items ≡ slice_index_or (map (λ row. row.items) shares.old.items) place d }
    ensures left { map (λ row. row.items) shares.new.items ≡ slice_set (map (λ row. row.items) shares.old.items) place [] }
{
    let row = &mut shares[place];
    let alloc = *row.allocator();
    std::mem::replace(row, Vec::new(alloc))
}

/// Takes the batch that has waited longest on an edge.
pub fn take_front(queues: &mut Vec<Queue>, place: usize) -> Waiting
    requires place { place < vec_len queues.old }
    requires some { (d : Queue) → 0 < deque_len (slice_index_or queues.old.items place d).waiting }
    requires count { (d : Queue) → 0 < (slice_index_or queues.old.items place d).edge.waiting }
    ensures { (d : Queue) → (q : Queue)
        × (queues.new.items ≡ slice_set queues.old.items place q)
        × IsShortened (slice_index_or queues.old.items place d) result q }
{
    let queue = &mut queues[place];
    queue.edge.went();
    queue.waiting.pop_front().unwrap()
}
