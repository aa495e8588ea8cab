ghost use Rattle.std.specs.Prelude.{◌≡◌, ◌<◌, ◌≤◌, vec_len, slice_set, slice_index_or, Option, Some, None, OnOk, IfSome};
ghost use Rattle.plan_nodes.specs.Plans.{IsPace};
ghost use Rattle.played_runs.specs.Hands.{AreHands};

use plan_nodes::Operator;
use scalar_value::Mem;
use std::alloc::Global;
use std::thread::Threads;
use task_core::PlanState;
use task_work::{Task, Work, run_task};
use worker_run::keep_up;

/// What happens next in a run that is played. A move that can't be made is passed over.
#[derive(Debug, Clone, Copy, PartialEq, Eq)]
pub enum Move {
    /// The upkeep that is due first is done.
    KeepUp,
    /// A worker with nothing in hand claims what it prefers.
    Claim { worker: u32 },
    /// A worker does the work that it has in hand, and delivers it.
    Deliver { worker: u32 },
    /// A worker with work in hand fails, as one that found no memory for it.
    Fail { worker: u32 },
}

/// What a worker has in hand: the node, whether the order of the node's rows is kept, the rows of a batch, and the work.
#[derive(Drop)]
pub struct Hand<O, S, L> {
    pub node: u32,
    pub kept: bool,
    pub batch: u32,
    pub work: Work<O, S, L>,
}

/// Takes what a worker has in hand.
fn take_hand<O, S, L>(hands: &mut Vec<Option<Hand<O, S, L>>>, place: usize) -> Option<Hand<O, S, L>>
    requires { place < vec_len hands.old }
    ensures was { (d : Option (Hand O S L)) → slice_index_or hands.old.items place d ≡ result }
    ensures left { hands.new.items ≡ slice_set hands.old.items place None }
{
    hands[place].take()
}

/// The upkeep that is due, where any is.
fn do_upkeep<O: Operator>(state: &mut PlanState<O>, hands: &[Option<Hand<O, O::Shared, O::Local>>])
    requires room { 2 ≤ state.old.room }
    requires hands { AreHands O.meaning O.local_is O.shared_is state.old hands.now }
    ensures given { state.new.given ≡ state.old.given }
    ensures hands { AreHands O.meaning O.local_is O.shared_is state.new hands.now }
{
    match state.upkeep() {
        Some(due) => keep_up(state, due),
        None => {}
    }
}

/// A worker takes in hand what it claims, where it can.
fn claim<O: Operator>(
    state: &mut PlanState<O>,
    hands: &mut Vec<Option<Hand<O, O::Shared, O::Local>>>,
    place: usize,
)
    requires room { 2 ≤ state.old.room }
    requires hands { AreHands O.meaning O.local_is O.shared_is state.old hands.old.items }
    requires workers { vec_len hands.old ≡ state.old.given.pace.workers }
    requires few { vec_len hands.old ≤ 64 }
    requires place { place < vec_len hands.old }
    ensures given { state.new.given ≡ state.old.given }
    ensures hands { AreHands O.meaning O.local_is O.shared_is state.new hands.new.items }
    ensures workers { vec_len hands.new ≡ vec_len hands.old }
{
    if hands[place].is_some() {
        return;
    }
    if let Some(task) = state.claim(place as u32 + 1) {
        let Task {
            node,
            kept,
            batch,
            work,
        } = task;
        hands[place] = Some(Hand {
            node,
            kept,
            batch,
            work,
        });
    }
}

/// A worker does the work that it has in hand, and delivers it.
fn deliver<R: Threads + Sync, O: Operator>(
    rt: &R,
    alloc: Global,
    state: &mut PlanState<O>,
    hands: &mut Vec<Option<Hand<O, O::Shared, O::Local>>>,
    place: usize,
) -> Mem<()>
    requires pace { IsPace state.old.given.pace }
    requires hands { AreHands O.meaning O.local_is O.shared_is state.old hands.old.items }
    requires workers { vec_len hands.old ≡ state.old.given.pace.workers }
    requires few { vec_len hands.old ≤ 64 }
    requires place { place < vec_len hands.old }
    ensures given { OnOk result (state.new.given ≡ state.old.given) }
    ensures hands { OnOk result (AreHands O.meaning O.local_is O.shared_is state.new hands.new.items) }
    ensures workers { vec_len hands.new ≡ vec_len hands.old }
{
    if let Some(hand) = take_hand(hands, place) {
        let Hand {
            node,
            kept,
            batch,
            work,
        } = hand;
        let task = Task {
            node,
            kept,
            batch,
            work,
        };
        let done = run_task(rt, alloc, task)?;
        state.deliver(place as u32 + 1, done);
    }
    Ok(())
}

/// A worker that has work in hand fails.
fn fail<O: Operator>(
    state: &mut PlanState<O>,
    hands: &mut Vec<Option<Hand<O, O::Shared, O::Local>>>,
    place: usize,
)
    requires hands { AreHands O.meaning O.local_is O.shared_is state.old hands.old.items }
    requires workers { vec_len hands.old ≡ state.old.given.pace.workers }
    requires few { vec_len hands.old ≤ 64 }
    requires place { place < vec_len hands.old }
    ensures given { state.new.given ≡ state.old.given }
    ensures hands { AreHands O.meaning O.local_is O.shared_is state.new hands.new.items }
    ensures workers { vec_len hands.new ≡ vec_len hands.old }
{
    if let Some(_) = take_hand(hands, place) {
        state.fail(place as u32 + 1);
    }
}

/// The place of a worker that is there.
fn place_of(worker: u32, workers: usize) -> Option<usize>
    ensures { IfSome result (λ place. place < workers) }
{
    let place = (worker as usize).checked_sub(1)?;
    if place < workers { Some(place) } else { None }
}

/// Makes one move, or passes it over.
pub fn make_move<R: Threads + Sync, O: Operator>(
    rt: &R,
    alloc: Global,
    state: &mut PlanState<O>,
    hands: &mut Vec<Option<Hand<O, O::Shared, O::Local>>>,
    next: Move,
) -> Mem<()>
    requires pace { IsPace state.old.given.pace }
    requires hands { AreHands O.meaning O.local_is O.shared_is state.old hands.old.items }
    requires workers { vec_len hands.old ≡ state.old.given.pace.workers }
    requires few { vec_len hands.old ≤ 64 }
    ensures given { OnOk result (state.new.given ≡ state.old.given) }
    ensures hands { OnOk result (AreHands O.meaning O.local_is O.shared_is state.new hands.new.items) }
    ensures workers { vec_len hands.new ≡ vec_len hands.old }
{
    state.reserve()?;
    match next {
        Move::KeepUp => do_upkeep(state, hands),
        Move::Claim { worker } => {
            if let Some(place) = place_of(worker, hands.len()) {
                claim(state, hands, place);
            }
        }
        Move::Deliver { worker } => {
            if let Some(place) = place_of(worker, hands.len()) {
                deliver(rt, alloc, state, hands, place)?;
            }
        }
        Move::Fail { worker } => {
            if let Some(place) = place_of(worker, hands.len()) {
                fail(state, hands, place);
            }
        }
    }
    Ok(())
}
