ghost use Rattle.std.specs.Prelude.{◌≡◌, ◌-◌, ℕ, cond, Option, Some, None, slice_index_or, slice_set};
ghost use Rattle.plan_machine.specs.Plan.{IsNode, IsWorker};
ghost use Rattle.plan_store.specs.Told.{plan_of, with_entry};
ghost use Rattle.run_state.specs.Calls.{IsDue};
ghost use Rattle.run_state.specs.Delivering.{is_dropped};
ghost use Rattle.fetch_counts.specs.declared.front.Front.{Front};
ghost use Rattle.fetch_counts.specs.Counts.{IsNoted};
ghost use Rattle.task_core.specs.Fronts.{counted_of, IsCountable};

use crate::state::PlanState;
use fetch_counts::{Front, note_at};
use plan_machine::Entry;
use plan_nodes::Operator;
use task_work::{Done, Fruit};

/// Of a batch that was folded its index and its number of rows.
fn counted<O, S, L>(fruit: &Fruit<O, S, L>) -> Option<(u64, u64)>
    ensures { result ≡ counted_of fruit.now }
{
    match fruit {
        Fruit::Fold {
            part: _,
            index,
            rows,
        } => Some((*index, *rows)),
        Fruit::Emit { .. }
        | Fruit::Seal { .. }
        | Fruit::Stream { .. }
        | Fruit::Close { .. }
        | Fruit::Tail { .. } => None,
    }
}

/// A fetch counts a batch that it folded, by its index and its number of rows.
fn count_fold(fronts: &mut Vec<Front>, node: u32, folded: Option<(u64, u64)>)
    requires { (x : ℕ × ℕ) → folded ≡ Some x → IsCountable fronts.old.items node }
    ensures none { folded ≡ None → fronts.new.items ≡ fronts.old.items }
    ensures some { (x : ℕ × ℕ) (d : Front) → folded ≡ Some x → (f : Front)
        × (fronts.new.items ≡ slice_set fronts.old.items (node - 1) f)
        × IsNoted (slice_index_or fronts.old.items (node - 1) d) x.0 x.1 f }
{
    if let Some(batch) = folded {
        note_at(fronts, node, batch.0, batch.1);
    }
}

impl<O: Operator> PlanState<O> {
    /// What a fetch has to count of what a worker gives back; of what is dropped nothing.
    fn to_count(&self, worker: u32, done: &Done<O>) -> Option<(u64, u64)>
        requires { IsDue O.meaning O.local_is O.shared_is self.now worker done.now.node done.now.fruit }
        ensures counted { result ≡ cond (is_dropped self.now done.now.node) None (counted_of done.now.fruit) }
        ensures node { IsNode (plan_of self.now.given) done.now.node }
    {
        if self.run.drops(worker, done.node) {
            return None;
        }
        counted(&done.fruit)
    }

    /// The worker gives back what it has in hand: its shares of the node, and what its job made. A batch of the node's
    /// output waits on the node's edge from now on, and a fetch counts the batch that it folded; after a failure, and at a
    /// node that was stopped, all of it is dropped.
    pub fn deliver(&mut self, worker: u32, done: Done<O>)
        requires worker { IsWorker (plan_of self.old.given) worker }
        requires due { IsDue O.meaning O.local_is O.shared_is self.old worker done.node done.fruit }
        ensures { self.new ≡ with_entry self.old (Entry.Deliver worker) 0 }
    {
        let node = done.node;
        let folded = self.to_count(worker, &done);
        self.run.deliver(worker, done);
        count_fold(&mut self.fronts, node, folded);
    }
}
