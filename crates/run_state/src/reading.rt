// What a run gives that has ended.

ghost use Rattle.std.specs.Prelude.{◌≡◌, ◌≤◌, List, ℕ, IfOk, IsTrue, Some, map};
ghost use Rattle.scalar_value.specs.declared.value.Value.{Value};
ghost use Rattle.scalar_value.specs.declared.value.ColType.{ColType};
ghost use Rattle.plan_machine.specs.Batch.{Batch as Item};
ghost use Rattle.plan_machine.specs.History.{IsEnded};
ghost use Rattle.plan_nodes.specs.Operators.{Ends, end_rows, size_of};
ghost use Rattle.plan_store.specs.Told.{plan_of, state_of};
ghost use Rattle.run_state.specs.Opening.{IsFinished};
ghost use Rattle.run_state.specs.Claiming.{HasPart};
ghost use Rattle.run_state.specs.AtEnd.{peak_of, IsSinkPart};

use crate::result::Finished;
use crate::state::RunState;
use plan_machine::{bounded, rows_kept};
use plan_nodes::Operator;
use plan_store::Queue;
use row_table::Row;
use scalar_value::{Mem, Seq};
use std::alloc::Global;
use task_work::{Part, Share};

/// All rows that an operator gives at its end, batch by batch.
pub fn rows_at_end<O: Operator>(alloc: Global, op: &O, shared: &O::Shared) -> Mem<Seq<Row>>
    requires ends { Ends (O.meaning op.now) }
    requires size { 1 ≤ size_of (O.meaning op.now) }
    requires stands { (inputs : List (List ColType)) × (built : List (List Value)) × (streamed : List (Item (List Value)))
        × IsTrue ((O.meaning op.now).fits inputs)
        × O.shared_is (O.meaning op.now) inputs shared.now built streamed }
    ensures { (inputs : List (List ColType)) (built : List (List Value)) (streamed : List (Item (List Value)))
        → IsTrue ((O.meaning op.now).fits inputs)
        → O.shared_is (O.meaning op.now) inputs shared.now built streamed
        → IfOk result (λ rows. rows ≡ end_rows (O.meaning op.now) built streamed) }
{
    let mut rows = Vec::new(alloc);
    for k in 0..op.tails(shared) {
        let batch = op.tail(alloc, shared, k)?;
        let mut more = batch.into_rows().into_vec();
        rows.append(&mut more)?;
    }
    Ok(Seq::of(rows))
}

/// The peak of each of these edges.
pub fn peaks_of(alloc: Global, queues: &[Queue]) -> Mem<Seq<u32>>
    ensures { IfOk result (λ peaks. peaks ≡ map peak_of queues.now) }
{
    let mut peaks = Seq::new(alloc);
    for queue in queues {
        peaks.push(queue.edge.peak)?;
    }
    Ok(peaks)
}

/// The part in a place that holds one.
fn part_in<O: Drop, S: Drop, L: Drop>(share: &Option<Share<O, S, L>>) -> &Part<O, S, L>
    requires { HasPart share.now }
    ensures { share.now ≡ Some (Share.Part result.now) }
{
    match share {
        Some(Share::Part(part)) => part,
        _ => unreachable!(),
    }
}

impl<O: Operator> RunState<O> {
    /// The sink's part of worker 1, in a run that has ended.
    fn sink_part(&self) -> &Part<O, O::Shared, O::Local>
        requires { IsEnded (plan_of self.now.given) (state_of self.now) }
        ensures { IsSinkPart O.meaning O.local_is O.shared_is self.now result.now }
    {
        let sink = self.shares.len() - 1;
        part_in(&self.shares[sink][0])
    }

    /// What the run gives, once it has ended: the rows of its sink, its history, and how many batches waited on each edge at
    /// most. The rows are those of the plan over whole tables, and no edge held more than its pause threshold and one batch
    /// for each worker. Refused for want of memory alone.
    pub fn take_rows(self) -> Mem<Finished>
        requires { IsEnded (plan_of self.given) (state_of self) }
        ensures finished { IfOk result (λ finished. IsFinished self.given finished) }
        ensures history { IfOk result (λ finished. finished.history ≡ self.history) }
    {
        rows_kept::<Row>();
        bounded::<Row>();
        let alloc = *self.history.allocator();
        let part = self.sink_part();
        let rows = rows_at_end(alloc, &*part.op, &*part.shared)?;
        // the last node is the sink, which has no edge
        let edges = self.queues.len() - 1;
        let peaks = peaks_of(alloc, &self.queues[..edges])?;
        let RunState { history, .. } = self;
        Ok(Finished {
            rows,
            history: Seq::of(history),
            peaks,
        })
    }
}
