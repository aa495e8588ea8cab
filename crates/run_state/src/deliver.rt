// A worker gives back what it has in hand.

ghost use Rattle.std.specs.Prelude.{◌≡◌, ◌≤◌, ℕ, true, false};
ghost use Rattle.plan_machine.specs.declared.entry.Entry.TheVariants as EntryOf;
ghost use Rattle.plan_machine.specs.Plan.{IsNode, IsWorker};
ghost use Rattle.task_work.specs.declared.work.Fruit.TheVariants as FruitOf;
ghost use Rattle.plan_store.specs.Told.{plan_of, state_of, with_entry};
ghost use Rattle.run_state.specs.Calls.{IsDue};
ghost use Rattle.run_state.specs.Delivering.{IsFlying, is_dropped};

use crate::state::RunState;
use column_batch::Batch;
use plan_machine::{Phase, phase_after_seal};
use plan_nodes::Operator;
use plan_store::{
    begin_phase, depart, first_input, has_ended, put_back, put_rest, put_row, put_share, shape_at,
};
use row_table::Table;
use std::alloc::Global;
use std::sync::Arc;
use task_work::{Done, Fruit, Part, Share, Waiting};

impl<O: Operator> RunState<O> {
    /// The worker gives back what it has in hand: its shares of the node, and what its job made. A batch of the node's
    /// output waits on the node's edge from now on; after a failure, and at a node that was stopped, all of it is dropped.
    pub fn deliver(&mut self, worker: u32, done: Done<O>)
        requires worker { IsWorker (plan_of self.old.given) worker }
        requires due { IsDue O.meaning O.local_is O.shared_is self.old worker done.node done.fruit }
        ensures { self.new ≡ with_entry self.old (EntryOf.Deliver worker) 0 }
    {
        let node = done.node;
        if self.drops(worker, node) {
            self.deliver_nothing(worker, node);
            return;
        }
        match done.fruit {
            Fruit::Emit { table, out } => self.deliver_emit(worker, node, table, out),
            Fruit::Fold {
                part,
                index: _,
                rows: _,
            } => self.deliver_fold(worker, node, part),
            Fruit::Seal { row, count } => self.deliver_seal(worker, node, row, count),
            Fruit::Stream { part, out, rest } => self.deliver_stream(worker, node, part, out, rest),
            Fruit::Close { row, count } => self.deliver_close(worker, node, row, count),
            Fruit::Tail { part, out } => self.deliver_tail(worker, node, part, out),
        }
    }

    /// Whether what comes back from this node is dropped: the run failed, or the node was stopped.
    pub fn drops(&self, worker: u32, node: u32) -> bool
        requires flying { IsFlying self.now worker node }
        ensures dropped { result ≡ is_dropped self.now node }
        ensures node { IsNode (plan_of self.now.given) node }
    {
        let _room = self.room;
        self.failed || has_ended(self.stages[(node - 1) as usize].phase)
    }

    /// Drops a delivery.
    fn deliver_nothing(&mut self, worker: u32, node: u32)
        requires worker { IsWorker (plan_of self.old.given) worker }
        requires flying { IsFlying self.old worker node }
        requires dropped { is_dropped self.old node ≡ true }
        ensures { self.new ≡ with_entry self.old (EntryOf.Deliver worker) 0 }
    {
        let _room = self.room;
        depart(
            &mut self.seats,
            &mut self.stages,
            &mut self.history,
            &mut self.flying,
            worker,
            node,
        );
    }

    /// Delivers what a Fold made.
    fn deliver_fold(&mut self, worker: u32, node: u32, part: Part<O, O::Shared, O::Local>)
        requires worker { IsWorker (plan_of self.old.given) worker }
        requires due { (index : ℕ) × (rows : ℕ) × IsDue O.meaning O.local_is O.shared_is self.old worker node (FruitOf.Fold part index rows) }
        requires kept { is_dropped self.old node ≡ false }
        ensures { self.new ≡ with_entry self.old (EntryOf.Deliver worker) 0 }
    {
        let _room = self.room;
        depart(
            &mut self.seats,
            &mut self.stages,
            &mut self.history,
            &mut self.flying,
            worker,
            node,
        );
        put_share(&mut self.shares, worker, node, Share::Part(part));
    }

    /// Delivers the batch that an Emit gave.
    fn deliver_emit(&mut self, worker: u32, node: u32, table: Arc<Table, Global>, out: Batch)
        requires worker { IsWorker (plan_of self.old.given) worker }
        requires due { IsDue O.meaning O.local_is O.shared_is self.old worker node (FruitOf.Emit table out) }
        requires kept { is_dropped self.old node ≡ false }
        ensures { self.new ≡ with_entry self.old (EntryOf.Deliver worker) 0 }
    {
        let _room = self.room;
        depart(
            &mut self.seats,
            &mut self.stages,
            &mut self.history,
            &mut self.flying,
            worker,
            node,
        );
        put_share(&mut self.shares, worker, node, Share::Table(table));
        put_back(
            &mut self.queues,
            node,
            Waiting {
                batch: out,
                from: 0,
            },
        );
    }

    /// Delivers the batch that a Tail gave.
    fn deliver_tail(
        &mut self,
        worker: u32,
        node: u32,
        part: Part<O, O::Shared, O::Local>,
        out: Batch,
    )
        requires worker { IsWorker (plan_of self.old.given) worker }
        requires due { IsDue O.meaning O.local_is O.shared_is self.old worker node (FruitOf.Tail part out) }
        requires kept { is_dropped self.old node ≡ false }
        ensures { self.new ≡ with_entry self.old (EntryOf.Deliver worker) 0 }
    {
        let _room = self.room;
        depart(
            &mut self.seats,
            &mut self.stages,
            &mut self.history,
            &mut self.flying,
            worker,
            node,
        );
        put_share(&mut self.shares, worker, node, Share::Part(part));
        put_back(
            &mut self.queues,
            node,
            Waiting {
                batch: out,
                from: 0,
            },
        );
    }

    /// Delivers what a Seal made of all that was gathered.
    fn deliver_seal(
        &mut self,
        worker: u32,
        node: u32,
        row: Vec<Option<Share<O, O::Shared, O::Local>>>,
        count: u64,
    )
        requires worker { IsWorker (plan_of self.old.given) worker }
        requires due { IsDue O.meaning O.local_is O.shared_is self.old worker node (FruitOf.Seal row count) }
        requires kept { is_dropped self.old node ≡ false }
        ensures { self.new ≡ with_entry self.old (EntryOf.Deliver worker) 0 }
    {
        let _room = self.room;
        let phase = phase_after_seal(shape_at(&self.infos, node));
        depart(
            &mut self.seats,
            &mut self.stages,
            &mut self.history,
            &mut self.flying,
            worker,
            node,
        );
        put_row(&mut self.shares, node, row);
        begin_phase(&mut self.stages, node, phase, count);
    }

    /// Delivers what a Close made of all that was streamed.
    fn deliver_close(
        &mut self,
        worker: u32,
        node: u32,
        row: Vec<Option<Share<O, O::Shared, O::Local>>>,
        count: u64,
    )
        requires worker { IsWorker (plan_of self.old.given) worker }
        requires due { IsDue O.meaning O.local_is O.shared_is self.old worker node (FruitOf.Close row count) }
        requires kept { is_dropped self.old node ≡ false }
        ensures { self.new ≡ with_entry self.old (EntryOf.Deliver worker) 0 }
    {
        let _room = self.room;
        depart(
            &mut self.seats,
            &mut self.stages,
            &mut self.history,
            &mut self.flying,
            worker,
            node,
        );
        put_row(&mut self.shares, node, row);
        begin_phase(&mut self.stages, node, Phase::Tailing, count);
    }

    /// Delivers the batch that a Stream gave, and what is left of the one that it took.
    fn deliver_stream(
        &mut self,
        worker: u32,
        node: u32,
        part: Part<O, O::Shared, O::Local>,
        out: Batch,
        rest: Option<Waiting>,
    )
        requires worker { IsWorker (plan_of self.old.given) worker }
        requires due { IsDue O.meaning O.local_is O.shared_is self.old worker node (FruitOf.Stream part out rest) }
        requires kept { is_dropped self.old node ≡ false }
        ensures { self.new ≡ with_entry self.old (EntryOf.Deliver worker) 0 }
    {
        let _room = self.room;
        let edge = first_input(&self.infos, node);
        depart(
            &mut self.seats,
            &mut self.stages,
            &mut self.history,
            &mut self.flying,
            worker,
            node,
        );
        put_share(&mut self.shares, worker, node, Share::Part(part));
        put_rest(&mut self.queues, edge, rest);
        put_back(
            &mut self.queues,
            node,
            Waiting {
                batch: out,
                from: 0,
            },
        );
    }
}
