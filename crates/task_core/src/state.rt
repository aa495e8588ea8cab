ghost use Rattle.std.specs.Prelude.{◌≡◌, ◌↔◌, ◌≤◌, [], length, IfOk};
ghost use Rattle.plan_machine.specs.Enabled.{Enabled};
ghost use Rattle.plan_machine.specs.History.{IsEnded, HasFailed};
ghost use Rattle.plan_nodes.specs.Plans.{IsPlan};
ghost use Rattle.plan_store.specs.Told.{Told, plan_of, state_of, with_entry, given_by};
ghost use Rattle.plan_store.specs.Beginning.{AreTables, AreOperators, IsSetting};
ghost use Rattle.run_state.specs.Opening.{IsFinished};

use fetch_counts::{Front, fronts_of};
use plan_machine::Entry;
use plan_nodes::{Operator, Plan};
use row_table::Table;
use run_state::{Ending, Finished, RunState, Setting};
use scalar_value::{Mem, Seq};
use std::alloc::Global;
use std::marker::Model;
use std::sync::Arc;

/// The state of a plan's run, with its history. What it stores stands for the replay of that history.
#[derive(Drop)]
pub struct PlanState<O: Operator> {
    pub(crate) run: RunState<O>,
    pub(crate) fronts: Vec<Front>,
}

impl<O: Operator> Model for PlanState<O> {
    ghost use Rattle.std.specs.Coded.{codes};
    ghost use Rattle.na_expr.specs.contracts.expr.Expr as expr;
    ghost use Rattle.plan_store.specs.Told.{Told};
    ghost use Rattle.task_core.specs.Fronts.{FrontsStand};

    ghost Value = { Told };

    ghost coded = { Prim.hlevel (codes, expr.the_row.coded) };

    ghost view = { λ p. p.run };

    ghost invariant = { λ p. FrontsStand p.run p.fronts.items };
}

impl<O: Operator> PlanState<O> {
    /// A run of a plan that begins: over a table for each of its sources and an operator for each other node, both in the
    /// order of the plan, at this setting. It takes the room of all edges, so whoever has claimed can always deliver.
    pub fn new(
        alloc: Global,
        plan: &Plan,
        ops: Seq<Arc<O, Global>>,
        sources: Seq<Arc<Table, Global>>,
        setting: Setting,
    ) -> Mem<PlanState<O>>
        requires planned { IsPlan plan.now.nodes }
        requires nodes { length plan.now.nodes ≤ 256 }
        requires operators { AreOperators O.meaning plan.now.nodes setting.batch ops }
        requires tables { AreTables plan.now.nodes sources }
        requires setting { IsSetting setting }
        ensures { IfOk result (λ state. state ≡ record { given = given_by plan.now.nodes sources setting; history = []; room = 0 }) }
    {
        let fronts = fronts_of(alloc, plan.nodes.as_slice())?;
        let run = RunState::new(alloc, plan, ops, sources, setting)?;
        Ok(PlanState { run, fronts })
    }

    /// How many entries the history has.
    pub fn length(&self) -> u64
        ensures { result ≡ length self.now.history }
    {
        self.run.length()
    }

    /// Whether the run has ended, with its sink Done, or has failed, in both cases with nothing in flight; else it goes on.
    pub fn ended(&self) -> Ending
        ensures ended { (result ≡ Ending.Ended) ↔ IsEnded (plan_of self.now.given) (state_of self.now) }
        ensures failed { (result ≡ Ending.Failed) ↔ HasFailed (plan_of self.now.given) (state_of self.now) }
    {
        self.run.ended()
    }

    /// Pauses an edge on which more batches wait than the threshold.
    pub fn pause(&mut self, edge: u32)
        requires enabled { Enabled (plan_of self.old.given) (state_of self.old) (Entry.Pause edge) }
        requires room { 1 ≤ self.old.room }
        ensures { self.new ≡ with_entry self.old (Entry.Pause edge) 1 }
    {
        self.run.pause(edge);
    }

    /// Lets an edge go on that is paused, and on which no more batches wait than the lower threshold.
    pub fn resume(&mut self, edge: u32)
        requires enabled { Enabled (plan_of self.old.given) (state_of self.old) (Entry.Resume edge) }
        requires room { 1 ≤ self.old.room }
        ensures { self.new ≡ with_entry self.old (Entry.Resume edge) 1 }
    {
        self.run.resume(edge);
    }

    /// Ends a node that has given all of its rows, with none of its tasks in flight. As in Acero, a node is finished once
    /// it has sent its last batch on.
    pub fn finish(&mut self, node: u32)
        requires enabled { Enabled (plan_of self.old.given) (state_of self.old) (Entry.Finish node) }
        requires room { 1 ≤ self.old.room }
        ensures { self.new ≡ with_entry self.old (Entry.Finish node) 1 }
    {
        self.run.finish(node);
    }

    /// Ends all nodes below a fetch that has seen the rows that it wants, as Acero's fetch node stops its input: nothing
    /// waits on their edges any more, and what is in flight at them is dropped when it is delivered.
    pub fn stop(&mut self, node: u32)
        requires enabled { Enabled (plan_of self.old.given) (state_of self.old) (Entry.Stop node) }
        requires room { 1 ≤ self.old.room }
        ensures { self.new ≡ with_entry self.old (Entry.Stop node) 1 }
    {
        self.run.stop(node);
    }

    /// Ends the task of a worker that found no memory for it, and with it the run: from then on nothing is claimed, and
    /// what is still in flight is dropped when it is delivered.
    pub fn fail(&mut self, worker: u32)
        requires { Enabled (plan_of self.old.given) (state_of self.old) (Entry.Fail worker) }
        ensures { self.new ≡ with_entry self.old (Entry.Fail worker) 0 }
    {
        self.run.fail(worker);
    }

    /// What the run gives, once it has ended: the rows of its sink, its history, and how many batches waited on each edge at
    /// most. The rows are those of the plan over whole tables, and no edge held more than its pause threshold and one batch
    /// for each worker. Refused for want of memory alone.
    pub fn take_rows(self) -> Mem<Finished>
        requires { IsEnded (plan_of self.given) (state_of self) }
        ensures finished { IfOk result (IsFinished self.given) }
        ensures history { IfOk result (λ finished. finished.history ≡ self.history) }
    {
        let PlanState { run, .. } = self;
        run.take_rows()
    }
}
