//! A chain of filters and projects over one table, run on one worker.
ghost use Rattle.std.specs.Prelude.{◌≡◌, ◌≤◌, [], ◌∷◌, IsTrue, length, IfOk};
ghost use Rattle.std.specs.Arc.{arc_value};
ghost use Rattle.row_table.specs.Tables.{fit_rows};
ghost use Rattle.row_table.specs.declared.table.Mark.TheVariants as mark;
ghost use Rattle.plan_machine.specs.Driver.{IsDriven};
ghost use Rattle.plan_store.specs.Told.{plan_of, given_by};
ghost use Rattle.plan_store.specs.Beginning.{IsSetting};
ghost use Rattle.run_state.specs.Opening.{IsFinished};
ghost use Rattle.chain_plans.specs.Chains.{AreSteps, chain_nodes, chain_rows};

use crate::run::run_plan;
use chain_plans::{Step, chain, chains_are_plans, chains_mean};
use plan_nodes::Plan;
use row_table::{Mark, Schema, Table};
use scalar_value::{Mem, Seq, Text};
use std::alloc::Global;
use std::sync::Arc;
use std::thread::Threads;
use worker_run::{Finished, Setting};

/// A run of a chain: its plan, and what the run gave.
#[derive(Debug, Drop)]
pub struct ChainRun {
    pub plan: Plan,
    pub finished: Finished,
}

/// A copy of a table's columns, and its mark.
fn head_of(table: &Table) -> Mem<(Schema, Mark)>
    ensures head { IfOk result (λ head. (head.0 ≡ table.now.schema) × (head.1 ≡ table.now.mark)) }
    ensures fits { IsTrue (fit_rows table.now.schema table.now.rows) }
{
    let _rows = &table.rows;
    Ok((table.schema.copy()?, table.mark))
}

/// Runs the plan in which the rows of a table of this name go through these steps to the sink: on one worker, at this
/// setting. It always returns; the only error is want of memory. Where the order of the table's rows is kept, the rows of
/// the result are those that the steps give, one after another.
pub fn run_chain<R: Threads + Sync>(
    rt: &R,
    alloc: Global,
    name: Text,
    table: Arc<Table, Global>,
    steps: Seq<Step>,
    setting: Setting,
) -> Mem<ChainRun>
    requires steps { AreSteps (arc_value table).schema steps }
    requires few { length steps ≤ 254 }
    requires setting { IsSetting setting }
    ensures plan { IfOk result (λ run. run.plan.nodes ≡ chain_nodes name (arc_value table).mark (arc_value table).schema steps) }
    ensures finished { IfOk result (λ run. IsFinished (given_by run.plan.nodes (table ∷ []) setting) run.finished) }
    ensures driven { IfOk result (λ run. IsDriven (plan_of (given_by run.plan.nodes (table ∷ []) setting)) run.finished.history) }
    ensures rows { (arc_value table).mark ≡ mark.Kept → IfOk result (λ run. run.finished.rows ≡ chain_rows steps (arc_value table).rows) }
{
    chains_are_plans();
    chains_mean();
    let (schema, mark) = head_of(&*table)?;
    let plan = chain(alloc, name, mark, schema, steps)?;
    let mut sources = Seq::new(alloc);
    sources.push(table)?;
    let finished = run_plan(rt, alloc, &plan, sources, setting)?;
    Ok(ChainRun { plan, finished })
}
