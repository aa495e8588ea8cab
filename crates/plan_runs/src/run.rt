//! A plan, run on one worker.
ghost use Rattle.std.specs.Prelude.{◌≤◌, length, IfOk};
ghost use Rattle.plan_machine.specs.Driver.{IsDriven};
ghost use Rattle.plan_bounds.specs.Bounds.{most_entries};
ghost use Rattle.plan_nodes.specs.Plans.{IsPlan};
ghost use Rattle.plan_store.specs.Told.{plan_of, given_by, pace_of, rows_of_tables};
ghost use Rattle.plan_store.specs.Beginning.{AreTables, IsSetting};
ghost use Rattle.run_state.specs.Opening.{IsFinished};

use crate::operators::operators_of;
use plan_nodes::Plan;
use row_table::Table;
use scalar_value::{Mem, Seq};
use std::alloc::Global;
use std::sync::Arc;
use std::thread::Threads;
use worker_run::{Finished, Setting, run_alone};

/// Runs a plan on one worker, over a table for each of its sources in the order of the plan: its rows, its history, and the
/// peak of each edge. It always returns; the only error is want of memory.
pub fn run_plan<R: Threads + Sync>(
    rt: &R,
    alloc: Global,
    plan: &Plan,
    sources: Seq<Arc<Table, Global>>,
    setting: Setting,
) -> Mem<Finished>
    requires planned { IsPlan plan.now.nodes }
    requires nodes { length plan.now.nodes ≤ 256 }
    requires tables { AreTables plan.now.nodes sources }
    requires setting { IsSetting setting }
    ensures finished { IfOk result (IsFinished (given_by plan.now.nodes sources setting)) }
    ensures driven { IfOk result (λ finished. IsDriven (plan_of (given_by plan.now.nodes sources setting)) finished.history) }
    ensures most { IfOk result (λ finished. length finished.history ≤ most_entries plan.now.nodes (rows_of_tables sources) (pace_of setting)) }
{
    let ops = operators_of(alloc, plan, setting.batch)?;
    run_alone(rt, alloc, plan, ops, sources, setting)
}
