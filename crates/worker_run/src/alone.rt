//! A plan on one worker: the driver does what upkeep is due, and else claims, works and delivers, until the run has ended.
ghost use Rattle.std.specs.Prelude.{◌≡◌, ◌≤◌, ℕ, length, IfOk, OnOk};
ghost use Rattle.plan_machine.specs.Plan.{IsWorker};
ghost use Rattle.plan_machine.specs.History.{IsEnded};
ghost use Rattle.plan_machine.specs.Driver.{IsUpkeepChoice, CanWork, IsDriven};
ghost use Rattle.plan_nodes.specs.Plans.{IsPlan, IsPace};
ghost use Rattle.plan_bounds.specs.Bounds.{most_entries};
ghost use Rattle.plan_store.specs.Told.{plan_of, state_of, given_by, pace_of, rows_of_tables, with_entry};
ghost use Rattle.plan_store.specs.Beginning.{AreTables, AreOperators, IsSetting};
ghost use Rattle.run_state.specs.Opening.{IsFinished};
ghost use Rattle.worker_run.specs.Driving.{IsDriving, WentOn, Worked};

use plan_bounds::plans_end;
use plan_machine::{Entry, driver_can_claim, driver_is_legal};
use plan_nodes::{Operator, Plan, plans_are_well_formed};
use row_table::{Row, Table};
use scalar_value::{Mem, Seq};
use std::alloc::Global;
use std::sync::Arc;
use std::thread::Threads;
use task_core::{Ending, Finished, PlanState, Setting};
use task_work::run_task;

/// Adds the upkeep that is due, which is the first of Stop, Pause, Finish and Resume that is enabled.
pub fn keep_up<O: Operator>(state: &mut PlanState<O>, due: Entry)
    requires chosen { IsUpkeepChoice (plan_of state.old.given) (state_of state.old) due }
    requires room { 1 ≤ state.old.room }
    ensures { state.new ≡ with_entry state.old due 1 }
{
    match due {
        Entry::Pause { edge } => state.pause(edge),
        Entry::Finish { node } => state.finish(node),
        Entry::Resume { edge } => state.resume(edge),
        Entry::Stop { node } => state.stop(node),
        Entry::Claim { .. } => unreachable!(),
        Entry::Deliver { .. } => unreachable!(),
        Entry::Fail { .. } => unreachable!(),
    }
}

/// Claims, works and delivers.
fn work<R: Threads + Sync, O: Operator>(rt: &R, alloc: Global, state: &mut PlanState<O>) -> Mem<()>
    requires worker { IsWorker (plan_of state.old.given) 1 }
    requires batch { 1 ≤ state.old.given.pace.batch }
    requires can { CanWork (plan_of state.old.given) (state_of state.old) 1 }
    requires room { 2 ≤ state.old.room }
    ensures { OnOk result (Worked state.old state.new) }
{
    match state.claim(1) {
        Some(task) => {
            let done = run_task(rt, alloc, task)?;
            state.deliver(1, done);
            Ok(())
        }
        None => unreachable!(),
    }
}

/// One turn of the driver: the upkeep that is due, or else a task.
fn turn<R: Threads + Sync, O: Operator>(rt: &R, alloc: Global, state: &mut PlanState<O>) -> Mem<()>
    requires plan { IsPlan state.old.given.nodes }
    requires pace { IsPace state.old.given.pace }
    requires driving { IsDriving state.old }
    requires running { IsEnded (plan_of state.old.given) (state_of state.old) → ⊥ }
    ensures { OnOk result (WentOn state.old state.new) }
{
    plans_are_well_formed();
    driver_can_claim::<Row>();
    state.reserve()?;
    match state.upkeep() {
        Some(due) => {
            keep_up(state, due);
            Ok(())
        }
        None => work(rt, alloc, state),
    }
}

/// Turns until the run has ended, and what it gives.
fn run<R: Threads + Sync, O: Operator>(rt: &R, alloc: Global, state: PlanState<O>) -> Mem<Finished>
    requires plan { IsPlan state.given.nodes }
    requires pace { IsPace state.given.pace }
    requires driving { IsDriving state }
    ensures finished { IfOk result (IsFinished state.given) }
    ensures driven { IfOk result (λ finished. IsDriven (plan_of state.given) finished.history) }
{
    plans_end();
    driver_is_legal::<Row>();
    let mut state = state;
    while state.ended() != Ending::Ended {
        turn(rt, alloc, &mut state)?;
    }
    state.take_rows()
}

/// Runs a plan on one worker, over a table for each of its sources and an operator for each other node, both in the order
/// of the plan, at this setting: its rows, its history, and the peak of each edge. It always returns; the only error is
/// want of memory.
///
/// As in Acero, batches flow from the sources to the sink, and an edge on which too many wait pauses its producer. With one
/// worker the history is determined by the plan alone: the driver does what upkeep is due, and else the first task that
/// can be claimed.
pub fn run_alone<R: Threads + Sync, O: Operator>(
    rt: &R,
    alloc: Global,
    plan: &Plan,
    ops: Seq<Arc<O, Global>>,
    sources: Seq<Arc<Table, Global>>,
    setting: Setting,
) -> Mem<Finished>
    requires planned { IsPlan plan.now.nodes }
    requires nodes { length plan.now.nodes ≤ 256 }
    requires operators { AreOperators O.meaning plan.now.nodes setting.batch ops }
    requires tables { AreTables plan.now.nodes sources }
    requires setting { IsSetting setting }
    ensures finished { IfOk result (IsFinished (given_by plan.now.nodes sources setting)) }
    ensures driven { IfOk result (λ finished. IsDriven (plan_of (given_by plan.now.nodes sources setting)) finished.history) }
    ensures most { IfOk result (λ finished. length finished.history ≤ most_entries plan.now.nodes (rows_of_tables sources) (pace_of setting)) }
{
    plans_end();
    let state = PlanState::new(alloc, plan, ops, sources, setting)?;
    run(rt, alloc, state)
}
