ghost use Rattle.std.specs.Prelude.{◌≡◌, ◌≤◌, length, replicate, None, vec_len, IfOk, OnOk};
ghost use Rattle.plan_nodes.specs.Plans.{IsPlan, IsPace};
ghost use Rattle.plan_store.specs.Told.{given_by};
ghost use Rattle.plan_store.specs.Beginning.{AreTables, AreOperators, IsSetting};
ghost use Rattle.played_runs.specs.Hands.{AreHands, IsPlayed};

use crate::moves::{Hand, Move, make_move};
use plan_nodes::{Operator, Plan};
use row_table::Table;
use scalar_value::{Mem, Seq};
use std::alloc::Global;
use std::sync::Arc;
use std::thread::Threads;
use task_core::{Ending, Finished, PlanState, Setting};

/// How a run stands behind the last move.
#[derive(Debug, Drop)]
pub enum Played {
    /// It has ended, with these rows.
    Ended(Finished),
    /// A worker failed, and nothing is in flight.
    Failed,
    /// It goes on.
    Running,
}

/// What stands behind the last move.
fn outcome<O: Operator>(state: PlanState<O>) -> Mem<Played>
    ensures { IfOk result (IsPlayed state.given) }
{
    match state.ended() {
        Ending::Ended => Ok(Played::Ended(state.take_rows()?)),
        Ending::Failed => Ok(Played::Failed),
        Ending::Running => Ok(Played::Running),
    }
}

/// Nothing in any hand.
fn empty_hands<O: Operator>(
    alloc: Global,
    workers: u32,
) -> Mem<Vec<Option<Hand<O, O::Shared, O::Local>>>>
    ensures { IfOk result (λ hands. hands.items ≡ replicate workers None) }
{
    let mut hands = Vec::with_capacity(alloc, workers as usize)?;
    for _ in 0..workers {
        hands.push(None)?;
    }
    Ok(hands)
}

/// Makes these moves, one after another.
fn make_moves<R: Threads + Sync, O: Operator>(
    rt: &R,
    alloc: Global,
    state: &mut PlanState<O>,
    hands: &mut Vec<Option<Hand<O, O::Shared, O::Local>>>,
    moves: &[Move],
) -> Mem<()>
    requires pace { IsPace state.old.given.pace }
    requires hands { AreHands O.meaning O.local_is O.shared_is state.old hands.old.items }
    requires workers { vec_len hands.old ≡ state.old.given.pace.workers }
    requires few { vec_len hands.old ≤ 64 }
    ensures given { OnOk result (state.new.given ≡ state.old.given) }
    ensures hands { OnOk result (AreHands O.meaning O.local_is O.shared_is state.new hands.new.items) }
    ensures workers { vec_len hands.new ≡ vec_len hands.old }
{
    for next in moves {
        make_move(rt, alloc, state, hands, *next)?;
    }
    Ok(())
}

/// Plays these moves, one after another and all of them so many times, in a run of a plan over a table for each of its sources
/// and an operator for each other node, both in the order of the plan, at this setting. The only error is want of memory.
///
/// Whatever the moves are: where the run ends, its rows are those of the plan's meaning, and no edge ever held more than the
/// pause threshold and one batch for each worker.
pub fn play<R: Threads + Sync, O: Operator>(
    rt: &R,
    alloc: Global,
    plan: &Plan,
    ops: Seq<Arc<O, Global>>,
    sources: Seq<Arc<Table, Global>>,
    setting: Setting,
    moves: &[Move],
    times: u32,
) -> Mem<Played>
    requires planned { IsPlan plan.now.nodes }
    requires nodes { length plan.now.nodes ≤ 256 }
    requires operators { AreOperators O.meaning plan.now.nodes setting.batch ops }
    requires tables { AreTables plan.now.nodes sources }
    requires setting { IsSetting setting }
    ensures { IfOk result (IsPlayed (given_by plan.now.nodes sources setting)) }
{
    let mut state = PlanState::new(alloc, plan, ops, sources, setting)?;
    let mut hands = empty_hands(alloc, setting.workers)?;
    for _ in 0..times {
        make_moves(rt, alloc, &mut state, &mut hands, moves)?;
    }
    outcome(state)
}
