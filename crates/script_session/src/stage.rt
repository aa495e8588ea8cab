//! What a script means over tables, run as a plan.
ghost use Rattle.std.specs.Prelude.{◌≡◌, ◌≤◌, ◌<◌, ◌^◌, All, length, [], ◌∷◌, Some, map, slice_get, option_map, IfOk};
ghost use Rattle.row_table.specs.Tables.{IsTable};
ghost use Rattle.row_table.specs.declared.table.Mark.TheVariants as mark;
ghost use Rattle.plan_store.specs.Beginning.{IsSetting};
ghost use Rattle.chain_plans.specs.Chains.{AreSteps, chain_rows};
ghost use Rattle.verb_meaning.specs.Meaning.{table_with};
ghost use Rattle.script_session.specs.ReadScript.{fault_at, script_meaning, evaluation_kind};
ghost use Rattle.script_session.specs.RunRecord.{run_of};
ghost use Rattle.script_session.specs.Outcome.{RunsMeaning, IsRan, planned_run};

use crate::script::{ScriptFault, ScriptKind};
use plan_runs::{ChainRun, run_chain};
use row_table::{Row, Table};
use run_report::PlanRun;
use scalar_value::{Mem, NoMemory, Or, Res, Seq, Text};
use script_evaluation::{EvaluationKind, Stage, evaluate, plans_mean_their_tables};
use std::alloc::Global;
use std::str;
use std::sync::Arc;
use std::thread::Threads;
use token_scan::place_of;
use verb_forms::Shape;
use verb_syntax::Script;
use worker_run::{Finished, Setting};

/// What a script's plan gave: its table, and its run.
#[derive(Debug, Drop)]
pub struct Ran {
    pub table: Table,
    pub run: PlanRun,
}

fn evaluation_kind(kind: EvaluationKind) -> ScriptKind
    ensures { result ≡ evaluation_kind kind }
{
    match kind {
        EvaluationKind::Verb(verb) => ScriptKind::Verb(verb),
        EvaluationKind::PlanTooLarge => ScriptKind::PlanTooLarge,
    }
}

// A fault of a script's meaning, by its line and column. Each place of a tree is the start of a token; where one weren't,
// want of memory would be answered.
fn fault_of(bytes: &[u8], kind: EvaluationKind, at: u32) -> Mem<ScriptFault>
    requires { length bytes.now ≤ 2 ^ 20 }
    ensures { IfOk result (λ fault. fault ≡ fault_at bytes.now (evaluation_kind kind) at) }
{
    match str::from_utf8(bytes) {
        Ok(script) => {
            if script.is_char_boundary(at as usize) {
                Ok(ScriptFault {
                    kind: evaluation_kind(kind),
                    place: place_of(script, at),
                })
            } else {
                Err(NoMemory)
            }
        }
        Err(_) => Err(NoMemory),
    }
}

// The table at a place, without the others.
fn take_table(tables: Seq<(Text, Table)>, place: usize) -> Table
    requires { place < length tables }
    ensures given { Some result ≡ option_map (λ t. t.1) (slice_get tables place) }
    ensures table { IsTable result }
{
    let mut tables = tables.into_vec();
    let (_, table) = tables.swap_remove(place);
    let _rows = &table.rows;
    table
}

// The run of a chain, as the record tells it.
fn run_of(plan: plan_nodes::Plan, setting: Setting, finished: Finished) -> (PlanRun, Seq<Row>)
    ensures run { result.0 ≡ run_of plan setting finished }
    ensures rows { result.1 ≡ finished.rows }
{
    let Finished {
        rows,
        history,
        peaks,
    } = finished;
    let run = PlanRun {
        plan,
        batch: setting.batch,
        workers: setting.workers,
        pause: setting.pause,
        resume: setting.resume,
        history,
        peaks,
    };
    (run, rows)
}

// Rows as a table of this shape.
fn table_of(shape: Shape, rows: Seq<Row>) -> Table
    requires { IsTable (table_with shape rows) }
    ensures { result ≡ table_with shape rows }
{
    let Shape {
        schema,
        groups,
        mark,
    } = shape;
    Table {
        schema,
        groups,
        mark,
        rows,
    }
}

// Runs the plan of a stage, over the table that it begins with.
fn run_stage<R: Threads + Sync>(
    rt: &R,
    alloc: Global,
    setting: Setting,
    source: Table,
    stage: Stage,
) -> Mem<Ran>
    requires setting { IsSetting setting }
    requires kept { source.mark ≡ mark.Kept }
    requires head { (stage.tree.mark ≡ source.mark) × (stage.tree.schema ≡ source.schema) }
    requires few { length stage.tree.steps ≤ 254 }
    requires steps { AreSteps source.schema stage.tree.steps }
    requires table { IsTable (table_with stage.shape (chain_rows stage.tree.steps source.rows)) }
    ensures { IfOk result (IsRan (planned_run setting stage source)) }
{
    let Stage {
        tree,
        shape,
        source: _,
    } = stage;
    let table = Arc::new(alloc, source)?;
    let ChainRun { plan, finished } = run_chain(rt, alloc, tree.name, table, tree.steps, setting)?;
    let (run, rows) = run_of(plan, setting, finished);
    Ok(Ran {
        table: table_of(shape, rows),
        run,
    })
}

/// Runs what a script of these bytes means over tables, on as many workers as the setting says, or gives its first fault.
#[tactic(auto, unfolding(crate::specs::ReadScript::script_meaning))]
pub fn run_script<R: Threads + Sync>(
    rt: &R,
    alloc: Global,
    setting: Setting,
    bytes: &[u8],
    script: &Script,
    tables: Seq<(Text, Table)>,
) -> Res<Ran, ScriptFault>
    requires short { length bytes.now ≤ 2 ^ 20 }
    requires setting { IsSetting setting }
    requires kept { All (λ t. t.1.mark ≡ mark.Kept) tables }
    ensures { RunsMeaning setting result (script_meaning bytes.now script.now tables) }
{
    plans_mean_their_tables();
    match evaluate(alloc, script, tables.as_slice()) {
        Ok(stage) => {
            let source = take_table(tables, stage.source);
            Ok(run_stage(rt, alloc, setting, source, stage)?)
        }
        Err(Or::Fault(fault)) => Err(Or::Fault(fault_of(bytes, fault.kind, fault.at)?)),
        Err(Or::Memory) => Err(Or::Memory),
    }
}
