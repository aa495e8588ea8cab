//! A run of three rows through a filter, one row in a batch: its rows, its history and its peaks, worked out by hand.
ghost use Rattle.std.specs.Prelude.{◌≡◌, [], ◌∷◌, IfOk, IfSome};
ghost use Rattle.chain_plans.specs.Chains.{IsStep};

use crate::{ChainRun, run_chain};
use chain_plans::Step;
use na_expr::{Expr, ExprFn, type_of};
use plan_machine::{Entry, Job};
use plan_nodes::NodeKind;
use row_table::{Field, Mark, Row, Schema, Table};
use scalar_value::{ColType, Mem, Seq, Text, Value};
use std::alloc::Global;
use std::sync::Arc;
use std::test::Fail;
use std::thread::Threads;
use worker_run::Setting;

fn schema_of(alloc: Global) -> Mem<Schema>
    ensures { IfOk result (λ schema. schema ≡ record { name = 120 ∷ []; kind = ColType.Int } ∷ []) }
{
    let mut schema = Seq::new(alloc);
    schema.push(Field {
        name: Text::of(alloc, "x")?,
        kind: ColType::Int,
    })?;
    Ok(schema)
}

fn row_of(alloc: Global, number: i64) -> Mem<Row>
    ensures { IfOk result (λ row. row ≡ Value.Int number ∷ []) }
{
    let mut row = Seq::new(alloc);
    row.push(Value::Int(number))?;
    Ok(row)
}

fn table_of(alloc: Global) -> Mem<Table>
    ensures { IfOk result (λ table. table.schema ≡ record { name = 120 ∷ []; kind = ColType.Int } ∷ []) }
{
    let schema = schema_of(alloc)?;
    let mut rows = Seq::new(alloc);
    rows.push(row_of(alloc, 7)?)?;
    rows.push(row_of(alloc, 8)?)?;
    rows.push(row_of(alloc, 9)?)?;
    Ok(Table {
        schema,
        groups: Seq::new(alloc),
        mark: Mark::Kept,
        rows,
    })
}

fn condition_of(alloc: Global) -> Mem<Expr> {
    let mut args = Seq::new(alloc);
    args.push(Expr::Col(0))?;
    args.push(Expr::Lit(Value::Int(7), ColType::Int))?;
    Ok(Expr::Call(ExprFn::Gt, args))
}

/// The step that keeps the rows on which x is over 7, behind these columns.
fn step_of(alloc: Global, schema: &Schema) -> Mem<Option<Step>>
    ensures { IfOk result (λ made. IfSome made (λ step. IsStep schema.now step)) }
{
    let condition = condition_of(alloc)?;
    match type_of(&condition, schema) {
        Ok(ColType::Lgl) => Ok(Some(Step {
            kind: NodeKind::Filter(condition),
            schema: schema.copy()?,
        })),
        _ => Ok(None),
    }
}

/// The run of `v |> filter(x > 7)` where an edge is paused by its second batch.
fn run_of<R: Threads + Sync>(rt: &R, alloc: Global) -> Mem<Option<ChainRun>> {
    let schema = schema_of(alloc)?;
    let Some(step) = step_of(alloc, &schema)? else {
        return Ok(None);
    };
    let mut steps = Seq::new(alloc);
    steps.push(step)?;
    let setting = Setting {
        batch: 1,
        workers: 1,
        pause: 1,
        resume: 0,
    };
    let name = Text::of(alloc, "v")?;
    let table = Arc::new(alloc, table_of(alloc)?)?;
    Ok(Some(run_chain(rt, alloc, name, table, steps, setting)?))
}

fn claim(node: u32, job: Job, batch: u64) -> Entry {
    Entry::Claim {
        worker: 1,
        node,
        job,
        batch,
    }
}

const DELIVER: Entry = Entry::Deliver { worker: 1 };

#[test]
fn a_filter_runs_batch_by_batch(rt: HostRuntime) -> Result<(), Fail> {
    let alloc = rt.alloc();
    let history = [
        claim(1, Job::Emit, 0),
        DELIVER,
        claim(1, Job::Emit, 1),
        DELIVER,
        Entry::Pause { edge: 1 },
        claim(2, Job::Stream, 0),
        DELIVER,
        claim(2, Job::Stream, 0),
        DELIVER,
        Entry::Pause { edge: 2 },
        Entry::Resume { edge: 1 },
        claim(1, Job::Emit, 2),
        DELIVER,
        Entry::Finish { node: 1 },
        claim(3, Job::Fold, 0),
        DELIVER,
        claim(3, Job::Fold, 0),
        DELIVER,
        Entry::Resume { edge: 2 },
        claim(2, Job::Stream, 0),
        DELIVER,
        Entry::Finish { node: 2 },
        claim(3, Job::Fold, 0),
        DELIVER,
        claim(3, Job::Seal, 0),
        DELIVER,
        Entry::Finish { node: 3 },
    ];
    match run_of(&rt, alloc)? {
        Some(run) => {
            assert_eq!(rt; run.finished.history.as_slice(), history.as_slice());
            assert_eq!(rt; run.finished.peaks.as_slice(), [2, 2].as_slice());
            assert_eq!(rt; run.finished.rows.len(), 2);
            assert_eq!(rt; run.plan.nodes.len(), 3);
        }
        None => assert!(rt; false, "no condition"),
    }
    Ok(())
}
