//! Schedules played over a join and over a fetch, with batches of one row: each that ends has the same rows, and no edge holds
//! more than the pause threshold and one batch for each worker.
ghost use Rattle.std.specs.Prelude.{◌≡◌, ◌≤◌, ◌+◌, ◌-◌, ◌^◌, ◌∷◌, [], ℕ, IfOk, IsTrue};
ghost use Rattle.row_table.specs.Tables.{fits_row, fit_rows, names_differ};
ghost use Rattle.plan_store.specs.Beginning.{AreTables};
ghost use Rattle.played_runs.specs.Examples.{join_nodes, fetch_nodes, full_join, left_schema as left_columns, right_schema as right_columns, joined_schema as joined_columns};

use crate::{Move, Played, play};
use na_expr::Expr;
use plan_machine::Entry;
use plan_nodes::{JoinSpec, Node, NodeKind, Plan};
use plan_runs::operators_of;
use row_table::{Field, JoinKind, Mark, Row, Schema, Table};
use scalar_value::{ColType, Mem, Seq, Text, Value};
use std::alloc::Global;
use std::process::Abort;
use std::sync::Arc;
use std::test::Fail;
use std::thread::Threads;
use worker_run::Setting;

fn field(alloc: Global, name: &str, kind: ColType) -> Mem<Field>
    ensures { IfOk result (λ f. f ≡ record { name = name.now; kind = kind }) }
{
    Ok(Field {
        name: Text::of(alloc, name)?,
        kind,
    })
}

fn left_schema(alloc: Global) -> Mem<Schema>
    ensures { IfOk result (λ schema. schema ≡ left_columns) }
{
    let mut schema = Seq::new(alloc);
    schema.push(field(alloc, "a", ColType::Int)?)?;
    Ok(schema)
}

fn right_schema(alloc: Global) -> Mem<Schema>
    ensures { IfOk result (λ schema. schema ≡ right_columns) }
{
    let mut schema = Seq::new(alloc);
    schema.push(field(alloc, "b", ColType::Int)?)?;
    schema.push(field(alloc, "f", ColType::Lgl)?)?;
    Ok(schema)
}

fn joined_schema(alloc: Global) -> Mem<Schema>
    ensures { IfOk result (λ schema. schema ≡ joined_columns) }
{
    let mut schema = Seq::new(alloc);
    schema.push(field(alloc, "a", ColType::Int)?)?;
    schema.push(field(alloc, "b", ColType::Int)?)?;
    schema.push(field(alloc, "f", ColType::Lgl)?)?;
    Ok(schema)
}

fn full_join(alloc: Global) -> Mem<JoinSpec>
    ensures { IfOk result (λ j. j ≡ full_join) }
{
    Ok(JoinSpec {
        kind: JoinKind::Full,
        left_keys: Seq::of_slice(alloc, &[0])?,
        right_keys: Seq::of_slice(alloc, &[0])?,
        na_match: false,
    })
}

fn node(alloc: Global, kind: NodeKind, inputs: &[u32], mark: Mark, schema: Schema) -> Mem<Node>
    ensures { IfOk result (λ v. v ≡ record { kind = kind; inputs = inputs.now; mark = mark; schema = schema }) }
{
    Ok(Node {
        kind,
        inputs: Seq::of_slice(alloc, inputs)?,
        mark,
        schema,
    })
}

fn source(alloc: Global, name: &str, schema: Schema) -> Mem<Node>
    ensures { IfOk result (λ v. v ≡ record { kind = NodeKind.Source name.now; inputs = []; mark = Mark.Kept; schema = schema }) }
{
    node(
        alloc,
        NodeKind::Source(Text::of(alloc, name)?),
        &[],
        Mark::Kept,
        schema,
    )
}

/// The node behind others whose rows have no order.
fn behind(alloc: Global, kind: NodeKind, inputs: &[u32]) -> Mem<Node>
    ensures { IfOk result (λ v. v ≡ record { kind = kind; inputs = inputs.now; mark = Mark.Unordered; schema = joined_columns }) }
{
    node(alloc, kind, inputs, Mark::Unordered, joined_schema(alloc)?)
}

fn join_plan(alloc: Global) -> Mem<Plan>
    ensures { IfOk result (λ plan. plan.nodes ≡ join_nodes) }
{
    let mut nodes = Seq::new(alloc);
    nodes.push(source(alloc, "x", left_schema(alloc)?)?)?;
    nodes.push(source(alloc, "y", right_schema(alloc)?)?)?;
    nodes.push(behind(alloc, NodeKind::HashJoin(full_join(alloc)?), &[1, 2])?)?;
    nodes.push(behind(alloc, NodeKind::Filter(Expr::Col(2)), &[3])?)?;
    nodes.push(behind(alloc, NodeKind::Sink, &[4])?)?;
    Ok(Plan { nodes })
}

fn row_of(alloc: Global, values: &[Option<i64>], flag: Option<bool>) -> Mem<Row> {
    let mut row = Seq::new(alloc);
    for value in values {
        match value {
            Some(number) => row.push(Value::Int(*number))?,
            None => row.push(Value::Missing)?,
        }
    }
    match flag {
        Some(truth) => row.push(Value::Lgl(truth))?,
        None => {}
    }
    Ok(row)
}

fn left_row(alloc: Global, a: Option<i64>) -> Mem<Row>
    ensures { IfOk result (λ row. IsTrue (fits_row left_columns row)) }
{
    let mut row = Seq::new(alloc);
    match a {
        Some(number) => row.push(Value::Int(number))?,
        None => row.push(Value::Missing)?,
    }
    Ok(row)
}

fn right_row(alloc: Global, b: i64, flag: bool) -> Mem<Row>
    ensures { IfOk result (λ row. IsTrue (fits_row right_columns row)) }
{
    let mut row = Seq::new(alloc);
    row.push(Value::Int(b))?;
    row.push(Value::Lgl(flag))?;
    Ok(row)
}

/// The whole numbers 1, 2 and 3, and a missing one.
#[tactic(auto, using(crate::proofs::Tested::fits_more))]
fn left_rows(alloc: Global) -> Mem<Seq<Row>>
    ensures { IfOk result (λ rows. IsTrue (fit_rows left_columns rows)) }
{
    let mut rows = Seq::new(alloc);
    for a in [Some(1), Some(2), Some(3), None] {
        rows.push(left_row(alloc, a)?)?;
    }
    Ok(rows)
}

/// Each of 0 to 4 four times, three times with the flag TRUE.
#[tactic(auto, using(crate::proofs::Tested::fits_more))]
fn right_rows(alloc: Global) -> Mem<Seq<Row>>
    ensures { IfOk result (λ rows. IsTrue (fit_rows right_columns rows)) }
{
    let mut rows = Seq::new(alloc);
    for k in 0..20i64 {
        rows.push(right_row(alloc, k % 5, k < 15)?)?;
    }
    Ok(rows)
}

fn table_of(alloc: Global, schema: Schema, rows: Seq<Row>) -> Table
    requires fits { IsTrue (fit_rows schema rows) }
    requires named { IsTrue (names_differ schema) }
    ensures { result ≡ record { schema = schema; groups = []; mark = Mark.Kept; rows = rows } }
{
    Table {
        schema,
        groups: Seq::new(alloc),
        mark: Mark::Kept,
        rows,
    }
}

fn tables_of(alloc: Global) -> Mem<Seq<Arc<Table, Global>>>
    ensures { IfOk result (AreTables join_nodes) }
{
    let left = table_of(alloc, left_schema(alloc)?, left_rows(alloc)?);
    let right = table_of(alloc, right_schema(alloc)?, right_rows(alloc)?);
    let mut tables = Seq::new(alloc);
    tables.push(Arc::new(alloc, left)?)?;
    tables.push(Arc::new(alloc, right)?)?;
    Ok(tables)
}

/// How often a row stands there.
fn times(rows: &Seq<Row>, wanted: &Row) -> usize {
    let mut count = 0;
    for row in rows.as_slice() {
        if *row == *wanted && count < rows.len() {
            count += 1;
        }
    }
    count
}

/// Plays the moves, with batches of one row and an edge paused by its second batch.
fn played<R: Threads + Sync>(rt: &R, alloc: Global, workers: u32, moves: &[Move]) -> Mem<Played>
    requires { (1 ≤ workers) × (workers ≤ 64) }
{
    let plan = join_plan(alloc)?;
    let setting = Setting {
        batch: 1,
        workers,
        pause: 1,
        resume: 0,
    };
    let ops = operators_of(alloc, &plan, setting.batch)?;
    play(
        rt,
        alloc,
        &plan,
        ops,
        tables_of(alloc)?,
        setting,
        moves,
        300,
    )
}

/// Expects that the run has ended, with the rows that the join has where its flag is TRUE.
fn expect_rows<R: Abort>(rt: &R, alloc: Global, played: Played, workers: u32) -> Result<(), Fail> {
    let Played::Ended(finished) = played else {
        assert!(rt; false, "no end");
        return Ok(());
    };
    assert_eq!(rt; finished.rows.len(), 15);
    for (a, b) in [
        (Some(1), 1),
        (Some(2), 2),
        (Some(3), 3),
        (None, 0),
        (None, 4),
    ] {
        let row = row_of(alloc, &[a, Some(b)], Some(true))?;
        assert_eq!(rt; times(&finished.rows, &row), 3);
    }
    for peak in finished.peaks.as_slice() {
        assert!(rt;
            *peak <= workers.saturating_add(1),
            "an edge over its bound"
        );
    }
    Ok(())
}

const fn claim(worker: u32) -> Move {
    Move::Claim { worker }
}

const fn deliver(worker: u32) -> Move {
    Move::Deliver { worker }
}

#[test]
fn every_schedule_gives_the_same_rows(rt: HostRuntime) -> Result<(), Fail> {
    let alloc = rt.alloc();
    let alone = [Move::KeepUp, claim(1), deliver(1)];
    let in_turn = [
        Move::KeepUp,
        claim(1),
        claim(2),
        claim(3),
        deliver(1),
        deliver(2),
        deliver(3),
    ];
    let last_first = [
        Move::KeepUp,
        claim(3),
        claim(1),
        claim(2),
        deliver(2),
        deliver(1),
        deliver(3),
    ];
    let overlapping = [
        claim(2),
        Move::KeepUp,
        claim(1),
        deliver(2),
        Move::KeepUp,
        claim(3),
        deliver(1),
        Move::KeepUp,
        claim(2),
        deliver(3),
    ];
    let schedules: [&[Move]; 4] = [&alone, &in_turn, &last_first, &overlapping];
    for moves in schedules {
        expect_rows(&rt, alloc, played(&rt, alloc, 3, moves)?, 3)?;
    }
    Ok(())
}

#[test]
fn a_failure_ends_the_run(rt: HostRuntime) -> Result<(), Fail> {
    let alloc = rt.alloc();
    let moves = [
        Move::KeepUp,
        claim(1),
        claim(2),
        deliver(1),
        claim(1),
        Move::Fail { worker: 2 },
        claim(3),
        deliver(1),
    ];
    match played(&rt, alloc, 3, &moves)? {
        Played::Failed => {}
        _ => assert!(rt; false, "no failure"),
    }
    Ok(())
}

fn fetch_plan(alloc: Global, offset: u64, count: u64) -> Mem<Plan>
    ensures { IfOk result (λ plan. plan.nodes ≡ fetch_nodes offset count) }
{
    let mut nodes = Seq::new(alloc);
    nodes.push(source(alloc, "x", left_schema(alloc)?)?)?;
    nodes.push(node(
        alloc,
        NodeKind::Fetch(offset, count),
        &[1],
        Mark::Kept,
        left_schema(alloc)?,
    )?)?;
    nodes.push(node(alloc, NodeKind::Sink, &[2], Mark::Kept, left_schema(alloc)?)?)?;
    Ok(Plan { nodes })
}

fn fetch_tables(alloc: Global) -> Mem<Seq<Arc<Table, Global>>>
    ensures { (offset count : ℕ) → IfOk result (AreTables (fetch_nodes offset count)) }
{
    let left = table_of(alloc, left_schema(alloc)?, left_rows(alloc)?);
    let mut tables = Seq::new(alloc);
    tables.push(Arc::new(alloc, left)?)?;
    Ok(tables)
}

/// Plays the moves over a fetch from the four rows, on three workers.
fn fetched<R: Threads + Sync>(
    rt: &R,
    alloc: Global,
    offset: u64,
    count: u64,
    moves: &[Move],
) -> Mem<Played>
    requires { offset + count ≤ 2 ^ 64 - 1 }
{
    let plan = fetch_plan(alloc, offset, count)?;
    let setting = Setting {
        batch: 1,
        workers: 3,
        pause: 1,
        resume: 0,
    };
    let ops = operators_of(alloc, &plan, setting.batch)?;
    let tables = fetch_tables(alloc)?;
    play(rt, alloc, &plan, ops, tables, setting, moves, 300)
}

/// Whether a fetch stopped what it reads.
fn has_stopped(history: &[Entry]) -> bool {
    let mut stopped = false;
    for entry in history {
        if matches!(entry, Entry::Stop { .. }) {
            stopped = true;
        }
    }
    stopped
}

/// Expects that the run has ended with these rows in their order, and whether the fetch stopped its source before its end.
fn expect_fetched<R: Abort>(
    rt: &R,
    alloc: Global,
    played: Played,
    wanted: &[Option<i64>],
    stopped: bool,
) -> Result<(), Fail> {
    let Played::Ended(finished) = played else {
        assert!(rt; false, "no end");
        return Ok(());
    };
    assert_eq!(rt; finished.rows.len(), wanted.len());
    for place in 0..wanted.len() {
        let row = row_of(alloc, &[wanted[place]], None)?;
        match finished.rows.get(place) {
            Some(found) => assert!(rt; *found == row),
            None => assert!(rt; false, "no row"),
        }
    }
    assert_eq!(rt; has_stopped(finished.history.as_slice()), stopped);
    Ok(())
}

#[test]
fn a_fetch_stops_what_it_reads(rt: HostRuntime) -> Result<(), Fail> {
    let alloc = rt.alloc();
    let alone = [Move::KeepUp, claim(1), deliver(1)];
    let in_turn = [
        Move::KeepUp,
        claim(2),
        claim(1),
        claim(3),
        deliver(1),
        deliver(3),
        deliver(2),
    ];
    let schedules: [&[Move]; 2] = [&alone, &in_turn];
    for moves in schedules {
        let two = fetched(&rt, alloc, 1, 2, moves)?;
        expect_fetched(&rt, alloc, two, &[Some(2), Some(3)], true)?;
        let none = fetched(&rt, alloc, 0, 0, moves)?;
        expect_fetched(&rt, alloc, none, &[], true)?;
        let rest = fetched(&rt, alloc, 2, 9, moves)?;
        expect_fetched(&rt, alloc, rest, &[Some(3), None], false)?;
    }
    Ok(())
}
