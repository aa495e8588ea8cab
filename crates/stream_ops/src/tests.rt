//! A filter and a project over a batch, each through the bound.
ghost use Rattle.std.specs.Prelude.{◌≡◌, ◌∷◌, [], List, IfOk, IsTrue, pos, true, false};
ghost use Rattle.plan_nodes.specs.Operators.{first_of};

use crate::{FilterOp, ProjectOp};
use column_batch::Batch;
use na_expr::Expr;
use plan_nodes::{Operator, Streamed};
use row_table::{Field, Row, Schema};
use scalar_value::{ColType, Mem, Seq, Text, Value};
use std::alloc::Global;
use std::process::Abort;
use std::test::Fail;

fn schema_of(alloc: Global) -> Mem<Schema>
    ensures { IfOk result (λ s. s ≡ record { name = 110 ∷ []; kind = ColType.Int } ∷ record { name = 116 ∷ []; kind = ColType.Lgl } ∷ []) }
{
    let mut schema = Seq::new(alloc);
    schema.push(Field {
        name: Text::of(alloc, "n")?,
        kind: ColType::Int,
    })?;
    schema.push(Field {
        name: Text::of(alloc, "t")?,
        kind: ColType::Lgl,
    })?;
    Ok(schema)
}

fn row_of(alloc: Global, first: Value, second: Value) -> Mem<Row>
    ensures { IfOk result (λ r. r ≡ first ∷ second ∷ []) }
{
    let mut row = Seq::new(alloc);
    row.push(first)?;
    row.push(second)?;
    Ok(row)
}

fn rows_of(alloc: Global) -> Mem<Seq<Row>>
    ensures { IfOk result (λ rows. rows ≡
        (Value.Int (pos 10) ∷ Value.Missing ∷ [])
        ∷ (Value.Int (pos 20) ∷ Value.Lgl true ∷ [])
        ∷ (Value.Int (pos 30) ∷ Value.Lgl false ∷ [])
        ∷ (Value.Int (pos 40) ∷ Value.Lgl true ∷ [])
        ∷ []) }
{
    let mut rows = Seq::new(alloc);
    rows.push(row_of(alloc, Value::Int(10), Value::Missing)?)?;
    rows.push(row_of(alloc, Value::Int(20), Value::Lgl(true))?)?;
    rows.push(row_of(alloc, Value::Int(30), Value::Lgl(false))?)?;
    rows.push(row_of(alloc, Value::Int(40), Value::Lgl(true))?)?;
    Ok(rows)
}

fn batch_of(alloc: Global, schema: &Schema) -> Mem<Batch>
    requires { schema.now ≡ record { name = 110 ∷ []; kind = ColType.Int } ∷ record { name = 116 ∷ []; kind = ColType.Lgl } ∷ [] }
    ensures { IfOk result (λ b. b.kinds ≡ ColType.Int ∷ ColType.Lgl ∷ []) }
{
    let rows = rows_of(alloc)?;
    Batch::from_rows(alloc, Some(7), schema, rows.as_slice())
}

/// The batch that an operator gives for a batch.
fn streamed<O: Operator>(alloc: Global, op: &O, batch: &Batch) -> Mem<Batch>
    requires { (inputs : List (List ColType)) × IsTrue ((O.meaning op.now).fits inputs) × (batch.now.kinds ≡ first_of inputs) }
{
    let shared = op.begin(alloc)?;
    let mut local = op.local(alloc)?;
    let Streamed { out, next: _ } = op.stream(alloc, &shared, &mut local, batch, 0)?;
    Ok(out)
}

fn expect_numbers<R: Abort>(rt: &R, batch: &Batch, column: usize, wanted: &[i64]) {
    assert_eq!(rt; batch.len(), wanted.len());
    for (row, number) in batch.rows().iter().zip(wanted) {
        match row.get(column) {
            Some(value) => assert!(rt; *value == Value::Int(*number)),
            None => assert!(rt; false, "no column"),
        }
    }
}

#[test]
fn rows_are_kept_where_a_condition_is_true(rt: HostRuntime) -> Result<(), Fail> {
    let alloc = rt.alloc();
    let schema = schema_of(alloc)?;
    let batch = batch_of(alloc, &schema)?;
    let op = FilterOp::new(Expr::Col(1));
    let out = streamed(alloc, &op, &batch)?;
    assert_eq!(rt; out.kinds(), [ColType::Int, ColType::Lgl].as_slice());
    expect_numbers(&rt, &out, 0, &[20, 40]);
    Ok(())
}

fn list_of(alloc: Global) -> Mem<Seq<Expr>>
    ensures { IfOk result (λ list. list ≡ Expr.Col 1 ∷ Expr.Lit (Value.Int (pos 7)) ColType.Int ∷ Expr.Col 0 ∷ []) }
{
    let mut list = Seq::new(alloc);
    list.push(Expr::Col(1))?;
    list.push(Expr::Lit(Value::Int(7), ColType::Int))?;
    list.push(Expr::Col(0))?;
    Ok(list)
}

#[test]
fn each_row_gives_the_values_of_the_expressions(rt: HostRuntime) -> Result<(), Fail> {
    let alloc = rt.alloc();
    let schema = schema_of(alloc)?;
    let batch = batch_of(alloc, &schema)?;
    let op = ProjectOp::new(list_of(alloc)?, schema);
    let out = streamed(alloc, &op, &batch)?;
    assert_eq!(rt;
        out.kinds(),
        [ColType::Lgl, ColType::Int, ColType::Int].as_slice()
    );
    expect_numbers(&rt, &out, 1, &[7, 7, 7, 7]);
    expect_numbers(&rt, &out, 2, &[10, 20, 30, 40]);
    Ok(())
}
