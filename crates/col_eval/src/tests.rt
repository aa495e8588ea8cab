//! A column, a literal and a sum over a batch with missing values, and over one without rows.
ghost use Rattle.std.specs.Prelude.{◌≡◌, [], ◌∷◌, IfOk, pos, true, false};

use crate::eval_batch;
use column_batch::Batch;
use na_expr::{Expr, ExprFn};
use row_table::Row;
use scalar_value::{ColType, Mem, Seq, Value};
use std::alloc::Global;
use std::process::Abort;
use std::test::Fail;

fn row_of(alloc: Global, first: Value, second: Value) -> Mem<Row>
    ensures { IfOk result (λ r. r ≡ first ∷ second ∷ []) }
{
    let mut row = Seq::new(alloc);
    row.push(first)?;
    row.push(second)?;
    Ok(row)
}

fn rows_of(alloc: Global) -> Mem<Seq<Row>>
    ensures { IfOk result (λ rows. rows ≡
        (Value.Int (pos 10) ∷ Value.Int (pos 4) ∷ [])
        ∷ (Value.Missing ∷ Value.Int (pos 5) ∷ [])
        ∷ (Value.Int (pos 30) ∷ Value.Missing ∷ [])
        ∷ []) }
{
    let mut rows = Seq::new(alloc);
    rows.push(row_of(alloc, Value::Int(10), Value::Int(4))?)?;
    rows.push(row_of(alloc, Value::Missing, Value::Int(5))?)?;
    rows.push(row_of(alloc, Value::Int(30), Value::Missing)?)?;
    Ok(rows)
}

fn sum_of(alloc: Global, a: Expr, b: Expr) -> Mem<Expr> {
    let mut args = Seq::new(alloc);
    args.push(a)?;
    args.push(b)?;
    Ok(Expr::Call(ExprFn::Add, args))
}

fn expect_column<R: Abort>(rt: &R, values: &[Value], wanted: &[Option<i64>]) {
    assert_eq!(rt; values.len(), wanted.len());
    for (value, number) in values.iter().zip(wanted) {
        match number {
            Some(number) => assert!(rt; *value == Value::Int(*number)),
            None => assert!(rt; *value == Value::Missing),
        }
    }
}

#[test]
fn expressions_give_columns(rt: HostRuntime) -> Result<(), Fail> {
    let alloc = rt.alloc();
    let kinds = Seq::of_slice(alloc, &[ColType::Int, ColType::Int])?;
    let batch = Batch::of_rows(Some(7), kinds, rows_of(alloc)?);
    let empty = Batch::of_rows(None, Seq::new(alloc), Seq::new(alloc));
    let seven = Expr::Lit(Value::Int(7), ColType::Int);
    let sum = sum_of(alloc, Expr::Col(0), Expr::Col(1))?;
    let table = [
        (&Expr::Col(0), [Some(10), None, Some(30)]),
        (&Expr::Col(1), [Some(4), Some(5), None]),
        (&seven, [Some(7), Some(7), Some(7)]),
        (&sum, [Some(14), None, None]),
    ];
    for (e, wanted) in table {
        let column = eval_batch(alloc, e, &batch)?;
        expect_column(&rt, column.as_slice(), &wanted);
        assert!(rt; eval_batch(alloc, e, &empty)?.is_empty());
    }
    Ok(())
}
