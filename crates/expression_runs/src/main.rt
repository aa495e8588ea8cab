//! A tool that evaluates an expression on a thousand rows, as often as its second word says, and prints on how many of the
//! rows it has a certain value. The time that evaluating takes is measured with it.
//!
//! The first word is `compare`, for the rows on which `x * 2 + y > z` is TRUE, or `cases`, for those on which
//! `case_when(x < 250 ~ 1, x < 500 ~ 2, x < 750 ~ 3)` is 2.
#![tactic(auto)]

ghost use Rattle.std.specs.Prelude.{◌≡◌, IfOk};
ghost use Rattle.scalar_value.specs.Order.{value_same};
ghost use Rattle.na_expr.specs.Evaluation.{val};
ghost use Rattle.expression_runs.specs.Counts.{rows_giving, after_turns};

use na_expr::{Expr, ExprFn, eval_row};
use row_table::Row;
use scalar_value::{ColType, Mem, Seq, Value};
use std::alloc::Global;
use std::process::ExitCode;
use std::{env, io};

fn main(rt: HostRuntime) -> io::Result<ExitCode> {
    let mut words = env::args(&rt)?;
    let (name, turns) = (words.nth(1), words.next());
    let turns = match turns {
        Some(text) => text.parse::<u64>().unwrap_or(0),
        None => 0,
    };
    let cases = match name {
        Some(text) => text.as_str() == "cases",
        None => false,
    };
    match counted(rt.alloc(), cases, turns) {
        Ok(count) => {
            println!(rt; "{count} rows")?;
            Ok(ExitCode::SUCCESS)
        }
        Err(_) => Ok(ExitCode::from(7)),
    }
}

// The number of rows with the value that is asked for, found so often.
fn counted(alloc: Global, cases: bool, turns: u64) -> Mem<u64> {
    let rows = thousand(alloc)?;
    if cases {
        repeated(
            alloc,
            turns,
            &case_when(alloc)?,
            &Value::Int(2),
            rows.as_slice(),
        )
    } else {
        repeated(
            alloc,
            turns,
            &comparison(alloc)?,
            &Value::Lgl(true),
            rows.as_slice(),
        )
    }
}

// Whether the expression has this value on the row.
fn gives(alloc: Global, e: &Expr, wanted: &Value, row: &Row) -> Mem<bool>
    ensures { IfOk result (λ given. given ≡ value_same (val row.now e.now) wanted.now) }
{
    Ok(eval_row(alloc, e, row)? == *wanted)
}

// The number of rows on which the expression has this value.
fn count_rows(alloc: Global, e: &Expr, wanted: &Value, rows: &[Row]) -> Mem<u64>
    ensures { IfOk result (λ count. count ≡ rows_giving wanted.now e.now rows.now) }
{
    let mut count: u64 = 0;
    for row in rows {
        if gives(alloc, e, wanted, row)? {
            count += 1;
        }
    }
    Ok(count)
}

// The same, with all rows gone through so often.
fn repeated(alloc: Global, turns: u64, e: &Expr, wanted: &Value, rows: &[Row]) -> Mem<u64>
    ensures { IfOk result (λ count. count ≡ after_turns turns (rows_giving wanted.now e.now rows.now)) }
{
    let mut count = 0;
    for _turn in 0..turns {
        count = count_rows(alloc, e, wanted, rows)?;
    }
    Ok(count)
}

// A thousand rows of three whole numbers x, y and z.
fn thousand(alloc: Global) -> Mem<Seq<Row>> {
    let mut rows = Seq::new(alloc);
    for number in 0..1000u64 {
        let mut row = Seq::new(alloc);
        row.push(Value::Int(number as i64))?;
        row.push(Value::Int((number * 7 % 1000) as i64))?;
        row.push(Value::Int((number * 13 % 3000) as i64))?;
        rows.push(row)?;
    }
    Ok(rows)
}

fn number(value: i64) -> Expr {
    Expr::Lit(Value::Int(value), ColType::Int)
}

fn call(alloc: Global, function: ExprFn, a: Expr, b: Expr) -> Mem<Expr> {
    let mut args = Seq::new(alloc);
    args.push(a)?;
    args.push(b)?;
    Ok(Expr::Call(function, args))
}

// x * 2 + y > z
fn comparison(alloc: Global) -> Mem<Expr> {
    let product = call(alloc, ExprFn::Mul, Expr::Col(0), number(2))?;
    let sum = call(alloc, ExprFn::Add, product, Expr::Col(1))?;
    call(alloc, ExprFn::Gt, sum, Expr::Col(2))
}

// case_when(x < 250 ~ 1, x < 500 ~ 2, x < 750 ~ 3)
fn case_when(alloc: Global) -> Mem<Expr> {
    let mut args = Seq::new(alloc);
    for arm in 1..4u64 {
        let below = number((arm * 250) as i64);
        args.push(call(alloc, ExprFn::Lt, Expr::Col(0), below)?)?;
        args.push(number(arm as i64))?;
    }
    Ok(Expr::Call(ExprFn::CaseWhen(ColType::Int), args))
}
