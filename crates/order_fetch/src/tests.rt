//! A sink and a fetch through the bound: two workers' batches, put in order and read in parts.
ghost use Rattle.std.specs.Prelude.{◌≡◌, ◌∷◌, [], List, IfOk, IsTrue, true};
ghost use Rattle.column_batch.specs.Batches.{fits_kinds};
ghost use Rattle.plan_nodes.specs.Operators.{folded_of};

use crate::{FetchOp, SinkOp};
use column_batch::Batch;
use plan_nodes::Operator;
use row_table::Row;
use scalar_value::{ColType, Mem, Seq, Value};
use std::alloc::Global;
use std::process::Abort;
use std::test::Fail;
use std::thread::Threads;

fn row_of(alloc: Global, number: i64) -> Mem<Row>
    ensures { IfOk result (λ row. IsTrue (fits_kinds (ColType.Int ∷ []) row)) }
{
    let mut row = Seq::new(alloc);
    row.push(Value::Int(number))?;
    Ok(row)
}

fn batch_of(alloc: Global, index: Option<u64>, first: i64, second: i64) -> Mem<Batch>
    ensures { IfOk result (λ b. b.kinds ≡ ColType.Int ∷ []) }
{
    let kinds = Seq::of_slice(alloc, &[ColType::Int])?;
    let mut rows = Seq::new(alloc);
    rows.push(row_of(alloc, first)?)?;
    rows.push(row_of(alloc, second)?)?;
    Ok(Batch::of_rows(index, kinds, rows))
}

/// What an operator that gathers one input gives, where two workers took a batch each.
fn gathered<R: Threads + Sync, O: Operator>(
    rt: &R,
    alloc: Global,
    op: &O,
    left: Batch,
    right: Batch,
) -> Mem<Seq<Batch>>
    requires folds { (O.meaning op.now).shape.folds ≡ true }
    requires fits { (inputs : List (List ColType)) × IsTrue ((O.meaning op.now).fits inputs)
        × (left.kinds ≡ folded_of (O.meaning op.now) inputs)
        × (right.kinds ≡ folded_of (O.meaning op.now) inputs) }
{
    let mut first = op.local(alloc)?;
    let mut second = op.local(alloc)?;
    op.fold(alloc, &mut first, left)?;
    op.fold(alloc, &mut second, right)?;
    let mut locals = Seq::new(alloc);
    locals.push(first)?;
    locals.push(second)?;
    let shared = op.seal(rt, alloc, locals)?;
    let mut made = Seq::new(alloc);
    for k in 0..op.tails(&shared) {
        made.push(op.tail(alloc, &shared, k)?)?;
    }
    Ok(made)
}

fn expect_numbers<R: Abort>(rt: &R, batch: &Batch, wanted: &[i64]) {
    assert_eq!(rt; batch.kinds(), [ColType::Int].as_slice());
    assert_eq!(rt; batch.len(), wanted.len());
    for (row, number) in batch.rows().iter().zip(wanted) {
        match row.get(0) {
            Some(value) => assert!(rt; *value == Value::Int(*number)),
            None => assert!(rt; false, "no column"),
        }
    }
}

/// Whether the parts hold these numbers, three in each part but the last.
fn expect_parts<R: Abort>(rt: &R, parts: &Seq<Batch>, wanted: &[i64]) {
    assert_eq!(rt; parts.len(), wanted.len().div_ceil(3));
    for (part, numbers) in parts.as_slice().iter().zip(wanted.chunks(3)) {
        expect_numbers(rt, part, numbers);
    }
}

#[test]
fn rows_are_gathered_in_the_order_of_their_indexes(rt: HostRuntime) -> Result<(), Fail> {
    let alloc = rt.alloc();
    let late = batch_of(alloc, Some(1), 30, 40)?;
    let early = batch_of(alloc, Some(0), 10, 20)?;
    let parts = gathered(&rt, alloc, &SinkOp::new(3), late, early)?;
    expect_parts(&rt, &parts, &[10, 20, 30, 40]);
    Ok(())
}

/// What a fetch gives of the rows 10, 20, 30 and 40, of which the last two come first.
fn fetched<R: Threads + Sync>(rt: &R, alloc: Global, offset: u32, count: u32) -> Mem<Seq<Batch>> {
    let op = FetchOp::new(u64::from(offset), u64::from(count), 3);
    let late = batch_of(alloc, Some(1), 30, 40)?;
    let early = batch_of(alloc, Some(0), 10, 20)?;
    gathered(rt, alloc, &op, late, early)
}

#[test]
fn a_fetch_gives_so_many_rows_behind_the_first_ones(rt: HostRuntime) -> Result<(), Fail> {
    let alloc = rt.alloc();
    let all = [10, 20, 30, 40];
    let cases = [
        (0, 3, &all[..3]),
        (1, 2, &all[1..3]),
        (0, 9, &all[..]),
        (3, 2, &all[3..]),
        (4, 2, &all[4..]),
        (9, 2, &all[4..]),
        (1, 0, &all[1..1]),
    ];
    for (offset, count, wanted) in cases {
        let parts = fetched(&rt, alloc, offset, count)?;
        expect_parts(&rt, &parts, wanted);
    }
    Ok(())
}
