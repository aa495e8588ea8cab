//! Each kind of join through the bound, with missing keys that match and that don't.
ghost use Rattle.std.specs.Prelude.{◌≡◌, ◌∷◌, [], List, IfOk, IsTrue, true};
ghost use Rattle.column_batch.specs.Batches.{fits_kinds, fit_kinds, kinds_of};
ghost use Rattle.plan_nodes.specs.Operators.{first_of, folded_of};

use crate::JoinOp;
use column_batch::Batch;
use plan_nodes::{JoinSpec, Operator};
use row_table::{Field, JoinKind, Row, Schema};
use scalar_value::{ColType, Mem, Seq, Text, Value};
use std::alloc::Global;
use std::process::Abort;
use std::test::Fail;
use std::thread::Threads;

fn row_of(alloc: Global, key: Option<i64>) -> Mem<Row>
    ensures { IfOk result (λ row. IsTrue (fits_kinds (ColType.Int ∷ []) row)) }
{
    let mut row = Seq::new(alloc);
    match key {
        Some(number) => row.push(Value::Int(number))?,
        None => row.push(Value::Missing)?,
    }
    Ok(row)
}

fn rows_of(alloc: Global, keys: &[Option<i64>]) -> Mem<Seq<Row>>
    ensures { IfOk result (λ rows. IsTrue (fit_kinds (ColType.Int ∷ []) rows)) }
{
    let mut rows = Seq::new(alloc);
    for key in keys {
        rows.push(row_of(alloc, *key)?)?;
    }
    Ok(rows)
}

fn batch_of(alloc: Global, keys: &[Option<i64>]) -> Mem<Batch>
    ensures { IfOk result (λ b. b.kinds ≡ ColType.Int ∷ []) }
{
    let kinds = Seq::of_slice(alloc, &[ColType::Int])?;
    let rows = rows_of(alloc, keys)?;
    Ok(Batch::of_rows(None, kinds, rows))
}

fn schema_of(alloc: Global, name: &str) -> Mem<Schema>
    ensures { IfOk result (λ schema. kinds_of schema ≡ ColType.Int ∷ []) }
{
    let mut schema = Seq::new(alloc);
    schema.push(Field {
        name: Text::of(alloc, name)?,
        kind: ColType::Int,
    })?;
    Ok(schema)
}

fn spec_of(alloc: Global, kind: JoinKind, na_match: bool) -> Mem<JoinSpec>
    ensures { IfOk result (λ j. (j.left_keys ≡ 0 ∷ []) × (j.right_keys ≡ 0 ∷ [])) }
{
    Ok(JoinSpec {
        kind,
        left_keys: Seq::of_slice(alloc, &[0])?,
        right_keys: Seq::of_slice(alloc, &[0])?,
        na_match,
    })
}

/// What an operator gives for one streamed batch, cut at three rows, and at its end.
fn run<R: Threads + Sync, O: Operator>(
    rt: &R,
    alloc: Global,
    op: &O,
    left: &Batch,
    right: Batch,
) -> Mem<Seq<Batch>>
    requires folds { (O.meaning op.now).shape.folds ≡ true }
    requires streams { (O.meaning op.now).shape.streams ≡ true }
    requires cuts { (O.meaning op.now).cuts ≡ true }
    requires fits { (inputs : List (List ColType)) × IsTrue ((O.meaning op.now).fits inputs)
        × (left.now.kinds ≡ first_of inputs)
        × (right.kinds ≡ folded_of (O.meaning op.now) inputs) }
{
    let mut gathered = op.local(alloc)?;
    op.fold(alloc, &mut gathered, right)?;
    let mut folded = Seq::new(alloc);
    folded.push(gathered)?;
    let shared = op.seal(rt, alloc, folded)?;
    let mut part = op.local(alloc)?;
    let mut made = Seq::new(alloc);
    made.push(op.stream(alloc, &shared, &mut part, left, 0)?.out)?;
    made.push(op.stream(alloc, &shared, &mut part, left, 3)?.out)?;
    if !op.shape().tails {
        return Ok(made);
    }
    let mut streamed = Seq::new(alloc);
    streamed.push(part)?;
    let closed = op.close(rt, alloc, &shared, streamed)?;
    for k in 0..op.tails(&closed) {
        made.push(op.tail(alloc, &closed, k)?)?;
    }
    Ok(made)
}

fn joined<R: Threads + Sync>(
    rt: &R,
    alloc: Global,
    kind: JoinKind,
    na_match: bool,
) -> Mem<Seq<Batch>> {
    let spec = spec_of(alloc, kind, na_match)?;
    let op = JoinOp::new(spec, schema_of(alloc, "x")?, schema_of(alloc, "y")?, 3);
    let left = batch_of(alloc, &[Some(1), Some(2), None])?;
    let right = batch_of(alloc, &[Some(2), None, Some(3), Some(2)])?;
    run(rt, alloc, &op, &left, right)
}

fn number_of(value: &Value) -> Option<i64> {
    match value {
        Value::Int(number) => Some(*number),
        _ => None,
    }
}

fn push_numbers(all: &mut Vec<Option<i64>>, row: &Row) -> Mem<()> {
    let values = row.as_slice();
    for value in values {
        all.push(number_of(value))?;
    }
    Ok(())
}

/// Whether the rows of these batches have these values, row by row.
fn expect_numbers<R: Abort>(
    rt: &R,
    alloc: Global,
    batches: &Seq<Batch>,
    wanted: &[Option<i64>],
) -> Mem<()> {
    let mut all = Vec::new(alloc);
    for batch in batches.as_slice() {
        for row in batch.rows() {
            push_numbers(&mut all, row)?;
        }
    }
    assert_eq!(rt; all.as_slice(), wanted);
    Ok(())
}

#[test]
fn each_kind_gives_its_rows(rt: HostRuntime) -> Result<(), Fail> {
    let alloc = rt.alloc();
    let (one, two, three) = (Some(1), Some(2), Some(3));
    let inner = [two, two, two, two, None, None];
    let left = [one, None, two, two, two, two, None, None];
    let right = [two, two, two, two, None, None, None, three];
    let all = [one, None, two, two, two, two, None, None, None, three];
    let never = [
        one, None, two, two, two, two, None, None, None, None, None, three,
    ];
    let semi = [two, None];
    let anti = [one];
    let alone = [one, None];
    let cases = [
        (JoinKind::Inner, true, inner.as_slice()),
        (JoinKind::Left, true, left.as_slice()),
        (JoinKind::Right, true, right.as_slice()),
        (JoinKind::Full, true, all.as_slice()),
        (JoinKind::Full, false, never.as_slice()),
        (JoinKind::Semi, true, semi.as_slice()),
        (JoinKind::Anti, true, anti.as_slice()),
        (JoinKind::Anti, false, alone.as_slice()),
    ];
    for (kind, na_match, wanted) in cases {
        let made = joined(&rt, alloc, kind, na_match)?;
        expect_numbers(&rt, alloc, &made, wanted)?;
    }
    Ok(())
}
