//! A batch of two columns through each of its calls.
ghost use Rattle.std.specs.Prelude.{◌≡◌, [], ◌∷◌, IfOk, length, pos, true, false};

use crate::Batch;
use row_table::{Field, Row, Schema};
use scalar_value::{ColType, Duplicate, Mem, Seq, Text, Value};
use std::alloc::Global;
use std::marker::{Send, Sync};
use std::process::Abort;
use std::test::Fail;

fn row_of(alloc: Global, first: Value, second: Value) -> Mem<Row>
    ensures { IfOk result (λ r. r ≡ first ∷ second ∷ []) }
{
    let mut row = Seq::new(alloc);
    row.push(first)?;
    row.push(second)?;
    Ok(row)
}

fn schema_of(alloc: Global) -> Mem<Schema>
    ensures { IfOk result (λ s. s ≡ record { name = 110 ∷ []; kind = ColType.Int } ∷ record { name = 116 ∷ []; kind = ColType.Lgl } ∷ []) }
{
    let mut schema = Seq::new(alloc);
    schema.push(Field {
        name: Text::of(alloc, "n")?,
        kind: ColType::Int,
    })?;
    schema.push(Field {
        name: Text::of(alloc, "t")?,
        kind: ColType::Lgl,
    })?;
    Ok(schema)
}

/// Whether the batch has this index, the types of the columns, and in its first column these numbers.
fn expect_batch<R: Abort>(rt: &R, batch: &Batch, index: Option<u64>, numbers: &[i64]) {
    assert_eq!(rt; batch.index(), index);
    assert_eq!(rt; batch.kinds(), [ColType::Int, ColType::Lgl].as_slice());
    assert_eq!(rt; batch.len(), numbers.len());
    assert_eq!(rt; batch.is_empty(), numbers.is_empty());
    for (row, wanted) in batch.rows().iter().zip(numbers) {
        if let Some(value) = row.get(0) {
            assert!(rt; *value == Value::Int(*wanted));
        } else {
            assert!(rt; false, "no value");
        }
    }
}

fn crosses<T: Send + Sync>(_: &T) {}

fn rows_of(alloc: Global) -> Mem<Seq<Row>>
    ensures { IfOk result (λ rows. rows ≡
        (Value.Int (pos 10) ∷ Value.Missing ∷ [])
        ∷ (Value.Int (pos 20) ∷ Value.Lgl true ∷ [])
        ∷ (Value.Int (pos 30) ∷ Value.Lgl false ∷ [])
        ∷ []) }
{
    let mut rows = Seq::new(alloc);
    rows.push(row_of(alloc, Value::Int(10), Value::Missing)?)?;
    rows.push(row_of(alloc, Value::Int(20), Value::Lgl(true))?)?;
    rows.push(row_of(alloc, Value::Int(30), Value::Lgl(false))?)?;
    Ok(rows)
}

fn batch_of(alloc: Global) -> Mem<Batch>
    ensures { IfOk result (λ b. length b.rows ≡ 3) }
{
    let rows = rows_of(alloc)?;
    let schema = schema_of(alloc)?;
    Batch::from_rows(alloc, Some(7), &schema, rows.as_slice())
}

#[test]
fn batches_are_sliced(rt: HostRuntime) -> Result<(), Fail> {
    let batch = batch_of(rt.alloc())?;
    crosses(&batch);
    expect_batch(&rt, &batch, Some(7), &[10, 20, 30]);
    let table = [
        ((1, 3), [20, 30].as_slice()),
        ((0, 3), [10, 20, 30].as_slice()),
        ((0, 1), [10].as_slice()),
        ((3, 3), [].as_slice()),
    ];
    for ((from, to), wanted) in table {
        if from <= to && to <= batch.len() {
            expect_batch(&rt, &batch.slice(from, to)?, Some(7), wanted);
        } else {
            assert!(rt; false, "no such rows");
        }
    }
    Ok(())
}

#[test]
fn rows_are_taken_at_places(rt: HostRuntime) -> Result<(), Fail> {
    let mut batch = batch_of(rt.alloc())?;
    expect_batch(&rt, &batch.take(&[2, 0, 2])?, Some(7), &[30, 10, 30]);
    expect_batch(&rt, &batch.take(&[])?, Some(7), &[]);
    batch.set_index(None);
    expect_batch(&rt, &batch.take(&[1])?, None, &[20]);
    Ok(())
}

#[test]
fn batches_are_copied_and_moved(rt: HostRuntime) -> Result<(), Fail> {
    let alloc = rt.alloc();
    let batch = batch_of(alloc)?;
    expect_batch(&rt, &batch.copy()?, Some(7), &[10, 20, 30]);
    expect_batch(&rt, &batch.duplicate()?, Some(7), &[10, 20, 30]);
    let third = row_of(alloc, Value::Int(30), Value::Lgl(false))?;
    assert!(rt; batch.row(2)? == third);
    assert!(rt; batch.into_rows() == rows_of(alloc)?);
    let kinds = Seq::of_slice(alloc, &[ColType::Int, ColType::Lgl])?;
    let moved = Batch::of_rows(Some(0), kinds, rows_of(alloc)?);
    expect_batch(&rt, &moved, Some(0), &[10, 20, 30]);
    Ok(())
}
