//! Each job through a small operator, which gives the rows that it streams one in a batch, and at its end a row with 7.
ghost use Rattle.std.specs.Prelude.{◌≡◌, ◌+◌, ◌≤◌, [], ◌∷◌, List, IfOk, IsTrue, cond, nat_lt, Some, None, length, take, drop, true};
ghost use Rattle.scalar_value.specs.declared.value.Value.{Value as AnyValue};
ghost use Rattle.scalar_value.specs.declared.value.ColType.{ColType as Kind};
ghost use Rattle.column_batch.specs.Batches.{kinds_of};
ghost use Rattle.plan_machine.specs.Batch.{Batch as Item, gathered, parts};
ghost use Rattle.plan_nodes.specs.Operators.{Each, flat, first_of, second_of};
ghost use Rattle.task_work.specs.Rows.{AreParts};
ghost use Rattle.task_work.specs.Examples.{numbers, copying, AnyLocal, AnyShared, IsExample};

use crate::{Fruit, Part, Share, Task, Waiting, Work, run_task};
use column_batch::Batch;
use plan_machine::OpShape;
use plan_nodes::{Operator, Streamed};
use row_table::{Field, Mark, Row, Schema, Table};
use scalar_value::{ColType, Mem, Seq, Text, Value};
use std::alloc::Global;
use std::process::Abort;
use std::sync::Arc;
use std::test::Fail;
use std::thread::Threads;

#[derive(Drop)]
struct Copying;

type Kept = Seq<Batch>;

type CopyingPart = Part<Copying, Seq<Kept>, Kept>;

type CopyingRow = Vec<Option<Share<Copying, Seq<Kept>, Kept>>>;

type CopyingWork = Work<Copying, Seq<Kept>, Kept>;

type CopyingFruit = Fruit<Copying, Seq<Kept>, Kept>;

fn row_of(alloc: Global, number: i64) -> Mem<Row>
    ensures { IfOk result (λ row. row ≡ Value.Int number ∷ []) }
{
    let mut row = Seq::new(alloc);
    row.push(Value::Int(number))?;
    Ok(row)
}

fn kinds_in(alloc: Global) -> Mem<Seq<ColType>>
    ensures { IfOk result (λ kinds. kinds ≡ numbers) }
{
    Seq::of_slice(alloc, &[ColType::Int])
}

fn one_row(alloc: Global, index: u64, number: i64) -> Mem<Batch>
    ensures { IfOk result (λ b. (b.kinds ≡ numbers) × (b.rows ≡ (Value.Int number ∷ []) ∷ [])) }
{
    let kinds = kinds_in(alloc)?;
    let mut rows = Seq::new(alloc);
    rows.push(row_of(alloc, number)?)?;
    Ok(Batch::of_rows(Some(index), kinds, rows))
}

fn two_rows(alloc: Global, index: u64, first: i64, second: i64) -> Mem<Batch>
    ensures { IfOk result (λ b. b.kinds ≡ numbers) }
{
    let kinds = kinds_in(alloc)?;
    let mut rows = Seq::new(alloc);
    rows.push(row_of(alloc, first)?)?;
    rows.push(row_of(alloc, second)?)?;
    Ok(Batch::of_rows(Some(index), kinds, rows))
}

// The row at this place, if there is one.
fn row_at(batch: &Batch, from: u64) -> Mem<Batch>
    ensures { IfOk result (λ b. (b.kinds ≡ batch.now.kinds) × (b.rows ≡ take 1 (drop from batch.now.rows))) }
{
    let len = batch.len();
    let start = (from as usize).min(len);
    let count = (len - start).min(1);
    batch.slice(start, start + count)
}

fn next_of(batch: &Batch, from: u64) -> Option<u64>
    ensures { result ≡ cond (nat_lt 1 (length (drop from batch.now.rows))) (Some (from + 1)) None }
{
    let rest = (batch.len() as u64).saturating_sub(from);
    if 1 < rest { Some(from + 1) } else { None }
}

impl Operator for Copying {
    type Local = Kept;

    type Shared = Seq<Kept>;

    ghost meaning = { λ o. copying };

    ghost local_is = { λ m kinds l taken. AnyLocal m kinds l taken };

    ghost shared_is = { λ m inputs s built streamed. AnyShared m inputs s built streamed };

    fn shape(&self) -> OpShape {
        OpShape {
            folds: true,
            streams: true,
            tails: true,
        }
    }

    fn wanted(&self) -> Option<u64> {
        None
    }

    fn local(&self, alloc: Global) -> Mem<Kept> {
        Ok(Seq::new(alloc))
    }

    fn begin(&self, alloc: Global) -> Mem<Seq<Kept>> {
        Ok(Seq::new(alloc))
    }

    fn fold(&self, _alloc: Global, local: &mut Kept, batch: Batch) -> Mem<()> {
        local.push(batch)
    }

    fn seal<R: Threads + Sync>(&self, _rt: &R, _alloc: Global, locals: Seq<Kept>) -> Mem<Seq<Kept>>
        ensures { copying.shape.folds ≡ true
            → (inputs : List (List Kind)) (lists : List (List (Item (List AnyValue))))
            → IsTrue (copying.fits inputs)
            → Each (AnyLocal copying (second_of inputs)) locals lists
            → IfOk result (λ made. AnyShared copying inputs made (gathered (flat lists)) []) }
    {
        Ok(locals)
    }

    fn stream(
        &self,
        _alloc: Global,
        _shared: &Seq<Kept>,
        local: &mut Kept,
        batch: &Batch,
        from: u64,
    ) -> Mem<Streamed> {
        local.push(batch.copy()?)?;
        let out = row_at(batch, from)?;
        let next = next_of(batch, from);
        Ok(Streamed { out, next })
    }

    fn close<R: Threads + Sync>(
        &self,
        _rt: &R,
        _alloc: Global,
        _shared: &Seq<Kept>,
        locals: Seq<Kept>,
    ) -> Mem<Seq<Kept>>
        ensures { copying.shape.streams ≡ true
            → copying.shape.tails ≡ true
            → (inputs : List (List Kind)) (built : List (List AnyValue)) (lists : List (List (Item (List AnyValue))))
            → IsTrue (copying.fits inputs)
            → AnyShared copying inputs _shared.now built []
            → Each (AnyLocal copying (first_of inputs)) locals lists
            → IfOk result (λ made. AnyShared copying inputs made built (flat lists)) }
    {
        Ok(locals)
    }

    fn tails(&self, _shared: &Seq<Kept>) -> u64 {
        1
    }

    fn tail(&self, alloc: Global, _shared: &Seq<Kept>, _k: u64) -> Mem<Batch> {
        one_row(alloc, 0, 7)
    }
}

fn run<R: Threads + Sync>(rt: &R, alloc: Global, kept: bool, work: CopyingWork) -> Mem<CopyingFruit>
    requires { IsExample 2 work }
{
    let task = Task {
        node: 1,
        kept,
        batch: 2,
        work,
    };
    Ok(run_task(rt, alloc, task)?.fruit)
}

/// A part that took batches with these indexes, of one row with this number each.
fn part_of(alloc: Global, took: &[(u64, i64)]) -> Mem<CopyingPart> {
    let mut local = Seq::new(alloc);
    for (index, number) in took {
        local.push(one_row(alloc, *index, *number)?)?;
    }
    Ok(Part {
        op: Arc::new(alloc, Copying)?,
        shared: Arc::new(alloc, Seq::new(alloc))?,
        local,
    })
}

fn row_with(alloc: Global, first: CopyingPart, second: CopyingPart) -> Mem<CopyingRow>
    ensures { IfOk result (λ row. AreParts row.items × (1 ≤ length row.items)) }
{
    let mut row = Vec::new(alloc);
    row.push(Some(Share::Part(first)))?;
    row.push(Some(Share::Part(second)))?;
    Ok(row)
}

fn two_parts(alloc: Global) -> Mem<CopyingRow>
    ensures { IfOk result (λ row. AreParts row.items × (1 ≤ length row.items)) }
{
    let first = part_of(alloc, &[(0, 10), (2, 30)])?;
    let second = part_of(alloc, &[(1, 20)])?;
    row_with(alloc, first, second)
}

/// Whether the batch has this index, and in its one column these numbers.
fn expect_batch<R: Abort>(rt: &R, batch: &Batch, index: Option<u64>, wanted: &[i64]) {
    assert_eq!(rt; batch.index(), index);
    assert_eq!(rt; batch.kinds(), [ColType::Int].as_slice());
    assert_eq!(rt; batch.len(), wanted.len());
    for (row, number) in batch.rows().iter().zip(wanted) {
        if let Some(value) = row.get(0) {
            assert!(rt; *value == Value::Int(*number));
        } else {
            assert!(rt; false, "no value");
        }
    }
}

/// Whether the batches have these indexes, and one row with this number each.
fn expect_batches<R: Abort>(rt: &R, batches: &Kept, wanted: &[(u64, i64)]) {
    assert_eq!(rt; batches.len(), wanted.len());
    for (batch, (index, number)) in batches.as_slice().iter().zip(wanted) {
        expect_batch(rt, batch, Some(*index), &[*number]);
    }
}

/// Whether the part took nothing yet, and shares what the parts of `two_parts` took.
fn expect_part<R: Abort>(rt: &R, part: &CopyingPart) {
    assert!(rt; part.local.is_empty());
    assert_eq!(rt; part.shared.len(), 2);
    if let Some(batches) = part.shared.get(0) {
        expect_batches(rt, batches, &[(0, 10), (2, 30)]);
    }
    if let Some(batches) = part.shared.get(1) {
        expect_batches(rt, batches, &[(1, 20)]);
    }
}

/// Whether both parts of the row do.
fn expect_row<R: Abort>(rt: &R, row: &CopyingRow) {
    assert_eq!(rt; row.len(), 2);
    for slot in row {
        match slot {
            Some(Share::Part(part)) => expect_part(rt, part),
            _ => assert!(rt; false, "no part"),
        }
    }
}

fn table_of(alloc: Global) -> Mem<Table>
    ensures { IfOk result (λ t. (kinds_of t.schema ≡ numbers) × (parts 2 t.rows ≡ 2)) }
{
    let mut schema: Schema = Seq::new(alloc);
    schema.push(Field {
        name: Text::of(alloc, "n")?,
        kind: ColType::Int,
    })?;
    let mut rows = Seq::new(alloc);
    rows.push(row_of(alloc, 10)?)?;
    rows.push(row_of(alloc, 20)?)?;
    rows.push(row_of(alloc, 30)?)?;
    Ok(Table {
        schema,
        groups: Seq::new(alloc),
        mark: Mark::Kept,
        rows,
    })
}

fn emitted<R: Threads + Sync>(
    rt: &R,
    alloc: Global,
    kept: bool,
    number: u64,
) -> Mem<Option<Batch>> {
    let table = Arc::new(alloc, table_of(alloc)?)?;
    if 2 <= number {
        return Ok(None);
    }
    match run(rt, alloc, kept, Work::Emit { table, number })? {
        Fruit::Emit { table: _, out } => Ok(Some(out)),
        _ => Ok(None),
    }
}

#[test]
fn a_source_gives_its_rows(rt: HostRuntime) -> Result<(), Fail> {
    let alloc = rt.alloc();
    let cases = [
        (0, true, Some(0), [10, 20].as_slice()),
        (1, true, Some(1), [30].as_slice()),
        (1, false, None, [30].as_slice()),
    ];
    for (number, kept, index, wanted) in cases {
        let out = emitted(&rt, alloc, kept, number)?.expect(&rt, "a batch");
        expect_batch(&rt, &out, index, wanted);
    }
    Ok(())
}

#[test]
fn a_folded_batch_goes_to_the_local_part(rt: HostRuntime) -> Result<(), Fail> {
    let alloc = rt.alloc();
    let part = part_of(alloc, &[(0, 10)])?;
    let batch = one_row(alloc, 2, 30)?;
    match run(&rt, alloc, true, Work::Fold { part, batch })? {
        Fruit::Fold { part, index, rows } => {
            assert_eq!(rt; (index, rows), (2, 1));
            expect_batches(&rt, &part.local, &[(0, 10), (2, 30)])
        }
        _ => assert!(&rt; false, "no part"),
    }
    Ok(())
}

#[test]
fn what_all_gathered_is_shared(rt: HostRuntime) -> Result<(), Fail> {
    let alloc = rt.alloc();
    let row = two_parts(alloc)?;
    match run(&rt, alloc, true, Work::Seal { row })? {
        Fruit::Seal { row, count: _ } => expect_row(&rt, &row),
        _ => assert!(&rt; false, "no row"),
    }
    Ok(())
}

/// The part after a streamed batch of the rows 1 and 2, what the batch gives from this row on, and what waits then.
fn streamed<R: Threads + Sync>(
    rt: &R,
    alloc: Global,
    kept: bool,
    from: u64,
) -> Mem<Option<(CopyingPart, Batch, Option<Waiting>)>> {
    let part = part_of(alloc, &[])?;
    let batch = two_rows(alloc, 5, 1, 2)?;
    match run(rt, alloc, kept, Work::Stream { part, batch, from })? {
        Fruit::Stream { part, out, rest } => Ok(Some((part, out, rest))),
        _ => Ok(None),
    }
}

#[test]
fn a_streamed_batch_gives_rows_and_waits_with_the_rest(rt: HostRuntime) -> Result<(), Fail> {
    let alloc = rt.alloc();
    let cases = [
        (true, 0, Some(5), 1, Some(1)),
        (true, 1, Some(5), 2, None),
        (false, 1, None, 2, None),
    ];
    for (kept, from, index, number, next) in cases {
        let (part, out, rest) = streamed(&rt, alloc, kept, from)?.expect(&rt, "a batch");
        assert_eq!(&rt; part.local.len(), 1);
        expect_batch(&rt, &out, index, &[number]);
        match rest {
            Some(waiting) => {
                assert_eq!(&rt; next, Some(waiting.from));
                expect_batch(&rt, &waiting.batch, Some(5), &[1, 2]);
            }
            None => assert!(&rt; next.is_none()),
        }
    }
    Ok(())
}

#[test]
fn what_all_streamed_is_shared_and_counted(rt: HostRuntime) -> Result<(), Fail> {
    let alloc = rt.alloc();
    let row = two_parts(alloc)?;
    match run(&rt, alloc, true, Work::Close { row })? {
        Fruit::Close { row, count } => {
            assert_eq!(&rt; count, 1);
            expect_row(&rt, &row);
        }
        _ => assert!(&rt; false, "no row"),
    }
    Ok(())
}

#[test]
fn a_batch_comes_at_the_end(rt: HostRuntime) -> Result<(), Fail> {
    let alloc = rt.alloc();
    for (kept, index) in [(true, Some(0)), (false, None)] {
        let part = part_of(alloc, &[])?;
        match run(&rt, alloc, kept, Work::Tail { part, number: 0 })? {
            Fruit::Tail { part: _, out } => expect_batch(&rt, &out, index, &[7]),
            _ => assert!(&rt; false, "no batch"),
        }
    }
    Ok(())
}
