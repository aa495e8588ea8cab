//! A full join by the first column of each input.
ghost use Rattle.std.specs.Prelude.{◌≡◌, ◌+◌, ◌<◌, ◌++◌, ◌&&◌, cond, nat_lt, [], ◌∷◌, List, IfOk, OnOk, IsTrue, Some, None, length, take, drop};
ghost use Rattle.std.specs.List.{filter, list_any};
ghost use Rattle.row_table.specs.Keys.{rows_match, is_missing as missing_value};
ghost use Rattle.column_batch.specs.Batches.{fit_kinds};
ghost use Rattle.plan_machine.specs.Batch.{Batch as Item, gathered};
ghost use Rattle.scalar_value.specs.declared.value.Value.{Value};
ghost use Rattle.scalar_value.specs.declared.value.ColType.{ColType};
ghost use Rattle.plan_nodes.specs.Operators.{Each, flat, first_of, second_of};
ghost use Rattle.plan_nodes.specs.Kinds.{matching, missing_row as missing_kinds, joined_row as row_joined, joined_rows as rows_joined, unmatched_rows as rows_unmatched};
ghost use Rattle.plan_nodes.specs.Examples.{by_first, first_join, Keeps, Holds};

use crate::operator::{Operator, Streamed};
use crate::tests::gather::{all_rows, flat_batches, gathered_rows, rows_of_part, some_rows};
use column_batch::Batch;
use plan_machine::{OpShape, part_count};
use row_table::{JoinKind, Row};
use scalar_value::{ColType, Mem, Seq, Value};
use std::alloc::Global;
use std::process::Abort;
use std::test::Fail;
use std::thread::Threads;

/// The join, for inputs with columns of these types.
#[derive(Debug, Drop)]
pub(crate) struct FirstJoin {
    pub(crate) left: Seq<ColType>,
    pub(crate) right: Seq<ColType>,
    pub(crate) size: u32,
    ghost sized: { 0 < size },
}

/// The gathered rows, and the rows that come at the end.
#[derive(Debug, Drop)]
pub(crate) struct Built {
    rows: Seq<Row>,
    ends: Seq<Row>,
}

fn is_missing(value: &Value) -> bool
    ensures { result ≡ missing_value value.now }
{
    matches!(value, Value::Missing)
}

fn matches_first(x: &Row, y: &Row) -> bool
    ensures { result ≡ rows_match (matching by_first) x.now y.now }
{
    match (x.get(0), y.get(0)) {
        (Some(a), Some(b)) => *a == *b && !is_missing(a),
        _ => false,
    }
}

fn joined(x: &Row, y: &Row) -> Mem<Row>
    ensures { IfOk result (λ row. row ≡ x.now ++ y.now) }
{
    let values = y.as_slice();
    let mut row = x.copy()?;
    for value in values {
        row.push(value.copy()?)?;
    }
    Ok(row)
}

fn missing_of(_kind: ColType) -> Value
    ensures { result ≡ Value.Missing }
{
    Value::Missing
}

fn missing_row(alloc: Global, kinds: &[ColType]) -> Mem<Row>
    ensures { IfOk result (λ row. row ≡ missing_kinds kinds.now) }
{
    let mut row = Seq::new(alloc);
    for kind in kinds {
        row.push(missing_of(*kind))?;
    }
    Ok(row)
}

fn matched_rows(alloc: Global, x: &Row, built: &[Row]) -> Mem<Seq<Row>>
    ensures { IfOk result (λ rows. rows ≡ filter (rows_match (matching by_first) x.now) built.now) }
{
    let mut rows = Seq::new(alloc);
    for y in built {
        if matches_first(x, y) {
            rows.push(y.copy()?)?;
        }
    }
    Ok(rows)
}

fn push_joined(
    alloc: Global,
    made: &mut Seq<Row>,
    right: &[ColType],
    x: &Row,
    matched: &[Row],
) -> Mem<()>
    ensures { OnOk result (made.new ≡ made.old ++ row_joined JoinKind.Full right.now x.now matched.now) }
{
    if matched.is_empty() {
        return made.push(joined(x, &missing_row(alloc, right)?)?);
    }
    for y in matched {
        made.push(joined(x, y)?)?;
    }
    Ok(())
}

fn joined_rows(alloc: Global, right: &[ColType], built: &[Row], rows: &[Row]) -> Mem<Seq<Row>>
    ensures { IfOk result (λ made. made ≡ rows_joined by_first right.now built.now rows.now) }
{
    let mut made = Seq::new(alloc);
    for x in rows {
        let matched = matched_rows(alloc, x, built)?;
        push_joined(alloc, &mut made, right, x, matched.as_slice())?;
    }
    Ok(made)
}

fn is_matched(y: &Row, streamed: &[Row]) -> bool
    ensures { result ≡ list_any (λ x. rows_match (matching by_first) x y.now) streamed.now }
{
    streamed.iter().any(|x| matches_first(x, y))
}

fn unmatched_rows(alloc: Global, left: &[ColType], built: &[Row], streamed: &[Row]) -> Mem<Seq<Row>>
    ensures { IfOk result (λ made. made ≡ rows_unmatched by_first left.now built.now streamed.now) }
{
    let missing = missing_row(alloc, left)?;
    let mut made = Seq::new(alloc);
    for y in built {
        if !is_matched(y, streamed) {
            made.push(joined(&missing, y)?)?;
        }
    }
    Ok(made)
}

impl FirstJoin {
    pub(crate) fn of(left: Seq<ColType>, right: Seq<ColType>, size: u32) -> FirstJoin
        requires { 0 < size }
        ensures sides { (result.left ≡ left) × (result.right ≡ right) }
        ensures size { result.size ≡ size }
    {
        FirstJoin { left, right, size }
    }

    fn columns(&self) -> Mem<Seq<ColType>>
        ensures { IfOk result (λ kinds. kinds ≡ self.now.left ++ self.now.right) }
    {
        let right = self.right.as_slice();
        let mut kinds = Seq::of_slice(self.left.alloc(), self.left.as_slice())?;
        for kind in right {
            kinds.push(*kind)?;
        }
        Ok(kinds)
    }

    fn part(&self, alloc: Global, rows: &[Row], from: u64) -> Mem<Streamed>
        requires { IsTrue (fit_kinds (self.now.left ++ self.now.right) rows.now) }
        ensures { IfOk result (λ given.
            (given.out.rows ≡ take self.now.size (drop from rows.now))
            × (given.out.kinds ≡ self.now.left ++ self.now.right)
            × (given.next ≡ cond (nat_lt self.now.size (length (drop from rows.now))) (Some (from + self.now.size)) None)) }
    {
        let rest = (rows.len() as u64).saturating_sub(from);
        let size = u64::from(self.size);
        let next = if size < rest { Some(from + size) } else { None };
        let some = some_rows(alloc, rows, from as usize, self.size)?;
        let out = Batch::of_rows(None, self.columns()?, some);
        Ok(Streamed { out, next })
    }
}

impl Operator for FirstJoin {
    type Local = Seq<Batch>;

    type Shared = Built;

    ghost meaning = { λ o. first_join o.left o.right o.size };

    ghost local_is = { λ m kinds part taken. Keeps kinds part taken };

    ghost shared_is = { λ m inputs s built streamed. Holds m inputs s.rows s.ends built streamed };

    fn shape(&self) -> OpShape {
        OpShape {
            folds: true,
            streams: true,
            tails: true,
        }
    }

    fn wanted(&self) -> Option<u64> {
        None
    }

    fn local(&self, alloc: Global) -> Mem<Seq<Batch>> {
        Ok(Seq::new(alloc))
    }

    fn begin(&self, alloc: Global) -> Mem<Built> {
        Ok(Built {
            rows: Seq::new(alloc),
            ends: Seq::new(alloc),
        })
    }

    fn fold(&self, _alloc: Global, local: &mut Seq<Batch>, batch: Batch) -> Mem<()> {
        let _rows = batch.rows();
        local.push(batch)
    }

    fn seal<R: Threads + Sync>(&self, _rt: &R, alloc: Global, locals: Seq<Seq<Batch>>) -> Mem<Built>
        requires { (inputs : List (List ColType)) × (lists : List (List (Item (List Value))))
            × IsTrue ((first_join self.now.left self.now.right self.now.size).fits inputs)
            × Each (Keeps (second_of inputs)) locals lists }
        ensures { (inputs : List (List ColType)) (lists : List (List (Item (List Value))))
            → IsTrue ((first_join self.now.left self.now.right self.now.size).fits inputs)
            → Each (Keeps (second_of inputs)) locals lists
            → IfOk result (λ made. Holds (first_join self.now.left self.now.right self.now.size) inputs made.rows made.ends (gathered (flat lists)) []) }
    {
        let rows = gathered_rows(alloc, locals)?;
        let ends = unmatched_rows(alloc, self.left.as_slice(), rows.as_slice(), &[])?;
        Ok(Built { rows, ends })
    }

    fn stream(
        &self,
        alloc: Global,
        shared: &Built,
        local: &mut Seq<Batch>,
        batch: &Batch,
        from: u64,
    ) -> Mem<Streamed> {
        local.push(batch.copy()?)?;
        let rows = joined_rows(
            alloc,
            self.right.as_slice(),
            shared.rows.as_slice(),
            batch.rows(),
        )?;
        self.part(alloc, rows.as_slice(), from)
    }

    fn close<R: Threads + Sync>(
        &self,
        _rt: &R,
        alloc: Global,
        shared: &Built,
        locals: Seq<Seq<Batch>>,
    ) -> Mem<Built>
        requires { (inputs : List (List ColType)) × (built : List (List Value)) × (lists : List (List (Item (List Value))))
            × IsTrue ((first_join self.now.left self.now.right self.now.size).fits inputs)
            × Holds (first_join self.now.left self.now.right self.now.size) inputs shared.now.rows shared.now.ends built []
            × Each (Keeps (first_of inputs)) locals lists }
        ensures { (inputs : List (List ColType)) (built : List (List Value)) (lists : List (List (Item (List Value))))
            → IsTrue ((first_join self.now.left self.now.right self.now.size).fits inputs)
            → Holds (first_join self.now.left self.now.right self.now.size) inputs shared.now.rows shared.now.ends built []
            → Each (Keeps (first_of inputs)) locals lists
            → IfOk result (λ made. Holds (first_join self.now.left self.now.right self.now.size) inputs made.rows made.ends built (flat lists)) }
    {
        let all = flat_batches(alloc, locals)?;
        let streamed = all_rows(alloc, all)?;
        let rows = shared.rows.copy()?;
        let ends = unmatched_rows(
            alloc,
            self.left.as_slice(),
            rows.as_slice(),
            streamed.as_slice(),
        )?;
        Ok(Built { rows, ends })
    }

    fn tails(&self, shared: &Built) -> u64 {
        part_count(shared.ends.len() as u64, self.size)
    }

    fn tail(&self, alloc: Global, shared: &Built, k: u64) -> Mem<Batch> {
        let ends = shared.ends.as_slice();
        if k >= part_count(ends.len() as u64, self.size) {
            return Ok(Batch::of_rows(None, self.columns()?, Seq::new(alloc)));
        }
        let rows = rows_of_part(alloc, ends, k, self.size)?;
        Ok(Batch::of_rows(None, self.columns()?, rows))
    }
}

fn rows_of_ints(alloc: Global, keys: &[Option<i64>]) -> Mem<Seq<Row>> {
    let mut rows = Seq::new(alloc);
    for (k, key) in keys.iter().enumerate() {
        let mut row = Seq::new(alloc);
        match key {
            Some(number) => row.push(Value::Int(*number))?,
            None => row.push(Value::Missing)?,
        }
        row.push(Value::Lgl(k == 0))?;
        rows.push(row)?;
    }
    Ok(rows)
}

/// Whether the rows have these whole numbers, or missing values, in two columns.
fn expect_keys<R: Abort>(
    rt: &R,
    rows: &Seq<Row>,
    columns: (usize, usize),
    wanted: &[(Option<i64>, Option<i64>)],
) {
    assert_eq!(rt; rows.len(), wanted.len());
    for (row, (left, right)) in rows.as_slice().iter().zip(wanted) {
        assert_eq!(rt; row.len(), 4);
        for (column, key) in [(columns.0, *left), (columns.1, *right)] {
            match (row.get(column), key) {
                (Some(value), Some(number)) => assert!(rt; *value == Value::Int(number)),
                (Some(value), None) => assert!(rt; *value == Value::Missing),
                (None, _) => assert!(rt; false, "no column"),
            }
        }
    }
}

#[test]
fn rows_are_joined_by_their_first_column(rt: HostRuntime) -> Result<(), Fail> {
    let alloc = rt.alloc();
    let kinds = [ColType::Int, ColType::Lgl];
    let built = rows_of_ints(alloc, &[Some(2), None, Some(3), Some(2)])?;
    let streamed = rows_of_ints(alloc, &[Some(1), Some(2), None])?;
    let made = joined_rows(alloc, &kinds, built.as_slice(), streamed.as_slice())?;
    let wanted = [
        (Some(1), None),
        (Some(2), Some(2)),
        (Some(2), Some(2)),
        (None, None),
    ];
    expect_keys(&rt, &made, (0, 2), &wanted);
    let ends = unmatched_rows(alloc, &kinds, built.as_slice(), streamed.as_slice())?;
    expect_keys(&rt, &ends, (0, 2), &[(None, None), (None, Some(3))]);
    Ok(())
}
