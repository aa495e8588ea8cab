//! The batches that an operator gathers: how a worker keeps them, how they are put together in the order of their indexes,
//! and the parts in which their rows are given.
ghost use Rattle.std.specs.Prelude.{◌≡◌, ◌<◌, ◌*◌, ◌++◌, List, [], ◌∷◌, length, take, drop, IfOk, OnOk, IsTrue, None};
ghost use Rattle.scalar_value.specs.declared.value.Value.{Value};
ghost use Rattle.column_batch.specs.Batches.{fit_kinds};
ghost use Rattle.plan_machine.specs.Batch.{Batch as Item, key_of, sort_batches, rows_of, gathered};
ghost use Rattle.plan_machine.specs.Phases.{part_count_of};
ghost use Rattle.plan_nodes.specs.Operators.{Each, flat, first_of, item};
ghost use Rattle.plan_nodes.specs.Examples.{Keeps, bare, first_kinds};
ghost use Rattle.order_fetch.specs.Sinks.{HoldsRows};

use column_batch::Batch;
use plan_machine::part_count;
use plan_nodes::Streamed;
use row_table::Row;
use scalar_value::{ColType, Mem, Seq};
use std::alloc::Global;

/// The rows that an operator gathered, with the types of their columns.
#[derive(Debug, Drop)]
pub struct Gathered {
    pub(crate) kinds: Seq<ColType>,
    pub(crate) rows: Seq<Row>,
}

impl Gathered {
    /// No rows, whose columns are not known. Takes no memory.
    pub(crate) fn new(alloc: Global) -> Gathered
        ensures kinds { result.kinds ≡ [] }
        ensures rows { result.rows ≡ [] }
    {
        Gathered {
            kinds: Seq::new(alloc),
            rows: Seq::new(alloc),
        }
    }

    /// What all workers kept, put together in the order of the batches' indexes. The batches are moved.
    pub(crate) fn of_parts(alloc: Global, parts: Seq<Seq<Batch>>) -> Mem<Gathered>
        ensures { (inputs : List (List ColType)) (lists : List (List (Item (List Value))))
            → Each (Keeps (first_of inputs)) parts lists
            → IfOk result (λ made. HoldsRows inputs made.kinds made.rows (gathered (flat lists))) }
    {
        let all = flat_batches(alloc, parts)?;
        let kinds = kinds_of_first(alloc, all.as_slice())?;
        let rows = ordered_rows(alloc, all)?;
        Ok(Gathered { kinds, rows })
    }

    /// Equal rows, with the same types of columns.
    pub(crate) fn copy(&self) -> Mem<Gathered>
        ensures { IfOk result (λ made. made ≡ self.now) }
    {
        Ok(Gathered {
            kinds: Seq::of_slice(self.kinds.alloc(), self.kinds.as_slice())?,
            rows: self.rows.copy()?,
        })
    }

    /// How many batches of `size` rows hold them.
    pub(crate) fn parts(&self, size: u32) -> u64
        requires { 0 < size }
        ensures { result ≡ part_count_of (length self.now.rows) size }
    {
        part_count(self.rows.len() as u64, size)
    }

    /// Part `k` of them as a batch without an index, where each part but the last has `size` rows.
    pub(crate) fn part(&self, alloc: Global, k: u64, size: u32) -> Mem<Batch>
        requires { IsTrue (fit_kinds self.now.kinds self.now.rows) }
        ensures rows { IfOk result (λ made. made.rows ≡ take size (drop (k * size) self.now.rows)) }
        ensures kinds { IfOk result (λ made. made.kinds ≡ self.now.kinds) }
    {
        let rows = rows_of_part(alloc, self.rows.as_slice(), k, size)?;
        let kinds = Seq::of_slice(alloc, self.kinds.as_slice())?;
        Ok(Batch::of_rows(None, kinds, rows))
    }
}

/// Adds a batch to those that a worker keeps.
pub(crate) fn keep(kept: &mut Seq<Batch>, batch: Batch) -> Mem<()>
    ensures { (kinds : List ColType) (taken : List (Item (List Value)))
        → Keeps kinds kept.old taken
        → batch.kinds ≡ kinds
        → OnOk result (Keeps kinds kept.new (taken ++ item batch 0 ∷ [])) }
{
    let _rows = batch.rows();
    kept.push(batch)
}

/// What is given for a single batch by an operator that gathers.
pub(crate) fn nothing(alloc: Global) -> Streamed
    ensures rows { result.out.rows ≡ [] }
    ensures next { result.next ≡ None }
{
    Streamed {
        out: Batch::of_rows(None, Seq::new(alloc), Seq::new(alloc)),
        next: None,
    }
}

// A batch without an index stands with that of index 0.
fn place(batch: &Batch) -> u64
    ensures { result ≡ key_of batch.now.index }
{
    match batch.index() {
        Some(index) => index,
        None => 0,
    }
}

/// All batches of the parts, one part behind the other. They are moved.
fn flat_batches(alloc: Global, parts: Seq<Seq<Batch>>) -> Mem<Vec<Batch>>
    ensures { IfOk result (λ all. all.items ≡ flat parts) }
{
    let mut all = Vec::new(alloc);
    for part in parts.into_vec() {
        let mut batches = part.into_vec();
        all.append(&mut batches)?;
    }
    Ok(all)
}

/// The batches in the order of their indexes.
fn put_in_order(all: Vec<Batch>) -> Mem<Vec<Batch>>
    ensures { IfOk result (λ made. bare made.items ≡ sort_batches (bare all.items)) }
{
    let mut made = all;
    made.sort_by_key(|batch| place(batch))?;
    Ok(made)
}

fn all_rows(alloc: Global, all: Vec<Batch>) -> Mem<Seq<Row>>
    ensures { IfOk result (λ rows. rows ≡ rows_of (bare all.items)) }
{
    let mut rows = Vec::new(alloc);
    for batch in all {
        let mut more = batch.into_rows().into_vec();
        rows.append(&mut more)?;
    }
    Ok(Seq::of(rows))
}

/// The rows of batches in the order of the batches' indexes. They are moved.
fn ordered_rows(alloc: Global, all: Vec<Batch>) -> Mem<Seq<Row>>
    ensures { IfOk result (λ rows. rows ≡ gathered (bare all.items)) }
{
    let ordered = put_in_order(all)?;
    all_rows(alloc, ordered)
}

/// The types of the first batch's columns, and none where there is no batch.
fn kinds_of_first(alloc: Global, all: &[Batch]) -> Mem<Seq<ColType>>
    ensures { IfOk result (λ kinds. kinds ≡ first_kinds all.now) }
{
    match all.first() {
        Some(batch) => Seq::of_slice(alloc, batch.kinds()),
        None => Ok(Seq::new(alloc)),
    }
}

fn some_rows(alloc: Global, rows: &[Row], skip: usize, size: u32) -> Mem<Seq<Row>>
    ensures { IfOk result (λ made. made ≡ take size (drop skip rows.now)) }
{
    let start = skip.min(rows.len());
    let count = (rows.len() - start).min(size as usize);
    let part = &rows[start..start + count];
    let mut made = Seq::new(alloc);
    for row in part {
        made.push(row.copy()?)?;
    }
    Ok(made)
}

/// Copies of the rows of part `k`, where each part but the last has `size` rows. Behind the last there are none.
fn rows_of_part(alloc: Global, rows: &[Row], k: u64, size: u32) -> Mem<Seq<Row>>
    ensures { IfOk result (λ made. made ≡ take size (drop (k * size) rows.now)) }
{
    let count = rows.len() as u64;
    let skip = match k.checked_mul(u64::from(size)) {
        Some(skip) => skip.min(count),
        None => count,
    };
    some_rows(alloc, rows, skip as usize, size)
}
