//! The rows of gathered batches, in the order of the batches' indexes.
ghost use Rattle.std.specs.Prelude.{◌≡◌, IfOk, length, take, drop, ◌*◌, ◌<◌};
ghost use Rattle.plan_machine.specs.Phases.{part_count_of};
ghost use Rattle.plan_machine.specs.Batch.{key_of, sort_batches, rows_of, gathered};
ghost use Rattle.plan_nodes.specs.Operators.{flat};
ghost use Rattle.plan_nodes.specs.Examples.{bare};

use column_batch::Batch;
use row_table::Row;
use scalar_value::{Mem, Seq};
use std::alloc::Global;

// A batch without an index stands with that of index 0.
fn place(batch: &Batch) -> u64
    ensures { result ≡ key_of batch.now.index }
{
    match batch.index() {
        Some(index) => index,
        None => 0,
    }
}

pub(crate) fn flat_batches(alloc: Global, parts: Seq<Seq<Batch>>) -> Mem<Vec<Batch>>
    ensures { IfOk result (λ all. all.items ≡ flat parts) }
{
    let mut all = Vec::new(alloc);
    for part in parts.into_vec() {
        let mut batches = part.into_vec();
        all.append(&mut batches)?;
    }
    Ok(all)
}

pub(crate) fn put_in_order(all: Vec<Batch>) -> Mem<Vec<Batch>>
    ensures { IfOk result (λ made. bare made.items ≡ sort_batches (bare all.items)) }
{
    let mut made = all;
    made.sort_by_key(|batch| place(batch))?;
    Ok(made)
}

pub(crate) fn all_rows(alloc: Global, all: Vec<Batch>) -> Mem<Seq<Row>>
    ensures { IfOk result (λ rows. rows ≡ rows_of (bare all.items)) }
{
    let mut rows = Vec::new(alloc);
    for batch in all {
        let mut more = batch.into_rows().into_vec();
        rows.append(&mut more)?;
    }
    Ok(Seq::of(rows))
}

/// The rows of all batches of the parts.
pub(crate) fn gathered_rows(alloc: Global, parts: Seq<Seq<Batch>>) -> Mem<Seq<Row>>
    ensures { IfOk result (λ rows. rows ≡ gathered (bare (flat parts))) }
{
    let all = flat_batches(alloc, parts)?;
    let ordered = put_in_order(all)?;
    all_rows(alloc, ordered)
}

/// Copies of at most `size` rows behind the first `skip`.
pub(crate) fn some_rows(alloc: Global, rows: &[Row], skip: usize, size: u32) -> Mem<Seq<Row>>
    ensures { IfOk result (λ made. made ≡ take size (drop skip rows.now)) }
{
    let start = skip.min(rows.len());
    let count = (rows.len() - start).min(size as usize);
    let part = &rows[start..start + count];
    let mut made = Seq::new(alloc);
    for row in part {
        made.push(row.copy()?)?;
    }
    Ok(made)
}

/// Copies of the rows of part `k`, where each part but the last has `size` rows.
pub(crate) fn rows_of_part(alloc: Global, rows: &[Row], k: u64, size: u32) -> Mem<Seq<Row>>
    requires sized { 0 < size }
    requires there { k < part_count_of (length rows.now) size }
    ensures { IfOk result (λ made. made ≡ take size (drop (k * size) rows.now)) }
{
    let skip = k * u64::from(size);
    some_rows(alloc, rows, skip as usize, size)
}
