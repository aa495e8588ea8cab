//! The rows of gathered batches, in the order of the batches' indexes.
ghost use Rattle.std.specs.Prelude.{◌≡◌, IfOk};
ghost use Rattle.plan_machine.specs.Batch.{key_of, sort_batches, rows_of, gathered};
ghost use Rattle.plan_nodes.specs.Operators.{flat};
ghost use Rattle.plan_nodes.specs.Examples.{bare};

use column_batch::Batch;
use row_table::Row;
use scalar_value::{Mem, Seq};
use std::alloc::Global;

// A batch without an index stands with that of index 0.
fn place(batch: &Batch) -> u64
    ensures { result ≡ key_of batch.now.index }
{
    match batch.index() {
        Some(index) => index,
        None => 0,
    }
}

/// All batches of the parts, one part behind the other. They are moved.
pub(crate) fn flat_batches(alloc: Global, parts: Seq<Seq<Batch>>) -> Mem<Vec<Batch>>
    ensures { IfOk result (λ all. all.items ≡ flat parts) }
{
    let mut all = Vec::new(alloc);
    for part in parts.into_vec() {
        let mut batches = part.into_vec();
        all.append(&mut batches)?;
    }
    Ok(all)
}

/// The batches in the order of their indexes.
fn put_in_order(all: Vec<Batch>) -> Mem<Vec<Batch>>
    ensures { IfOk result (λ made. bare made.items ≡ sort_batches (bare all.items)) }
{
    let mut made = all;
    made.sort_by_key(|batch| place(batch))?;
    Ok(made)
}

/// The rows of batches as they stand. They are moved.
pub(crate) fn all_rows(alloc: Global, all: Vec<Batch>) -> Mem<Seq<Row>>
    ensures { IfOk result (λ rows. rows ≡ rows_of (bare all.items)) }
{
    let mut rows = Vec::new(alloc);
    for batch in all {
        let mut more = batch.into_rows().into_vec();
        rows.append(&mut more)?;
    }
    Ok(Seq::of(rows))
}

/// The rows of batches in the order of the batches' indexes. They are moved.
pub(crate) fn ordered_rows(alloc: Global, all: Vec<Batch>) -> Mem<Seq<Row>>
    ensures { IfOk result (λ rows. rows ≡ gathered (bare all.items)) }
{
    let ordered = put_in_order(all)?;
    all_rows(alloc, ordered)
}
