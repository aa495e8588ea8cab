//! Expressions over batches: their values by columns.
#![tactic(auto)]

ghost use Rattle.std.specs.Prelude.{◌≡◌, IfOk};
ghost use Rattle.col_eval.specs.Columns.{evaluated};

use column_batch::Batch;
use na_expr::{Expr, eval_row};
use scalar_value::{Mem, Seq, Value};
use std::alloc::Global;

#[cfg(test)]
mod tests;

/// The values of an expression on the rows of a batch, in their order: a column, as Acero's project node computes it.
/// The only error is want of memory.
pub fn eval_batch(alloc: Global, e: &Expr, batch: &Batch) -> Mem<Seq<Value>>
    ensures { IfOk result (λ values. values ≡ evaluated e.now batch.now.rows) }
{
    let rows = batch.rows();
    let mut values = Vec::with_capacity(alloc, rows.len())?;
    for row in rows {
        values.push(eval_row(alloc, e, row)?)?;
    }
    Ok(Seq::of(values))
}
