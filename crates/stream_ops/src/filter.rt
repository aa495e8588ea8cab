//! Acero's filter node: of each batch the rows on which a condition is TRUE, as dplyr's `filter`.
ghost use Rattle.std.specs.Prelude.{◌≡◌, IfOk, IsOk, Ok, [], List, length};
ghost use Rattle.scalar_value.specs.Truths.{is_true as true_value};
ghost use Rattle.plan_nodes.specs.Kinds.{filter_meaning};
ghost use Rattle.stream_ops.specs.Columns.{rows_where};

use crate::part::NoPart;
use col_eval::eval_batch;
use column_batch::Batch;
use na_expr::Expr;
use plan_machine::OpShape;
use plan_nodes::{Operator, Streamed};
use row_table::Row;
use scalar_value::{Mem, Seq, Value};
use std::alloc::Global;
use std::thread::Threads;

/// The operator of a filter. It keeps the columns and the order of its input, and drops the rows on which the condition
/// is FALSE or missing.
#[derive(Debug, Drop)]
pub struct FilterOp {
    condition: Expr,
}

fn is_true(value: &Value) -> bool
    ensures { result ≡ true_value value.now }
{
    matches!(value, Value::Lgl(true))
}

/// Copies of the rows beside which a column has TRUE.
fn kept_rows(alloc: Global, rows: &[Row], values: &[Value]) -> Mem<Seq<Row>>
    requires { length values.now ≡ length rows.now }
    ensures { IfOk result (λ made. made ≡ rows_where rows.now values.now) }
{
    let mut made = Seq::new(alloc);
    for (row, value) in rows.iter().zip(values) {
        if is_true(value) {
            made.push(row.copy()?)?;
        }
    }
    Ok(made)
}

impl FilterOp {
    /// The operator that keeps the rows on which this condition is TRUE. Takes no memory.
    pub fn new(condition: Expr) -> FilterOp
        ensures { ⟦<FilterOp as Operator>⟧.meaning result ≡ filter_meaning condition }
    {
        FilterOp { condition }
    }
}

impl Operator for FilterOp {
    type Local = NoPart;

    type Shared = NoPart;

    ghost meaning = { λ o. filter_meaning o.condition };

    ghost local_is = { λ m kinds part taken. Unit {0} };

    ghost shared_is = { λ m inputs part built streamed. Unit {0} };

    fn shape(&self) -> OpShape {
        OpShape {
            folds: false,
            streams: true,
            tails: false,
        }
    }

    fn wanted(&self) -> Option<u64> {
        None
    }

    fn local(&self, _alloc: Global) -> Mem<NoPart> {
        Ok(NoPart)
    }

    fn begin(&self, _alloc: Global) -> Mem<NoPart> {
        Ok(NoPart)
    }

    /// A filter gathers nothing.
    fn fold(&self, _alloc: Global, _local: &mut NoPart, _batch: Batch) -> Mem<()>
        ensures { result ≡ Ok tt }
    {
        Ok(())
    }

    /// A filter gathers nothing.
    fn seal<R: Threads + Sync>(&self, _rt: &R, _alloc: Global, _locals: Seq<NoPart>) -> Mem<NoPart>
        ensures { IsOk result }
    {
        Ok(NoPart)
    }

    fn stream(
        &self,
        alloc: Global,
        _shared: &NoPart,
        _local: &mut NoPart,
        batch: &Batch,
        _from: u64,
    ) -> Mem<Streamed> {
        let values = eval_batch(alloc, &self.condition, batch)?;
        let rows = kept_rows(alloc, batch.rows(), values.as_slice())?;
        let kinds = Seq::of_slice(alloc, batch.kinds())?;
        let out = Batch::of_rows(batch.index(), kinds, rows);
        Ok(Streamed { out, next: None })
    }

    /// A filter keeps nothing for its end.
    fn close<R: Threads + Sync>(
        &self,
        _rt: &R,
        _alloc: Global,
        _shared: &NoPart,
        _locals: Seq<NoPart>,
    ) -> Mem<NoPart>
        ensures { IsOk result }
    {
        Ok(NoPart)
    }

    /// A filter gives no rows at its end.
    fn tails(&self, _shared: &NoPart) -> u64
        ensures { result ≡ 0 }
    {
        0
    }

    /// A filter gives no rows at its end.
    fn tail(&self, alloc: Global, _shared: &NoPart, _k: u64) -> Mem<Batch>
        ensures { IfOk result (λ made. made.rows ≡ []) }
    {
        Ok(Batch::of_rows(None, Seq::new(alloc), Seq::new(alloc)))
    }
}
