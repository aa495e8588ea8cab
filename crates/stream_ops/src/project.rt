//! Acero's project node: for each row of a batch the values of expressions, as dplyr's `mutate` and `select`.
ghost use Rattle.std.specs.Prelude.{◌≡◌, IfOk, IsOk, OnOk, Ok, IsTrue, [], List, length, map};
ghost use Rattle.na_expr.specs.Types.{typed};
ghost use Rattle.column_batch.specs.Batches.{kinds_of};
ghost use Rattle.plan_nodes.specs.Kinds.{projected, project_meaning, ok_or_lgl};
ghost use Rattle.stream_ops.specs.Columns.{lengthened};

use crate::part::NoPart;
use col_eval::eval_batch;
use column_batch::Batch;
use na_expr::{Expr, type_of};
use plan_machine::OpShape;
use plan_nodes::{Operator, Streamed};
use row_table::{Row, Schema};
use scalar_value::{ColType, Mem, Seq, Value};
use std::alloc::Global;
use std::thread::Threads;

/// The operator of a project: a column for each expression, and a row for each row, in the order of its input.
#[derive(Debug, Drop)]
pub struct ProjectOp {
    list: Seq<Expr>,
    schema: Schema,
}

fn kind_of(e: &Expr, schema: &Schema) -> ColType
    ensures { result ≡ ok_or_lgl (typed schema.now e.now) }
{
    match type_of(e, schema) {
        Ok(kind) => kind,
        Err(_) => ColType::Lgl,
    }
}

fn kinds_made(alloc: Global, list: &[Expr], schema: &Schema) -> Mem<Seq<ColType>>
    ensures { IfOk result (λ kinds. kinds ≡ map (λ e. ok_or_lgl (typed schema.now e)) list.now) }
{
    let mut kinds = Seq::new(alloc);
    for e in list {
        kinds.push(kind_of(e, schema))?;
    }
    Ok(kinds)
}

/// A row without values for each row, with room for so many.
fn empty_rows(alloc: Global, rows: &[Row], room: usize) -> Mem<Vec<Row>>
    ensures { IfOk result (λ made. made.items ≡ projected [] rows.now) }
{
    let mut made = Vec::with_capacity(alloc, rows.len())?;
    for _row in rows {
        made.push(Seq::of(Vec::with_capacity(alloc, room)?))?;
    }
    Ok(made)
}

/// Moves each value of a column behind the values of its row.
fn push_column(rows: &mut [Row], column: Seq<Value>) -> Mem<()>
    requires { length column ≡ length rows.old }
    ensures { OnOk result (rows.new ≡ lengthened rows.old column) }
{
    for (place, value) in column.into_vec().into_iter().enumerate() {
        rows[place].push(value)?;
    }
    Ok(())
}

/// Moves the values of expressions on the rows of a batch into rows that have none yet, column by column.
fn push_columns(alloc: Global, list: &[Expr], batch: &Batch, rows: &mut [Row]) -> Mem<()>
    requires { rows.old ≡ projected [] batch.now.rows }
    ensures { OnOk result (rows.new ≡ projected list.now batch.now.rows) }
{
    for e in list {
        push_column(rows, eval_batch(alloc, e, batch)?)?;
    }
    Ok(())
}

impl ProjectOp {
    /// The operator that gives the values of these expressions over an input with these columns. Takes no memory.
    pub fn new(list: Seq<Expr>, schema: Schema) -> ProjectOp
        ensures { ⟦<ProjectOp as Operator>⟧.meaning result ≡ project_meaning list (kinds_of schema) }
    {
        ProjectOp { list, schema }
    }
}

impl Operator for ProjectOp {
    type Local = NoPart;

    type Shared = NoPart;

    ghost meaning = { λ o. project_meaning o.list (kinds_of o.schema) };

    ghost local_is = { λ m kinds part taken. Unit {0} };

    ghost shared_is = { λ m inputs part built streamed. Unit {0} };

    fn shape(&self) -> OpShape {
        OpShape {
            folds: false,
            streams: true,
            tails: false,
        }
    }

    fn wanted(&self) -> Option<u64> {
        None
    }

    fn local(&self, _alloc: Global) -> Mem<NoPart> {
        Ok(NoPart)
    }

    fn begin(&self, _alloc: Global) -> Mem<NoPart> {
        Ok(NoPart)
    }

    /// A project gathers nothing.
    fn fold(&self, _alloc: Global, _local: &mut NoPart, _batch: Batch) -> Mem<()>
        ensures { result ≡ Ok tt }
    {
        Ok(())
    }

    /// A project gathers nothing.
    fn seal<R: Threads + Sync>(&self, _rt: &R, _alloc: Global, _locals: Seq<NoPart>) -> Mem<NoPart>
        ensures { IsOk result }
    {
        Ok(NoPart)
    }

    fn stream(
        &self,
        alloc: Global,
        _shared: &NoPart,
        _local: &mut NoPart,
        batch: &Batch,
        _from: u64,
    ) -> Mem<Streamed> {
        let list = self.list.as_slice();
        let kinds = kinds_made(alloc, list, &self.schema)?;
        let mut rows = empty_rows(alloc, batch.rows(), list.len())?;
        push_columns(alloc, list, batch, &mut rows)?;
        let out = Batch::of_rows(batch.index(), kinds, Seq::of(rows));
        Ok(Streamed { out, next: None })
    }

    /// A project keeps nothing for its end.
    fn close<R: Threads + Sync>(
        &self,
        _rt: &R,
        _alloc: Global,
        _shared: &NoPart,
        _locals: Seq<NoPart>,
    ) -> Mem<NoPart>
        ensures { IsOk result }
    {
        Ok(NoPart)
    }

    /// A project gives no rows at its end.
    fn tails(&self, _shared: &NoPart) -> u64
        ensures { result ≡ 0 }
    {
        0
    }

    /// A project gives no rows at its end.
    fn tail(&self, alloc: Global, _shared: &NoPart, _k: u64) -> Mem<Batch>
        ensures { IfOk result (λ made. made.rows ≡ []) }
    {
        Ok(Batch::of_rows(None, Seq::new(alloc), Seq::new(alloc)))
    }
}
