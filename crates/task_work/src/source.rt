ghost use Rattle.std.specs.Prelude.{◌≡◌, ◌<◌, List, IfOk, Some, take};
ghost use Rattle.std.specs.Arc.{arc_value};
ghost use Rattle.scalar_value.specs.declared.value.Value.{Value};
ghost use Rattle.column_batch.specs.Batches.{kinds_of};
ghost use Rattle.plan_machine.specs.Batch.{marked, piece, parts};
ghost use Rattle.plan_machine.specs.State.{Task as MachineTask};
ghost use Rattle.task_work.specs.Sites.{Site};
ghost use Rattle.task_work.specs.Work.{IsWork, IsFruit};

use crate::batches::index_where;
use crate::work::{Fruit, Work};
use column_batch::{Batch, fits_by_kinds, fits_parts};
use plan_nodes::Operator;
use row_table::{Row, Table};
use scalar_value::Mem;
use std::alloc::Global;
use std::sync::Arc;

/// The first rows, so many or as many as there are.
fn front_of(rows: &[Row], size: usize) -> &[Row]
    ensures { result.now ≡ take size rows.now }
{
    if size < rows.len() {
        let (front, _) = rows.split_at(size);
        front
    } else {
        rows
    }
}

/// The batch of this number, counted from 0, of a table's rows, with its number as index where the order is kept. The
/// only error is want of memory.
fn piece_of(alloc: Global, kept: bool, size: u32, table: &Table, number: u64) -> Mem<Batch>
    requires size { 0 < size }
    requires within { number < parts size table.now.rows }
    ensures { IfOk result (λ b. b ≡ record {
      index = marked kept (Some number);
      kinds = kinds_of table.now.schema;
      rows = (piece kept size table.now.rows number).rows;
    }) }
{
    let (_, rest) = table
        .rows
        .as_slice()
        .split_at(number as usize * size as usize);
    let rows = front_of(rest, size as usize);
    fits_by_kinds();
    fits_parts();
    Batch::from_rows(alloc, index_where(kept, Some(number)), &table.schema, rows)
}

/// The work of an Emit: a batch of the table's rows.
pub fn emit<O: Operator>(
    alloc: Global,
    kept: bool,
    size: u32,
    table: Arc<Table, Global>,
    number: u64,
) -> Mem<Fruit<O, O::Shared, O::Local>>
    requires size { 0 < size }
    requires work { (v : Site) × (t : MachineTask (List Value))
        × (v.kept ≡ kept) × (v.batch ≡ size)
        × IsWork O.meaning O.local_is O.shared_is v t (Work.Emit table number) }
    ensures { (v : Site) (t : MachineTask (List Value))
        → v.kept ≡ kept → v.batch ≡ size
        → IsWork O.meaning O.local_is O.shared_is v t (Work.Emit table number)
        → IfOk result (IsFruit O.meaning O.local_is O.shared_is v t) }
{
    let out = piece_of(alloc, kept, size, &table, number)?;
    Ok(Fruit::Emit { table, out })
}
