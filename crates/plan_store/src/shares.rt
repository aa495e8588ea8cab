ghost use Rattle.std.specs.Prelude.{◌≡◌, ◌<◌, ℕ, cond, drop, map, true, false, length, IfOk, slice_index_or, Some, None, List, []};
ghost use Rattle.std.specs.declared.alloc.Global.{Global as Heap};
ghost use Rattle.std.specs.declared.sync.Arc.{Arc as Shared};
ghost use Rattle.row_table.specs.Tables.{TableValue};
ghost use Rattle.std.specs.Arc.{arc_value};
ghost use Rattle.scalar_value.specs.declared.value.ColType.{ColType};
ghost use Rattle.plan_store.specs.Told.{rows_of_tables};
ghost use Rattle.plan_store.specs.Beginning.{AreTables, AreOperators};
ghost use Rattle.plan_store.specs.Shares.{IsTableShare, IsPartShare, IsFreshPart, RowsOpen};

use crate::infos::is_source;
use crate::setting::Setting;
use plan_nodes::{Node, Operator};
use row_table::Table;
use scalar_value::Mem;
use std::alloc::Global;
use std::sync::Arc;
use task_work::{Part, Share};

/// A share of a source's table for each worker.
pub fn table_row<O: Operator>(
    alloc: Global,
    table: &Arc<Table, Global>,
    workers: usize,
) -> Mem<Vec<Option<Share<O, O::Shared, O::Local>>>>
    ensures { IfOk result (λ row. (length row.items ≡ workers) × ((k : ℕ) → k < workers → IsTableShare O.meaning O.local_is O.shared_is (arc_value table.now) (slice_index_or row.items k None))) }
{
    let mut row = Vec::with_capacity(alloc, workers)?;
    for _worker in 0..workers {
        row.push(Some(Share::Table(Arc::try_clone(table)?)))?;
    }
    Ok(row)
}

/// A part of an operator in which nothing was gathered, streamed or taken.
fn fresh_part<O: Operator>(
    alloc: Global,
    op: &Arc<O, Global>,
    shared: &Arc<O::Shared, Global>,
) -> Mem<Part<O, O::Shared, O::Local>>
    requires { (inputs : List (List ColType)) → O.shared_is (O.meaning (arc_value op.now)) inputs (arc_value shared.now) [] [] }
    ensures { IfOk result (λ part. IsFreshPart O.meaning O.local_is O.shared_is (arc_value op.now) part) }
{
    let local = op.local(alloc)?;
    Ok(Part {
        op: Arc::try_clone(op)?,
        shared: Arc::try_clone(shared)?,
        local,
    })
}

/// Such a part for each worker, over one shared part.
pub fn part_row<O: Operator>(
    alloc: Global,
    op: &Arc<O, Global>,
    workers: usize,
) -> Mem<Vec<Option<Share<O, O::Shared, O::Local>>>>
    ensures { IfOk result (λ row. (length row.items ≡ workers) × ((k : ℕ) → k < workers → IsPartShare O.meaning O.local_is O.shared_is (arc_value op.now) (slice_index_or row.items k None))) }
{
    let shared = Arc::new(alloc, op.begin(alloc)?)?;
    let mut row = Vec::with_capacity(alloc, workers)?;
    for _worker in 0..workers {
        row.push(Some(Share::Part(fresh_part(alloc, op, &shared)?)))?;
    }
    Ok(row)
}

/// The shares of a node: of a source's table, which is the next of the sources, or of its operator, the next of those.
fn row_of<O: Operator>(
    alloc: Global,
    is_source: bool,
    sources: &[Arc<Table, Global>],
    ops: &[Arc<O, Global>],
    workers: usize,
) -> Mem<Vec<Option<Share<O, O::Shared, O::Local>>>>
    requires source { is_source ≡ true → 0 < length sources.now }
    requires other { is_source ≡ false → 0 < length ops.now }
    ensures size { IfOk result (λ row. length row.items ≡ workers) }
    ensures source { IfOk result (λ row. is_source ≡ true → (d : Shared TableValue Heap) (k : ℕ) → k < workers → IsTableShare O.meaning O.local_is O.shared_is (arc_value (slice_index_or sources.now 0 d)) (slice_index_or row.items k None)) }
    ensures other { IfOk result (λ row. is_source ≡ false → (d : Shared O Heap) (k : ℕ) → k < workers → IsPartShare O.meaning O.local_is O.shared_is (arc_value (slice_index_or ops.now 0 d)) (slice_index_or row.items k None)) }
{
    if is_source {
        table_row(alloc, &sources[0], workers)
    } else {
        part_row(alloc, &ops[0], workers)
    }
}

/// The items behind the first, where that was taken.
fn rest_where<T>(is_taken: bool, items: &[T]) -> &[T]
    requires { is_taken ≡ true → 0 < length items.now }
    ensures { result.now ≡ cond is_taken (drop 1 items.now) items.now }
{
    if is_taken { &items[1..] } else { items }
}

/// The shares of all nodes, in the order of the plan.
pub fn rows_of<O: Operator>(
    alloc: Global,
    nodes: &[Node],
    sources: &[Arc<Table, Global>],
    ops: &[Arc<O, Global>],
    setting: Setting,
) -> Mem<Vec<Vec<Option<Share<O, O::Shared, O::Local>>>>>
    requires tables { AreTables nodes.now sources.now }
    requires operators { AreOperators O.meaning nodes.now setting.batch ops.now }
    ensures { IfOk result (λ made. RowsOpen O.meaning O.local_is O.shared_is nodes.now (rows_of_tables sources.now) setting.batch setting.workers (map (λ row. row.items) made.items)) }
{
    let mut made = Vec::with_capacity(alloc, nodes.len())?;
    let (mut sources, mut ops) = (sources, ops);
    for node in nodes {
        let source = is_source(&node.kind);
        made.push(row_of(alloc, source, sources, ops, setting.workers as usize)?)?;
        sources = rest_where(source, sources);
        ops = rest_where(!source, ops);
    }
    Ok(made)
}
