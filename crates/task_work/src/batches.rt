ghost use Rattle.std.specs.Prelude.{◌≡◌, List, IfOk, MatchOption, Some, None};
ghost use Rattle.scalar_value.specs.declared.value.Value.{Value};
ghost use Rattle.plan_machine.specs.Batch.{marked, key_of};
ghost use Rattle.plan_machine.specs.State.{Task as MachineTask};
ghost use Rattle.task_work.specs.Sites.{Site};
ghost use Rattle.task_work.specs.Work.{IsWork, IsFruit};

use crate::work::{Fruit, Part, Waiting, Work};
use column_batch::Batch;
use plan_nodes::{Operator, Streamed};
use scalar_value::Mem;
use std::alloc::Global;

/// This index where the order of rows is kept, else none.
pub fn index_where(kept: bool, index: Option<u64>) -> Option<u64>
    ensures { result ≡ marked kept index }
{
    if kept { index } else { None }
}

/// The place of a batch by its index; one without an index stands with that of index 0.
fn place_of(index: Option<u64>) -> u64
    ensures { result ≡ key_of index }
{
    match index {
        Some(index) => index,
        None => 0,
    }
}

/// The batch, which waits with its output from this row on, where there is such a row.
fn rest_of(batch: Batch, next: Option<u64>) -> Option<Waiting>
    ensures { MatchOption next (result ≡ None) (λ from. result ≡ Some (record { batch = batch; from = from })) }
{
    match next {
        Some(from) => Some(Waiting { batch, from }),
        None => None,
    }
}

/// The work of a Fold: the batch goes to the worker's local part.
pub fn fold<O: Operator>(
    alloc: Global,
    part: Part<O, O::Shared, O::Local>,
    batch: Batch,
) -> Mem<Fruit<O, O::Shared, O::Local>>
    requires { (v : Site) × (t : MachineTask (List Value))
        × IsWork O.meaning O.local_is O.shared_is v t (Work.Fold part batch) }
    ensures { (v : Site) (t : MachineTask (List Value))
        → IsWork O.meaning O.local_is O.shared_is v t (Work.Fold part batch)
        → IfOk result (IsFruit O.meaning O.local_is O.shared_is v t) }
{
    let Part {
        op,
        shared,
        mut local,
    } = part;
    let index = place_of(batch.index());
    let rows = batch.len() as u64;
    op.fold(alloc, &mut local, batch)?;
    Ok(Fruit::Fold {
        part: Part { op, shared, local },
        index,
        rows,
    })
}

/// The work of a Stream: a batch of what the operator gives for the batch, with its index where the order is kept, and
/// the batch itself where more of its output is left.
pub fn stream<O: Operator>(
    alloc: Global,
    kept: bool,
    part: Part<O, O::Shared, O::Local>,
    batch: Batch,
    from: u64,
) -> Mem<Fruit<O, O::Shared, O::Local>>
    requires { (v : Site) × (t : MachineTask (List Value))
        × (v.kept ≡ kept)
        × IsWork O.meaning O.local_is O.shared_is v t (Work.Stream part batch from) }
    ensures { (v : Site) (t : MachineTask (List Value))
        → v.kept ≡ kept
        → IsWork O.meaning O.local_is O.shared_is v t (Work.Stream part batch from)
        → IfOk result (IsFruit O.meaning O.local_is O.shared_is v t) }
{
    let Part {
        op,
        shared,
        mut local,
    } = part;
    let Streamed { mut out, next } = op.stream(alloc, &shared, &mut local, &batch, from)?;
    out.set_index(index_where(kept, batch.index()));
    Ok(Fruit::Stream {
        part: Part { op, shared, local },
        out,
        rest: rest_of(batch, next),
    })
}

/// The work of a Tail: a batch of what the operator gives at its end, with its number as index where the order is kept.
pub fn tail<O: Operator>(
    alloc: Global,
    kept: bool,
    part: Part<O, O::Shared, O::Local>,
    number: u64,
) -> Mem<Fruit<O, O::Shared, O::Local>>
    requires { (v : Site) × (t : MachineTask (List Value))
        × (v.kept ≡ kept)
        × IsWork O.meaning O.local_is O.shared_is v t (Work.Tail part number) }
    ensures { (v : Site) (t : MachineTask (List Value))
        → v.kept ≡ kept
        → IsWork O.meaning O.local_is O.shared_is v t (Work.Tail part number)
        → IfOk result (IsFruit O.meaning O.local_is O.shared_is v t) }
{
    let mut out = part.op.tail(alloc, &part.shared, number)?;
    out.set_index(index_where(kept, Some(number)));
    Ok(Fruit::Tail { part, out })
}
