ghost use Rattle.std.specs.Prelude.{◌≡◌, List, [], IfOk, IsTrue, true, false};
ghost use Rattle.std.specs.Arc.{arc_value};
ghost use Rattle.scalar_value.specs.declared.value.Value.{Value};
ghost use Rattle.scalar_value.specs.declared.value.ColType.{ColType};
ghost use Rattle.plan_machine.specs.State.{Task as MachineTask};
ghost use Rattle.plan_nodes.specs.Operators.{Each, end_count};
ghost use Rattle.task_work.specs.Rows.{AreParts, shares_of, locals_of, IsNewOf};
ghost use Rattle.task_work.specs.Sites.{Site};
ghost use Rattle.task_work.specs.Work.{IsWork, IsFruit};

use crate::work::{Fruit, Part, Share, Work};
use plan_nodes::Operator;
use scalar_value::{Mem, Seq};
use std::alloc::Global;
use std::sync::Arc;
use std::thread::Threads;

/// A worker's shares of the operator and of what all workers share.
#[derive(Drop)]
pub struct Shares<O, S> {
    pub op: Arc<O, Global>,
    pub shared: Arc<S, Global>,
}

/// The parts of all workers, taken apart: their shares, and their local parts.
#[derive(Drop)]
pub struct Apart<O, S, L> {
    pub shares: Vec<Shares<O, S>>,
    pub locals: Seq<L>,
}

fn take_apart<O: Operator>(
    alloc: Global,
    row: Vec<Option<Share<O, O::Shared, O::Local>>>,
) -> Mem<Apart<O, O::Shared, O::Local>>
    requires { AreParts row.items }
    ensures { IfOk result (λ made. (made.shares.items ≡ shares_of row.items) × (made.locals ≡ locals_of row.items)) }
{
    let mut shares = Vec::new(alloc);
    let mut locals = Seq::new(alloc);
    for slot in row {
        match slot {
            Some(Share::Part(part)) => {
                let Part { op, shared, local } = part;
                shares.push(Shares { op, shared })?;
                locals.push(local)?;
            }
            Some(Share::Table(_)) | None => unreachable!(),
        }
    }
    Ok(Apart { shares, locals })
}

/// A new part for each worker: its share of the operator, a share of what was made, and a local part of no batch.
fn put_together<O: Operator>(
    alloc: Global,
    shares: Vec<Shares<O, O::Shared>>,
    made: &Arc<O::Shared, Global>,
) -> Mem<Vec<Option<Share<O, O::Shared, O::Local>>>>
    ensures { IfOk result (λ row. Each (IsNewOf O.meaning O.local_is (arc_value made.now)) shares.items row.items) }
{
    let mut row = Vec::new(alloc);
    for old in shares {
        let Shares { op, shared: _ } = old;
        let local = op.local(alloc)?;
        row.push(Some(Share::Part(Part {
            op,
            shared: Arc::try_clone(made)?,
            local,
        })))?;
    }
    Ok(row)
}

/// How many batches an operator that gathers gives at its end, where it streams nothing; else the count comes later.
fn count_of<O: Operator>(op: &O, shared: &O::Shared) -> u64
    requires folds { (O.meaning op.now).shape.folds ≡ true }
    requires stands { (inputs : List (List ColType)) × (built : List (List Value))
        × IsTrue ((O.meaning op.now).fits inputs)
        × O.shared_is (O.meaning op.now) inputs shared.now built [] }
    ensures { (inputs : List (List ColType)) (built : List (List Value))
        → IsTrue ((O.meaning op.now).fits inputs)
        → O.shared_is (O.meaning op.now) inputs shared.now built []
        → (O.meaning op.now).shape.streams ≡ false
        → result ≡ end_count (O.meaning op.now) built [] }
{
    if op.shape().streams {
        0
    } else {
        op.tails(shared)
    }
}

/// The work of a Seal: what all workers gathered, and new parts that share it. Also how many batches the operator gives
/// at its end, where it streams nothing.
pub fn seal<R: Threads + Sync, O: Operator>(
    rt: &R,
    alloc: Global,
    row: Vec<Option<Share<O, O::Shared, O::Local>>>,
) -> Mem<Fruit<O, O::Shared, O::Local>>
    requires { (v : Site) × (t : MachineTask (List Value))
        × IsWork O.meaning O.local_is O.shared_is v t (Work.Seal row) }
    ensures { (v : Site) (t : MachineTask (List Value))
        → IsWork O.meaning O.local_is O.shared_is v t (Work.Seal row)
        → IfOk result (IsFruit O.meaning O.local_is O.shared_is v t) }
{
    let Apart { shares, locals } = take_apart(alloc, row)?;
    let first = &shares[0];
    let made = Arc::new(alloc, first.op.seal(rt, alloc, locals)?)?;
    let count = count_of::<O>(&first.op, &made);
    let row = put_together(alloc, shares, &made)?;
    Ok(Fruit::Seal { row, count })
}

/// The work of a Close: what the operator gathered with all that the workers streamed, new parts that share it, and how
/// many batches the operator gives at its end.
pub fn close<R: Threads + Sync, O: Operator>(
    rt: &R,
    alloc: Global,
    row: Vec<Option<Share<O, O::Shared, O::Local>>>,
) -> Mem<Fruit<O, O::Shared, O::Local>>
    requires { (v : Site) × (t : MachineTask (List Value))
        × IsWork O.meaning O.local_is O.shared_is v t (Work.Close row) }
    ensures { (v : Site) (t : MachineTask (List Value))
        → IsWork O.meaning O.local_is O.shared_is v t (Work.Close row)
        → IfOk result (IsFruit O.meaning O.local_is O.shared_is v t) }
{
    let Apart { shares, locals } = take_apart(alloc, row)?;
    let first = &shares[0];
    let made = Arc::new(alloc, first.op.close(rt, alloc, &first.shared, locals)?)?;
    let count = first.op.tails(&made);
    let row = put_together(alloc, shares, &made)?;
    Ok(Fruit::Close { row, count })
}
