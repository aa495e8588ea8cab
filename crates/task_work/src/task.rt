ghost use Rattle.std.specs.Prelude.{◌≡◌, ◌<◌, List, ℕ, IfOk};
ghost use Rattle.scalar_value.specs.declared.value.Value.{Value};
ghost use Rattle.plan_machine.specs.State.{Task as MachineTask};
ghost use Rattle.task_work.specs.Sites.{Site};
ghost use Rattle.task_work.specs.Work.{IsWork, IsFruit};

use crate::batches::{fold, stream, tail};
use crate::row::{close, seal};
use crate::source::emit;
use crate::work::{Fruit, Work};
use plan_nodes::Operator;
use scalar_value::Mem;
use std::alloc::Global;
use std::thread::Threads;

/// What a worker has in hand: the node, whether the order of the node's rows is kept, the rows of a batch, and the work
/// itself.
#[derive(Drop)]
pub struct Task<O: Operator> {
    pub node: u32,
    pub kept: bool,
    pub batch: u32,
    pub work: Work<O, O::Shared, O::Local>,
}

/// A task that is done.
#[derive(Drop)]
pub struct Done<O: Operator> {
    pub node: u32,
    pub fruit: Fruit<O, O::Shared, O::Local>,
}

fn fruit_of<R: Threads + Sync, O: Operator>(
    rt: &R,
    alloc: Global,
    kept: bool,
    size: u32,
    work: Work<O, O::Shared, O::Local>,
) -> Mem<Fruit<O, O::Shared, O::Local>>
    requires size { 0 < size }
    requires work { (v : Site) × (t : MachineTask (List Value))
        × (v.kept ≡ kept) × (v.batch ≡ size)
        × IsWork O.meaning O.local_is O.shared_is v t work }
    ensures { (v : Site) (t : MachineTask (List Value))
        → v.kept ≡ kept → v.batch ≡ size
        → IsWork O.meaning O.local_is O.shared_is v t work
        → IfOk result (IsFruit O.meaning O.local_is O.shared_is v t) }
{
    match work {
        Work::Emit { table, number } => emit(alloc, kept, size, table, number),
        Work::Fold { part, batch } => fold(alloc, part, batch),
        Work::Seal { row } => seal(rt, alloc, row),
        Work::Stream { part, batch, from } => stream(alloc, kept, part, batch, from),
        Work::Close { row } => close(rt, alloc, row),
        Work::Tail { part, number } => tail(alloc, kept, part, number),
    }
}

/// Does the work of a task, which takes no turn and waits for nobody.
pub fn run_task<R: Threads + Sync, O: Operator>(
    rt: &R,
    alloc: Global,
    task: Task<O>,
) -> Mem<Done<O>>
    requires batch { 0 < task.batch }
    requires work { (v : Site) × (t : MachineTask (List Value))
        × (v.kept ≡ task.kept) × (v.batch ≡ task.batch)
        × IsWork O.meaning O.local_is O.shared_is v t task.work }
    ensures { (v : Site) (t : MachineTask (List Value))
        → v.kept ≡ task.kept → v.batch ≡ task.batch
        → IsWork O.meaning O.local_is O.shared_is v t task.work
        → IfOk result (λ done. (done.node ≡ task.node) × IsFruit O.meaning O.local_is O.shared_is v t done.fruit) }
{
    let Task {
        node,
        kept,
        batch: size,
        work,
    } = task;
    let fruit = fruit_of(rt, alloc, kept, size, work)?;
    Ok(Done { node, fruit })
}
