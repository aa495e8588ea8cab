//! Acero's sink node, which ends a plan: it gathers the rows of its input in their order.
ghost use Rattle.std.specs.Prelude.{◌≡◌, ◌<◌, List, [], ◌∷◌, IfOk, OnOk, IsOk, IsTrue, Ok, None};
ghost use Rattle.plan_nodes.specs.Kinds.{sink_meaning};

use crate::gather::{Gathered, keep, nothing};
use column_batch::Batch;
use plan_machine::OpShape;
use plan_nodes::{Operator, Streamed};
use scalar_value::{Mem, Seq};
use std::alloc::Global;
use std::thread::Threads;

/// The operator of a sink. It keeps the columns of its input, and is read in batches of a given number of rows.
#[derive(Debug, Drop)]
pub struct SinkOp {
    batch: u32,
    ghost sized: { 0 < batch },
}

impl SinkOp {
    /// The operator that gathers its input, and gives it in batches of `batch` rows. Takes no memory.
    pub fn new(batch: u32) -> SinkOp
        requires { 0 < batch }
        ensures { ⟦<SinkOp as Operator>⟧.meaning result ≡ sink_meaning batch }
    {
        SinkOp { batch }
    }
}

impl Operator for SinkOp {
    ghost use Rattle.scalar_value.specs.declared.value.Value.{Value};
    ghost use Rattle.scalar_value.specs.declared.value.ColType.{ColType as Kind};
    ghost use Rattle.plan_machine.specs.Batch.{Batch as Item, gathered};
    ghost use Rattle.plan_nodes.specs.Operators.{Each, flat, first_of};
    ghost use Rattle.plan_nodes.specs.Examples.{Keeps};
    ghost use Rattle.order_fetch.specs.Sinks.{HoldsRows};

    type Local = Seq<Batch>;

    type Shared = Gathered;

    ghost meaning = { λ o. sink_meaning o.batch };

    ghost local_is = { λ m kinds part taken. Keeps kinds part taken };

    ghost shared_is = { λ m inputs s built streamed. HoldsRows inputs s.kinds s.rows built };

    fn shape(&self) -> OpShape {
        OpShape {
            folds: true,
            streams: false,
            tails: false,
        }
    }

    fn wanted(&self) -> Option<u64> {
        None
    }

    fn local(&self, alloc: Global) -> Mem<Seq<Batch>> {
        Ok(Seq::new(alloc))
    }

    fn begin(&self, alloc: Global) -> Mem<Gathered> {
        Ok(Gathered::new(alloc))
    }

    fn fold(&self, _alloc: Global, local: &mut Seq<Batch>, batch: Batch) -> Mem<()> {
        keep(local, batch)
    }

    fn seal<R: Threads + Sync>(
        &self,
        _rt: &R,
        alloc: Global,
        locals: Seq<Seq<Batch>>,
    ) -> Mem<Gathered>
        ensures { (inputs : List (List Kind)) (lists : List (List (Item (List Value))))
            → Each (Keeps (first_of inputs)) locals lists
            → IfOk result (λ made. HoldsRows inputs made.kinds made.rows (gathered (flat lists))) }
    {
        Gathered::of_parts(alloc, locals)
    }

    /// A sink gives nothing for a single batch.
    fn stream(
        &self,
        alloc: Global,
        _shared: &Gathered,
        _local: &mut Seq<Batch>,
        _batch: &Batch,
        _from: u64,
    ) -> Mem<Streamed>
        ensures { IfOk result (λ given. (given.out.rows ≡ []) × (given.next ≡ None)) }
    {
        Ok(nothing(alloc))
    }

    /// A sink streams nothing: it holds what it held.
    fn close<R: Threads + Sync>(
        &self,
        _rt: &R,
        _alloc: Global,
        shared: &Gathered,
        _locals: Seq<Seq<Batch>>,
    ) -> Mem<Gathered>
        ensures { IfOk result (λ made. made ≡ shared.now) }
    {
        shared.copy()
    }

    fn tails(&self, shared: &Gathered) -> u64 {
        shared.parts(self.batch)
    }

    fn tail(&self, alloc: Global, shared: &Gathered, k: u64) -> Mem<Batch> {
        shared.part(alloc, k, self.batch)
    }
}
