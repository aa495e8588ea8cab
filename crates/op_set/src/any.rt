//! An operator of any kind. What it does is that of the operator that it is.
ghost use Rattle.std.specs.Prelude.{◌≡◌, true, List, [], map, IfOk, IsTrue};

use crate::parts::{batches_in, no_rows, nothing};
use column_batch::Batch;
use hash_join::{Built, JoinOp};
use order_fetch::{FetchOp, Gathered, SinkOp};
use plan_machine::OpShape;
use plan_nodes::{Operator, Streamed};
use scalar_value::{Mem, Seq};
use std::alloc::Global;
use std::thread::Threads;
use stream_ops::{FilterOp, NoPart, ProjectOp};

/// The operator of a node, by Acero's names.
#[derive(Debug, Drop)]
pub enum AnyOp {
    Filter(FilterOp),
    Project(ProjectOp),
    Join(JoinOp),
    Fetch(FetchOp),
    Sink(SinkOp),
}

/// The part of a worker: nothing for an operator that keeps nothing, and the batches that it took for one that gathers.
#[derive(Debug, Drop)]
pub enum AnyLocal {
    Nothing,
    Batches(Seq<Batch>),
}

/// The part that all workers share: nothing for an operator that keeps nothing, and the gathered rows for one that
/// gathers.
#[derive(Debug, Drop)]
pub enum AnyShared {
    Nothing,
    Join(Built),
    Gathered(Gathered),
}

impl Operator for AnyOp {
    ghost use Rattle.scalar_value.specs.declared.value.Value.{Value};
    ghost use Rattle.scalar_value.specs.declared.value.ColType.{ColType};
    ghost use Rattle.plan_machine.specs.Batch.{Batch as Item, gathered};
    ghost use Rattle.plan_nodes.specs.Operators.{Each, flat, first_of, folded_of};
    ghost use Rattle.op_set.specs.Meanings.{meaning_of, LocalIs, SharedIs};

    type Local = AnyLocal;

    type Shared = AnyShared;

    ghost meaning = { meaning_of };

    ghost local_is = { LocalIs };

    ghost shared_is = { SharedIs };

    fn shape(&self) -> OpShape {
        match self {
            AnyOp::Filter(op) => op.shape(),
            AnyOp::Project(op) => op.shape(),
            AnyOp::Join(op) => op.shape(),
            AnyOp::Fetch(op) => op.shape(),
            AnyOp::Sink(op) => op.shape(),
        }
    }

    fn wanted(&self) -> Option<u64> {
        match self {
            AnyOp::Filter(op) => op.wanted(),
            AnyOp::Project(op) => op.wanted(),
            AnyOp::Join(op) => op.wanted(),
            AnyOp::Fetch(op) => op.wanted(),
            AnyOp::Sink(op) => op.wanted(),
        }
    }

    fn local(&self, alloc: Global) -> Mem<AnyLocal> {
        match self {
            AnyOp::Filter(_) | AnyOp::Project(_) => Ok(AnyLocal::Nothing),
            AnyOp::Join(op) => Ok(AnyLocal::Batches(op.local(alloc)?)),
            AnyOp::Fetch(op) => Ok(AnyLocal::Batches(op.local(alloc)?)),
            AnyOp::Sink(op) => Ok(AnyLocal::Batches(op.local(alloc)?)),
        }
    }

    fn begin(&self, alloc: Global) -> Mem<AnyShared> {
        match self {
            AnyOp::Filter(_) | AnyOp::Project(_) => Ok(AnyShared::Nothing),
            AnyOp::Join(op) => Ok(AnyShared::Join(op.begin(alloc)?)),
            AnyOp::Fetch(op) => Ok(AnyShared::Gathered(op.begin(alloc)?)),
            AnyOp::Sink(op) => Ok(AnyShared::Gathered(op.begin(alloc)?)),
        }
    }

    fn fold(&self, alloc: Global, local: &mut AnyLocal, batch: Batch) -> Mem<()> {
        match (self, local) {
            (AnyOp::Join(op), AnyLocal::Batches(part)) => op.fold(alloc, part, batch),
            (AnyOp::Fetch(op), AnyLocal::Batches(part)) => op.fold(alloc, part, batch),
            (AnyOp::Sink(op), AnyLocal::Batches(part)) => op.fold(alloc, part, batch),
            _ => Ok(()),
        }
    }

    fn seal<R: Threads + Sync>(
        &self,
        rt: &R,
        alloc: Global,
        locals: Seq<AnyLocal>,
    ) -> Mem<AnyShared>
        requires { (inputs : List (List ColType)) × (lists : List (List (Item (List Value))))
            × IsTrue ((meaning_of self.now).fits inputs)
            × Each (LocalIs (meaning_of self.now) (folded_of (meaning_of self.now) inputs)) locals lists }
        ensures { (inputs : List (List ColType)) (lists : List (List (Item (List Value))))
            → IsTrue ((meaning_of self.now).fits inputs)
            → Each (LocalIs (meaning_of self.now) (folded_of (meaning_of self.now) inputs)) locals lists
            → IfOk result (λ made. SharedIs (meaning_of self.now) inputs made (gathered (flat lists)) []) }
    {
        match self {
            AnyOp::Filter(_) | AnyOp::Project(_) => Ok(AnyShared::Nothing),
            AnyOp::Join(op) => {
                let parts = batches_in(alloc, locals)?;
                Ok(AnyShared::Join(op.seal(rt, alloc, parts)?))
            }
            AnyOp::Fetch(op) => {
                let parts = batches_in(alloc, locals)?;
                Ok(AnyShared::Gathered(op.seal(rt, alloc, parts)?))
            }
            AnyOp::Sink(op) => {
                let parts = batches_in(alloc, locals)?;
                Ok(AnyShared::Gathered(op.seal(rt, alloc, parts)?))
            }
        }
    }

    fn stream(
        &self,
        alloc: Global,
        shared: &AnyShared,
        local: &mut AnyLocal,
        batch: &Batch,
        from: u64,
    ) -> Mem<Streamed> {
        match self {
            AnyOp::Filter(op) => op.stream(alloc, &NoPart, &mut NoPart, batch, from),
            AnyOp::Project(op) => op.stream(alloc, &NoPart, &mut NoPart, batch, from),
            AnyOp::Join(op) => match (shared, local) {
                (AnyShared::Join(built), AnyLocal::Batches(part)) => op.stream(
                    alloc, built, part, batch, from,
                ),
                _ => Ok(nothing(alloc)),
            },
            AnyOp::Fetch(_) | AnyOp::Sink(_) => Ok(nothing(alloc)),
        }
    }

    /// Of these operators a hashjoin alone gives rows both for its batches and at its end.
    fn close<R: Threads + Sync>(
        &self,
        rt: &R,
        alloc: Global,
        shared: &AnyShared,
        locals: Seq<AnyLocal>,
    ) -> Mem<AnyShared>
        requires { (inputs : List (List ColType)) × (built : List (List Value)) × (lists : List (List (Item (List Value))))
            × IsTrue ((meaning_of self.now).fits inputs)
            × SharedIs (meaning_of self.now) inputs shared.now built []
            × Each (LocalIs (meaning_of self.now) (first_of inputs)) locals lists }
        ensures { (meaning_of self.now).shape.streams ≡ true
            → (meaning_of self.now).shape.tails ≡ true
            → (inputs : List (List ColType)) (built : List (List Value)) (lists : List (List (Item (List Value))))
            → IsTrue ((meaning_of self.now).fits inputs)
            → SharedIs (meaning_of self.now) inputs shared.now built []
            → Each (LocalIs (meaning_of self.now) (first_of inputs)) locals lists
            → IfOk result (λ made. SharedIs (meaning_of self.now) inputs made built (flat lists)) }
    {
        match (self, shared) {
            (AnyOp::Join(op), AnyShared::Join(built)) => {
                let parts = batches_in(alloc, locals)?;
                Ok(AnyShared::Join(op.close(rt, alloc, built, parts)?))
            }
            _ => Ok(AnyShared::Nothing),
        }
    }

    fn tails(&self, shared: &AnyShared) -> u64 {
        match (self, shared) {
            (AnyOp::Join(op), AnyShared::Join(built)) => op.tails(built),
            (AnyOp::Fetch(op), AnyShared::Gathered(gathered)) => op.tails(gathered),
            (AnyOp::Sink(op), AnyShared::Gathered(gathered)) => op.tails(gathered),
            _ => 0,
        }
    }

    fn tail(&self, alloc: Global, shared: &AnyShared, k: u64) -> Mem<Batch> {
        match (self, shared) {
            (AnyOp::Join(op), AnyShared::Join(built)) => op.tail(alloc, built, k),
            (AnyOp::Fetch(op), AnyShared::Gathered(gathered)) => op.tail(alloc, gathered, k),
            (AnyOp::Sink(op), AnyShared::Gathered(gathered)) => op.tail(alloc, gathered, k),
            _ => Ok(no_rows(alloc)),
        }
    }
}
