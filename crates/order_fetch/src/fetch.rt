//! Acero's fetch node: so many rows of its input behind the first ones, as dplyr's `head` and `slice`.
ghost use Rattle.std.specs.Prelude.{◌≡◌, ◌<◌, ◌≤◌, ◌+◌, ◌-◌, ◌^◌, List, [], ◌∷◌, IfOk, OnOk, IsOk, IsTrue, Ok, None};
ghost use Rattle.plan_nodes.specs.KindRows.{fetched};
ghost use Rattle.plan_nodes.specs.Kinds.{fetch_meaning};

use crate::gather::{Gathered, keep, nothing};
use column_batch::Batch;
use plan_machine::OpShape;
use plan_nodes::{Operator, Streamed};
use row_table::Row;
use scalar_value::{Mem, Seq};
use std::alloc::Global;
use std::thread::Threads;

/// The operator of a fetch. It keeps the columns and the order of its input, leaves the first rows out, and gives as many
/// of the others as it was made for, in batches of a given number of rows.
#[derive(Debug, Drop)]
pub struct FetchOp {
    offset: u64,
    count: u64,
    batch: u32,
    ghost sized: { 0 < batch },
    ghost within: { offset + count ≤ 2 ^ 64 - 1 },
}

/// So many rows behind the first ones, as far as they are there. The others are dropped.
fn fetched_rows(rows: Seq<Row>, offset: u64, count: u64) -> Seq<Row>
    ensures { result ≡ fetched offset count rows }
{
    let mut rows = rows.into_vec();
    let start = offset.min(rows.len() as u64) as usize;
    rows.rotate_left(start);
    let left = rows.len() - start;
    rows.truncate(count.min(left as u64) as usize);
    Seq::of(rows)
}

impl FetchOp {
    /// The operator that leaves `offset` rows out and gives the next `count`, in batches of `batch` rows. Takes no memory.
    pub fn new(offset: u64, count: u64, batch: u32) -> FetchOp
        requires sized { 0 < batch }
        requires within { offset + count ≤ 2 ^ 64 - 1 }
        ensures { ⟦<FetchOp as Operator>⟧.meaning result ≡ fetch_meaning offset count batch }
    {
        FetchOp {
            offset,
            count,
            batch,
        }
    }
}

impl Operator for FetchOp {
    ghost use Rattle.scalar_value.specs.declared.value.Value.{Value};
    ghost use Rattle.scalar_value.specs.declared.value.ColType.{ColType as Kind};
    ghost use Rattle.plan_machine.specs.Batch.{Batch as Item, gathered};
    ghost use Rattle.plan_nodes.specs.Operators.{Each, flat, first_of};
    ghost use Rattle.plan_nodes.specs.Examples.{Keeps};
    ghost use Rattle.order_fetch.specs.Sinks.{HoldsRows};

    type Local = Seq<Batch>;

    type Shared = Gathered;

    ghost meaning = { λ o. fetch_meaning o.offset o.count o.batch };

    ghost local_is = { λ m kinds part taken. Keeps kinds part taken };

    ghost shared_is = { λ m inputs s built streamed. HoldsRows inputs s.kinds s.rows (m.rest built []) };

    fn shape(&self) -> OpShape {
        OpShape {
            folds: true,
            streams: false,
            tails: true,
        }
    }

    fn wanted(&self) -> Option<u64> {
        Some(self.offset + self.count)
    }

    fn local(&self, alloc: Global) -> Mem<Seq<Batch>> {
        Ok(Seq::new(alloc))
    }

    fn begin(&self, alloc: Global) -> Mem<Gathered> {
        Ok(Gathered::new(alloc))
    }

    fn fold(&self, _alloc: Global, local: &mut Seq<Batch>, batch: Batch) -> Mem<()> {
        keep(local, batch)
    }

    fn seal<R: Threads + Sync>(
        &self,
        _rt: &R,
        alloc: Global,
        locals: Seq<Seq<Batch>>,
    ) -> Mem<Gathered>
        ensures { (inputs : List (List Kind)) (lists : List (List (Item (List Value))))
            → Each (Keeps (first_of inputs)) locals lists
            → IfOk result (λ made. HoldsRows inputs made.kinds made.rows (fetched self.now.offset self.now.count (gathered (flat lists)))) }
    {
        let all = Gathered::of_parts(alloc, locals)?;
        let Gathered { kinds, rows } = all;
        let rows = fetched_rows(rows, self.offset, self.count);
        Ok(Gathered { kinds, rows })
    }

    /// A fetch gives nothing for a single batch.
    fn stream(
        &self,
        alloc: Global,
        _shared: &Gathered,
        _local: &mut Seq<Batch>,
        _batch: &Batch,
        _from: u64,
    ) -> Mem<Streamed>
        ensures { IfOk result (λ given. (given.out.rows ≡ []) × (given.next ≡ None)) }
    {
        Ok(nothing(alloc))
    }

    /// A fetch streams nothing: it holds what it held.
    fn close<R: Threads + Sync>(
        &self,
        _rt: &R,
        _alloc: Global,
        shared: &Gathered,
        _locals: Seq<Seq<Batch>>,
    ) -> Mem<Gathered>
        ensures { IfOk result (λ made. made ≡ shared.now) }
    {
        shared.copy()
    }

    fn tails(&self, shared: &Gathered) -> u64 {
        shared.parts(self.batch)
    }

    fn tail(&self, alloc: Global, shared: &Gathered, k: u64) -> Mem<Batch> {
        shared.part(alloc, k, self.batch)
    }
}
