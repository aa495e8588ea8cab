//! The operator of a node.
ghost use Rattle.std.specs.Prelude.{◌≡◌, ◌<◌, ◌≤◌, ◌+◌, ◌-◌, ◌^◌, ℕ, map, IfOk, true, false};
ghost use Rattle.column_batch.specs.Batches.{kinds_of};
ghost use Rattle.plan_nodes.specs.declared.node.NodeKind.TheVariants as KindOf;
ghost use Rattle.plan_nodes.specs.Kinds.{kind_meaning, is_source, is_built};
ghost use Rattle.plan_nodes.specs.Operators.{first_of, second_of};

use crate::any::AnyOp;
use hash_join::JoinOp;
use order_fetch::{FetchOp, SinkOp};
use plan_nodes::{Node, NodeKind, Operator};
use row_table::Schema;
use scalar_value::{Mem, Seq};
use std::alloc::Global;
use stream_ops::{FilterOp, ProjectOp};

fn first_schema(alloc: Global, inputs: &[&Schema]) -> Mem<Schema>
    ensures { IfOk result (λ schema. kinds_of schema ≡ kinds_of (first_of (map (λ s. s.now) inputs.now))) }
{
    match inputs.first() {
        Some(schema) => schema.copy(),
        None => Ok(Seq::new(alloc)),
    }
}

fn second_schema(alloc: Global, inputs: &[&Schema]) -> Mem<Schema>
    ensures { IfOk result (λ schema. kinds_of schema ≡ kinds_of (second_of (map (λ s. s.now) inputs.now))) }
{
    match inputs.get(1) {
        Some(schema) => schema.copy(),
        None => Ok(Seq::new(alloc)),
    }
}

/// The operator of a node that is no source, over inputs with these columns, where batches have `batch`
/// rows. The only error is want of memory.
pub fn op_of(alloc: Global, node: &Node, inputs: &[&Schema], batch: u32) -> Mem<AnyOp>
    requires no_source { is_source node.now.kind ≡ false }
    requires built { is_built node.now.kind ≡ true }
    requires within { (offset count : ℕ) → node.now.kind ≡ KindOf.Fetch offset count → offset + count ≤ 2 ^ 64 - 1 }
    requires sized { 0 < batch }
    ensures { IfOk result (λ made. ⟦<AnyOp as Operator>⟧.meaning made ≡ kind_meaning node.now.kind (map (λ s. s.now) inputs.now) batch) }
{
    match &node.kind {
        NodeKind::Filter(condition) => Ok(AnyOp::Filter(FilterOp::new(condition.copy()?))),
        NodeKind::Project(list) => {
            let schema = first_schema(alloc, inputs)?;
            Ok(AnyOp::Project(ProjectOp::new(list.copy()?, schema)))
        }
        NodeKind::HashJoin(spec) => {
            let left = first_schema(alloc, inputs)?;
            let right = second_schema(alloc, inputs)?;
            Ok(AnyOp::Join(JoinOp::new(spec.copy()?, left, right, batch)))
        }
        NodeKind::Fetch(offset, count) => Ok(AnyOp::Fetch(FetchOp::new(*offset, *count, batch))),
        NodeKind::Sink => Ok(AnyOp::Sink(SinkOp::new(batch))),
        NodeKind::Source(_)
        | NodeKind::Longer(_)
        | NodeKind::Aggregate(_)
        | NodeKind::OrderBy(_)
        | NodeKind::Window(_) => unreachable!(),
    }
}
