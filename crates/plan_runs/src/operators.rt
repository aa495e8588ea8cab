//! The operators of a plan's nodes.
ghost use Rattle.std.specs.Prelude.{◌≡◌, ◌<◌, ◌≤◌, true, false, All, IfOk, OnOk, length, map, suc};
ghost use Rattle.std.specs.Arc.{arc_value};
ghost use Rattle.plan_nodes.specs.Kinds.{is_source};
ghost use Rattle.plan_nodes.specs.Plans.{IsPlan, input_schemas, node_at, meaning_at};
ghost use Rattle.plan_store.specs.Beginning.{AreOperators};
ghost use Rattle.op_set.specs.Meanings.{meaning_of};
ghost use Rattle.plan_runs.specs.SoFar.{AreFirst};

use op_set::{AnyOp, op_of};
use plan_nodes::{Node, NodeKind, Plan};
use row_table::Schema;
use scalar_value::{Mem, Seq};
use std::alloc::Global;
use std::sync::Arc;

/// The columns of the node of this number.
fn columns_of(nodes: &[Node], number: u32) -> &Schema
    requires { (1 ≤ number) × (number ≤ length nodes.now) }
    ensures { result.now ≡ (node_at nodes.now number).schema }
{
    &nodes[(number - 1) as usize].schema
}

/// The columns of a node's inputs.
fn inputs_of<'a>(alloc: Global, nodes: &'a [Node], node: &Node) -> Mem<Vec<&'a Schema>>
    requires { All (λ e. (1 ≤ e) × (e ≤ length nodes.now)) node.now.inputs }
    ensures { IfOk result (λ made. map (λ s. s.now) made.items ≡ input_schemas nodes.now node.now) }
{
    let mut schemas = Vec::new(alloc);
    for input in node.inputs.as_slice() {
        schemas.push(columns_of(nodes, *input))?;
    }
    Ok(schemas)
}

/// Whether a node is a source.
fn is_source(kind: &NodeKind) -> bool
    ensures { result ≡ is_source kind.now }
{
    matches!(kind, NodeKind::Source(_))
}

/// The operator of the node at a place of the plan, which is no source.
fn operator_at(alloc: Global, nodes: &[Node], place: usize, batch: u32) -> Mem<Arc<AnyOp, Global>>
    requires plan { IsPlan nodes.now }
    requires sized { 0 < batch }
    requires place { place < length nodes.now }
    requires no_source { is_source (node_at nodes.now (suc place)).kind ≡ false }
    ensures { IfOk result (λ op. meaning_of (arc_value op) ≡ meaning_at nodes.now batch (suc place)) }
{
    let node = &nodes[place];
    let inputs = inputs_of(alloc, nodes, node)?;
    Ok(Arc::new(alloc, op_of(alloc, node, &inputs, batch)?)?)
}

/// Adds the operator of the node at a place of the plan, unless that is a source.
fn add_operator(
    alloc: Global,
    nodes: &[Node],
    place: usize,
    batch: u32,
    ops: &mut Seq<Arc<AnyOp, Global>>,
) -> Mem<()>
    requires plan { IsPlan nodes.now }
    requires sized { 0 < batch }
    requires place { place < length nodes.now }
    requires so_far { AreFirst meaning_of nodes.now batch place ops.old }
    ensures { OnOk result (AreFirst meaning_of nodes.now batch (suc place) ops.new) }
{
    if is_source(&nodes[place].kind) {
        return Ok(());
    }
    let op = operator_at(alloc, nodes, place, batch)?;
    ops.push(op)
}

/// An operator for each node of a plan that is no source, in the order of the plan, where batches have `batch` rows. The only
/// error is want of memory.
pub fn operators_of(alloc: Global, plan: &Plan, batch: u32) -> Mem<Seq<Arc<AnyOp, Global>>>
    requires plan { IsPlan plan.now.nodes }
    requires sized { 0 < batch }
    ensures { IfOk result (λ ops. AreOperators meaning_of plan.now.nodes batch ops) }
{
    let nodes = plan.nodes.as_slice();
    let mut ops = Seq::new(alloc);
    for place in 0..nodes.len() {
        add_operator(alloc, nodes, place, batch, &mut ops)?;
    }
    Ok(ops)
}
