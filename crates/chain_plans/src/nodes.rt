ghost use Rattle.std.specs.Prelude.{◌≡◌, ◌≤◌, [], ◌∷◌, length, IfOk};
ghost use Rattle.chain_plans.specs.Chains.{chain_nodes};

use plan_nodes::{Node, NodeKind, Plan};
use row_table::{Mark, Schema};
use scalar_value::{Mem, Seq, Text};
use std::alloc::Global;

/// A step of a chain: what its node does, and the node's columns.
#[derive(Debug, Drop)]
pub struct Step {
    pub kind: NodeKind,
    pub schema: Schema,
}

/// The node behind another.
fn node_behind(alloc: Global, kind: NodeKind, input: u32, mark: Mark, schema: Schema) -> Mem<Node>
    ensures { IfOk result (λ node. node ≡ record { kind = kind; inputs = input ∷ []; mark = mark; schema = schema }) }
{
    Ok(Node {
        kind,
        inputs: Seq::of_slice(alloc, &[input])?,
        mark,
        schema,
    })
}

/// The plan of a table of this name, with these columns and this mark, whose rows go through these steps to the sink. The
/// only error is want of memory.
pub fn chain(alloc: Global, name: Text, mark: Mark, schema: Schema, steps: Seq<Step>) -> Mem<Plan>
    requires few { length steps ≤ 254 }
    ensures { IfOk result (λ plan. plan.nodes ≡ chain_nodes name mark schema steps) }
{
    let mut nodes = Vec::with_capacity(alloc, steps.len() + 2)?;
    nodes.push(Node {
        kind: NodeKind::Source(name),
        inputs: Seq::new(alloc),
        mark,
        schema,
    })?;
    for step in steps.into_vec() {
        let input = nodes.len() as u32;
        let Step { kind, schema } = step;
        nodes.push(node_behind(alloc, kind, input, mark, schema)?)?;
    }
    let input = nodes.len() as u32;
    let columns = nodes[nodes.len() - 1].schema.copy()?;
    nodes.push(node_behind(alloc, NodeKind::Sink, input, mark, columns)?)?;
    Ok(Plan {
        nodes: Seq::of(nodes),
    })
}
