ghost use Rattle.std.specs.Prelude.{◌≡◌, ◌<◌, ◌≤◌, ◌+◌, ◌-◌, ◌^◌, ℕ, suc, drop, length, IfOk, IsTrue, slice_index_or, List, []};
ghost use Rattle.plan_nodes.specs.Kinds.{kind_meaning, is_source as source, has_unmatched as unmatched};
ghost use Rattle.plan_nodes.specs.declared.node.Node.{Node};
ghost use Rattle.plan_store.specs.declared.stage.NodeInfo.{NodeInfo};
ghost use Rattle.plan_nodes.specs.Plans.{input_at, user_of as user, user_from, among as is_among, is_kept as kept};
ghost use Rattle.plan_store.specs.Openings.{info_of as info};

use crate::stage::NodeInfo;
use plan_machine::OpShape;
use plan_nodes::{Node, NodeKind};
use row_table::{JoinKind, Mark};
use scalar_value::{Mem, Seq};
use std::alloc::Global;

/// Whether a node gives the rows of a table.
pub fn is_source(kind: &NodeKind) -> bool
    ensures { result ≡ source kind.now }
{
    match kind {
        NodeKind::Source(_) => true,
        NodeKind::Filter(_)
        | NodeKind::Project(_)
        | NodeKind::Longer(_)
        | NodeKind::Aggregate(_)
        | NodeKind::HashJoin(_)
        | NodeKind::OrderBy(_)
        | NodeKind::Fetch(_, _)
        | NodeKind::Window(_)
        | NodeKind::Sink => false,
    }
}

/// What a node does with its inputs. A source has none.
pub fn shape_of(kind: &NodeKind) -> OpShape
    ensures { result ≡ (kind_meaning kind.now [] 1).shape }
{
    let (folds, streams, tails) = match kind {
        NodeKind::Source(_) => (false, false, false),
        NodeKind::Filter(_) | NodeKind::Project(_) | NodeKind::Longer(_) => (false, true, false),
        NodeKind::Aggregate(_)
        | NodeKind::OrderBy(_)
        | NodeKind::Fetch(_, _)
        | NodeKind::Window(_) => (true, false, true),
        NodeKind::HashJoin(join) => (true, true, has_unmatched(join.kind)),
        NodeKind::Sink => (true, false, false),
    };
    OpShape {
        folds,
        streams,
        tails,
    }
}

/// Whether a join gives the right rows that match no left row.
fn has_unmatched(kind: JoinKind) -> bool
    ensures { result ≡ unmatched kind }
{
    match kind {
        JoinKind::Right | JoinKind::Full => true,
        JoinKind::Inner | JoinKind::Left | JoinKind::Semi | JoinKind::Anti => false,
    }
}

#[tactic(auto, using(crate::proofs::At::at_some, crate::proofs::At::at_none))]
fn input_of(inputs: &Seq<u32>, place: usize) -> u32
    ensures { result ≡ input_at inputs.now place }
{
    match inputs.get(place) {
        Some(input) => *input,
        None => 0,
    }
}

#[tactic(auto, using(crate::proofs::At::among_any))]
fn has_input(inputs: &Seq<u32>, edge: u32) -> bool
    ensures { result ≡ is_among edge inputs.now }
{
    inputs.as_slice().contains(&edge)
}

/// The first node that has this one as an input, and the number behind the last where none has.
fn user_of(nodes: &[Node], edge: u32) -> u32
    requires { length nodes.now < 2 ^ 32 - 1 }
    ensures { result ≡ user nodes.now edge }
{
    let mut number = 1;
    for node in nodes {
        if has_input(&node.inputs, edge) {
            return number;
        }
        number += 1;
    }
    number
}

/// What is stored of each node.
fn info_of(nodes: &[Node], node: &Node, number: u32) -> NodeInfo
    requires { length nodes.now < 2 ^ 32 - 1 }
    ensures { result ≡ info nodes.now node.now number }
{
    NodeInfo {
        source: is_source(&node.kind),
        shape: shape_of(&node.kind),
        kept: node.mark == Mark::Kept,
        first: input_of(&node.inputs, 0),
        second: input_of(&node.inputs, 1),
        user: user_of(nodes, number),
    }
}

/// The same of all nodes, in the order of the plan.
pub fn infos_of(alloc: Global, nodes: &[Node]) -> Mem<Vec<NodeInfo>>
    requires { length nodes.now < 2 ^ 32 - 1 }
    ensures { IfOk result (λ made. (length made.items ≡ length nodes.now) × ((k : ℕ) (d : NodeInfo) (e : Node) → k < length nodes.now → slice_index_or made.items k d ≡ info nodes.now (slice_index_or nodes.now k e) (suc k))) }
{
    let mut made = Vec::with_capacity(alloc, nodes.len())?;
    let mut number = 1;
    for node in nodes {
        made.push(info_of(nodes, node, number))?;
        number += 1;
    }
    Ok(made)
}
