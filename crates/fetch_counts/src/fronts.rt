//! What the fetches of a plan count, node by node.
ghost use Rattle.std.specs.Prelude.{◌≡◌, ◌<◌, ◌≤◌, ◌+◌, ◌-◌, ◌^◌, [], ℕ, length, Some, None, IsSome, IfOk, OnOk, vec_len, vec_capacity, slice_index_or, slice_set};
ghost use Rattle.plan_nodes.specs.Kinds.{kind_meaning};
ghost use Rattle.plan_nodes.specs.declared.node.Node.{Node};
ghost use Rattle.fetch_counts.specs.declared.front.Front.{Front};
ghost use Rattle.fetch_counts.specs.Counts.{IsFresh, IsNoted, AreSameCounts, HaveRoom};

use crate::counting::{front_of, note_folded, reserve_front};
use crate::front::Front;
use plan_nodes::{Node, NodeKind};
use scalar_value::Mem;
use std::alloc::Global;

/// For a fetch how many rows from the front it wants to see.
fn wanted_of(kind: &NodeKind) -> Option<u64>
    requires { (m : ℕ) → (kind_meaning kind.now [] 1).wanted ≡ Some m → m < 2 ^ 64 }
    ensures { result ≡ (kind_meaning kind.now [] 1).wanted }
{
    match kind {
        NodeKind::Fetch(offset, count) => Some(offset + count),
        NodeKind::Source(_)
        | NodeKind::Filter(_)
        | NodeKind::Project(_)
        | NodeKind::Longer(_)
        | NodeKind::Aggregate(_)
        | NodeKind::HashJoin(_)
        | NodeKind::OrderBy(_)
        | NodeKind::Window(_)
        | NodeKind::Sink => None,
    }
}

/// What is counted for each node before anything was folded.
pub fn fronts_of(alloc: Global, nodes: &[Node]) -> Mem<Vec<Front>>
    requires { (k m : ℕ) (d : Node) → k < length nodes.now → (kind_meaning (slice_index_or nodes.now k d).kind [] 1).wanted ≡ Some m → m < 2 ^ 64 }
    ensures { IfOk result (λ made. (length made.items ≡ length nodes.now)
        × ((k : ℕ) (v : Node) (d : Front) → k < length nodes.now → IsFresh (kind_meaning (slice_index_or nodes.now k v).kind [] 1).wanted (slice_index_or made.items k d))) }
{
    let mut made = Vec::with_capacity(alloc, nodes.len())?;
    for node in nodes {
        made.push(front_of(alloc, wanted_of(&node.kind)))?;
    }
    Ok(made)
}

/// A fetch counts a batch that it folded; no other node does.
pub fn note_at(fronts: &mut Vec<Front>, node: u32, index: u64, rows: u64)
    requires node { (1 ≤ node) × (node - 1 < vec_len fronts.old) }
    requires room { (d : Front) → IsSome (slice_index_or fronts.old.items (node - 1) d).wanted → length (slice_index_or fronts.old.items (node - 1) d).behind.items < vec_capacity (slice_index_or fronts.old.items (node - 1) d).behind }
    ensures { (d : Front) → (f : Front)
        × (fronts.new.items ≡ slice_set fronts.old.items (node - 1) f)
        × IsNoted (slice_index_or fronts.old.items (node - 1) d) index rows f }
{
    let front = &mut fronts[(node - 1) as usize];
    if front.wanted.is_some() {
        note_folded(front, index, rows);
    }
}

/// Makes room at each fetch to count so many batches more. What is counted stays as it is.
pub fn reserve_fronts(fronts: &mut Vec<Front>, more: usize) -> Mem<()>
    ensures counts { AreSameCounts fronts.old.items fronts.new.items }
    ensures room { OnOk result (HaveRoom more fronts.new.items) }
{
    for place in 0..fronts.len() {
        let front = &mut fronts[place];
        if front.wanted.is_some() {
            reserve_front(front, more)?;
        }
    }
    Ok(())
}
