ghost use Rattle.std.specs.Prelude.{◌≡◌, ◌<◌, ◌≤◌, ◌-◌, ◌^◌, ℕ, suc, cond, drop, length, IfOk, slice_index_or, List, [], None, Option};
ghost use Rattle.std.specs.VecDeque.{deque_capacity};
ghost use Rattle.backpressure.specs.Edges.{quiet};
ghost use Rattle.plan_machine.specs.Lists.{at_or};
ghost use Rattle.plan_nodes.specs.declared.node.Node.{Node};
ghost use Rattle.plan_nodes.specs.Kinds.{is_source as source};
ghost use Rattle.plan_nodes.specs.Plans.{tables_of};
ghost use Rattle.plan_store.specs.declared.queue.Queue.{Queue};
ghost use Rattle.plan_store.specs.declared.stage.Stage.{Stage};
ghost use Rattle.plan_store.specs.declared.stage.Flight.{Flight};
ghost use Rattle.scalar_value.specs.declared.value.Value.{Value};
ghost use Rattle.plan_store.specs.Told.{rows_of_tables};
ghost use Rattle.plan_store.specs.Openings.{stage_of as stage, next_table};

use crate::infos::{is_source, shape_of};
use crate::queue::Queue;
use crate::stage::{Flight, Stage};
use backpressure::Edge;
use plan_machine::{first_phase, part_count};
use plan_nodes::Node;
use row_table::Table;
use scalar_value::{Mem, Seq};
use std::alloc::Global;
use std::collections::VecDeque;
use std::sync::Arc;

/// So many edges on which nothing waits, each with so many places.
pub fn queues_of(alloc: Global, count: usize, places: usize) -> Mem<Vec<Queue>>
    ensures { IfOk result (λ made. (length made.items ≡ count) × ((k : ℕ) (d : Queue) → k < count →
        ((slice_index_or made.items k d).waiting.items ≡ [])
        × (places ≤ deque_capacity (slice_index_or made.items k d).waiting)
        × ((slice_index_or made.items k d).edge ≡ quiet))) }
{
    let mut made = Vec::with_capacity(alloc, count)?;
    for _place in 0..count {
        made.push(Queue {
            waiting: VecDeque::with_capacity(alloc, places)?,
            edge: Edge::new(),
        })?;
    }
    Ok(made)
}

/// So many workers without a task.
pub fn seats_of(alloc: Global, count: usize) -> Mem<Vec<Option<Flight>>>
    ensures { IfOk result (λ made. (length made.items ≡ count) × ((k : ℕ) (d : Option Flight) → k < count → slice_index_or made.items k d ≡ None)) }
{
    let mut made = Vec::with_capacity(alloc, count)?;
    for _place in 0..count {
        made.push(None)?;
    }
    Ok(made)
}

/// The number of rows of a node's table: of a source those of the next table, of any other node none.
fn row_count(is_source: bool, sources: &Seq<Arc<Table, Global>>, taken: usize) -> usize
    ensures { result ≡ length (next_table is_source (drop taken (rows_of_tables sources.now))) }
{
    if !is_source {
        return 0;
    }
    match sources.get(taken) {
        Some(table) => table.rows.len(),
        None => 0,
    }
}

/// Where a node stands as the run begins.
fn stage_of(node: &Node, rows: usize, batch: u32) -> Stage
    requires { 0 < batch }
    ensures { (table : List (List Value)) → length table ≡ rows → result ≡ stage node.now batch table }
{
    let source = is_source(&node.kind);
    Stage {
        phase: first_phase(source, shape_of(&node.kind)),
        next: 0,
        count: if source {
            part_count(rows as u64, batch)
        } else {
            0
        },
        busy: 0,
    }
}

/// How many tables are taken behind one more node.
pub fn taken_behind(is_source: bool, taken: usize) -> usize
    requires { taken < 2 ^ 64 - 1 }
    ensures { result ≡ cond is_source (suc taken) taken }
{
    if is_source { taken + 1 } else { taken }
}

/// Where each node stands as the run begins.
pub fn stages_of(
    alloc: Global,
    nodes: &[Node],
    sources: &Seq<Arc<Table, Global>>,
    batch: u32,
) -> Mem<Vec<Stage>>
    requires { 0 < batch }
    ensures { IfOk result (λ made. (length made.items ≡ length nodes.now) × ((k : ℕ) (d : Stage) (e : Node) → k < length nodes.now →
        slice_index_or made.items k d ≡ stage (slice_index_or nodes.now k e) batch (at_or [] k (tables_of nodes.now (rows_of_tables sources.now))))) }
{
    let mut made = Vec::with_capacity(alloc, nodes.len())?;
    let mut taken = 0;
    for node in nodes {
        let source = is_source(&node.kind);
        let rows = row_count(source, sources, taken);
        made.push(stage_of(node, rows, batch))?;
        taken = taken_behind(source, taken);
    }
    Ok(made)
}
