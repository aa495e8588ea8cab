//! The bound on a run's entries as a number, node by node.
ghost use Rattle.std.specs.Prelude.{◌≡◌, ◌+◌, ◌*◌, ◌≤◌, ◌<◌, ◌-◌, ◌^◌, true, suc, cond, [], All, IfOk};
ghost use Rattle.plan_machine.specs.Lists.{at_or};
ghost use Rattle.plan_nodes.specs.Kinds.{is_source, is_built};
ghost use Rattle.plan_nodes.specs.Plans.{Pace, input_at};
ghost use Rattle.plan_bounds.specs.Bounds.{nothing, of_table, of_join, of_kind, most_entries};
ghost use Rattle.plan_bounds.specs.Computed.{AreSorted, IsIn64Bits, IsBoundIn64Bits};

use plan_machine::part_count;
use plan_nodes::{Node, NodeKind};
use row_table::Row;
use scalar_value::{Mem, Seq};
use std::alloc::Global;

/// How many rows, and how many batches, a node gives at most.
#[derive(Debug, Clone, Copy)]
pub struct Bound {
    pub rows: u64,
    pub batches: u64,
}

const NOTHING: Bound = Bound {
    rows: 0,
    batches: 0,
};

/// The bound of a table in batches of `batch` rows; nothing where there is no table at this place.
fn table_bound(tables: &[Seq<Row>], place: usize, batch: u32) -> Bound
    requires { 0 < batch }
    ensures { result ≡ of_table batch (at_or [] place tables.now) }
{
    let rows = match tables.get(place) {
        Some(table) => table.len() as u64,
        None => 0,
    };
    Bound {
        rows,
        batches: part_count(rows, batch),
    }
}

/// The number of the input at a place, and 0 where there is none.
fn input_number(node: &Node, place: usize) -> u32
    ensures { result ≡ input_at node.now.inputs place }
{
    match node.inputs.get(place) {
        Some(number) => *number,
        None => 0,
    }
}

/// The bound of an input, of those by the nodes' numbers.
fn input_bound(bounds: &[Bound], node: &Node, place: usize) -> Bound
    ensures { result ≡ at_or nothing (input_at node.now.inputs place) bounds.now }
{
    match bounds.get(input_number(node, place) as usize) {
        Some(bound) => *bound,
        None => NOTHING,
    }
}

/// The bound of a hashjoin by those of its inputs.
fn join_bound(x: Bound, y: Bound) -> Option<Bound>
    ensures { IsBoundIn64Bits (of_join x y) result }
{
    let pairs = x.rows.checked_mul(y.rows)?;
    let rows = pairs.checked_add(x.rows)?.checked_add(y.rows)?;
    let batches = x.batches.checked_add(rows)?;
    Some(Bound { rows, batches })
}

/// The bound of a node by that of the next table, and by those of the nodes before it.
fn node_bound(node: &Node, table: Bound, bounds: &[Bound]) -> Option<Bound>
    requires { is_built node.now.kind ≡ true }
    ensures { IsBoundIn64Bits (of_kind node.now.kind table (at_or nothing (input_at node.now.inputs 0) bounds.now) (at_or nothing (input_at node.now.inputs 1) bounds.now)) result }
{
    match &node.kind {
        NodeKind::Source(_) => Some(table),
        NodeKind::Filter(_) => Some(input_bound(bounds, node, 0)),
        NodeKind::Project(_) => Some(input_bound(bounds, node, 0)),
        NodeKind::HashJoin(_) => {
            join_bound(input_bound(bounds, node, 0), input_bound(bounds, node, 1))
        }
        NodeKind::Fetch(_, _) => {
            let rows = input_bound(bounds, node, 0).rows;
            Some(Bound {
                rows,
                batches: rows,
            })
        }
        NodeKind::Sink => Some(NOTHING),
        NodeKind::Longer(_) | NodeKind::Aggregate(_) | NodeKind::OrderBy(_) | NodeKind::Window(_) =>
            unreachable!(),
    }
}

/// How many tables are taken behind one more node.
fn taken_behind(node: &Node, taken: usize) -> usize
    requires { taken < 2 ^ 64 - 1 }
    ensures { result ≡ cond (is_source node.now.kind) (suc taken) taken }
{
    match &node.kind {
        NodeKind::Source(_) => taken + 1,
        _ => taken,
    }
}

/// The entries with those of one more node: ten for each batch, and eight.
fn entries_with(entries: u64, batches: u64) -> Option<u64>
    ensures { IsIn64Bits (entries + (10 * batches + 8)) result }
{
    let more = batches.checked_mul(10)?.checked_add(8)?;
    entries.checked_add(more)
}

/// The bound on how many entries a run of these nodes can have, over these tables of the sources, in their order, and in
/// batches of `batch` rows: the number `most_entries` itself, or none exactly where it is 2^64 or more.
///
/// The conditions are that inputs stand before their users and that the kinds are built, as in every plan, and that a batch
/// has a row. The only error is
/// want of memory.
pub fn most_entries_of(
    alloc: Global,
    nodes: &[Node],
    tables: &[Seq<Row>],
    batch: u32,
) -> Mem<Option<u64>>
    requires sorted { AreSorted nodes.now }
    requires built { All (λ v. is_built v.kind ≡ true) nodes.now }
    requires batch { 1 ≤ batch }
    ensures { IfOk result (λ most. (pace : Pace) → pace.batch ≡ batch → IsIn64Bits (most_entries nodes.now tables.now pace) most) }
{
    let mut bounds = Vec::new(alloc);
    bounds.push(NOTHING)?;
    let mut taken = 0;
    let mut entries = 0;
    for node in nodes {
        let table = table_bound(tables, taken, batch);
        let Some(bound) = node_bound(node, table, &bounds) else {
            return Ok(None);
        };
        let Some(more) = entries_with(entries, bound.batches) else {
            return Ok(None);
        };
        bounds.push(bound)?;
        taken = taken_behind(node, taken);
        entries = more;
    }
    Ok(Some(entries))
}
