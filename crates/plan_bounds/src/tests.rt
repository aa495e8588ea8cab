//! The worked number, and a bound that passes 64 bits.
ghost use Rattle.std.specs.Prelude.{◌≡◌, ◌∷◌, [], true, All, IfOk, map};
ghost use Rattle.plan_nodes.specs.Kinds.{is_built};

use crate::most_entries_of;
use plan_nodes::{JoinSpec, Node, NodeKind};
use row_table::{JoinKind, Mark, Row};
use scalar_value::{Mem, Seq, Text};
use std::alloc::Global;
use std::test::Fail;

fn node(alloc: Global, kind: NodeKind, inputs: &[u32]) -> Mem<Node>
    ensures inputs { IfOk result (λ v. v.inputs ≡ inputs.now) }
    ensures kind { IfOk result (λ v. v.kind ≡ kind) }
{
    Ok(Node {
        kind,
        inputs: Seq::of_slice(alloc, inputs)?,
        mark: Mark::Unordered,
        schema: Seq::new(alloc),
    })
}

fn source(alloc: Global) -> Mem<Node>
    ensures inputs { IfOk result (λ v. v.inputs ≡ []) }
    ensures built { IfOk result (λ v. is_built v.kind ≡ true) }
{
    node(alloc, NodeKind::Source(Text::of(alloc, "t")?), &[])
}

fn join(alloc: Global, left: u32, right: u32) -> Mem<Node>
    ensures inputs { IfOk result (λ v. v.inputs ≡ left ∷ right ∷ []) }
    ensures built { IfOk result (λ v. is_built v.kind ≡ true) }
{
    let spec = JoinSpec {
        kind: JoinKind::Full,
        left_keys: Seq::new(alloc),
        right_keys: Seq::new(alloc),
        na_match: false,
    };
    node(alloc, NodeKind::HashJoin(spec), &[left, right])
}

/// Two sources, a hashjoin of them, a project and the sink.
fn worked_nodes(alloc: Global) -> Mem<Seq<Node>>
    ensures inputs { IfOk result (λ nodes. map (λ v. v.inputs) nodes ≡ [] ∷ [] ∷ (1 ∷ 2 ∷ []) ∷ (3 ∷ []) ∷ (4 ∷ []) ∷ []) }
    ensures built { IfOk result (λ nodes. All (λ v. is_built v.kind ≡ true) nodes) }
{
    let mut nodes = Seq::new(alloc);
    nodes.push(source(alloc)?)?;
    nodes.push(source(alloc)?)?;
    nodes.push(join(alloc, 1, 2)?)?;
    nodes.push(node(alloc, NodeKind::Project(Seq::new(alloc)), &[3])?)?;
    nodes.push(node(alloc, NodeKind::Sink, &[4])?)?;
    Ok(nodes)
}

/// A source, and four hashjoins, each of the node before it with itself: of three rows the last has 2^32 - 1.
fn squares(alloc: Global) -> Mem<Seq<Node>>
    ensures inputs { IfOk result (λ nodes. map (λ v. v.inputs) nodes ≡ [] ∷ (1 ∷ 1 ∷ []) ∷ (2 ∷ 2 ∷ []) ∷ (3 ∷ 3 ∷ []) ∷ (4 ∷ 4 ∷ []) ∷ []) }
    ensures built { IfOk result (λ nodes. All (λ v. is_built v.kind ≡ true) nodes) }
{
    let mut nodes = Seq::new(alloc);
    nodes.push(source(alloc)?)?;
    nodes.push(join(alloc, 1, 1)?)?;
    nodes.push(join(alloc, 2, 2)?)?;
    nodes.push(join(alloc, 3, 3)?)?;
    nodes.push(join(alloc, 4, 4)?)?;
    Ok(nodes)
}

/// A source, a fetch of it and the sink.
fn fetched_nodes(alloc: Global) -> Mem<Seq<Node>>
    ensures inputs { IfOk result (λ nodes. map (λ v. v.inputs) nodes ≡ [] ∷ (1 ∷ []) ∷ (2 ∷ []) ∷ []) }
    ensures built { IfOk result (λ nodes. All (λ v. is_built v.kind ≡ true) nodes) }
{
    let mut nodes = Seq::new(alloc);
    nodes.push(source(alloc)?)?;
    nodes.push(node(alloc, NodeKind::Fetch(1, 1), &[1])?)?;
    nodes.push(node(alloc, NodeKind::Sink, &[2])?)?;
    Ok(nodes)
}

/// So many rows without values.
fn table(alloc: Global, rows: u64) -> Mem<Seq<Row>> {
    let mut table = Seq::new(alloc);
    for _row in 0..rows {
        table.push(Seq::new(alloc))?;
    }
    Ok(table)
}

#[test]
fn bounds_are_computed(rt: HostRuntime) -> Result<(), Fail> {
    let alloc = rt.alloc();
    let tables = vec![in alloc; table(alloc, 3)?, table(alloc, 2)?]?;
    let worked = worked_nodes(alloc)?;
    let most = most_entries_of(alloc, worked.as_slice(), &tables, 2)?;
    assert_eq!(rt; most, Some(330));
    let nodes = squares(alloc)?;
    let most = most_entries_of(alloc, nodes.as_slice(), &tables, 2)?;
    assert_eq!(rt; most, Some(42_950_992_040));
    let many = vec![in alloc; table(alloc, 255)?]?;
    let most = most_entries_of(alloc, nodes.as_slice(), &many, 2)?;
    assert_eq!(rt; most, None);
    let fetched = fetched_nodes(alloc)?;
    let most = most_entries_of(alloc, fetched.as_slice(), &tables, 2)?;
    assert_eq!(rt; most, Some(74));
    Ok(())
}
