//! The operator of each kind of node, through the bound.
ghost use Rattle.std.specs.Prelude.{◌≡◌, ◌≤◌, ◌+◌, ◌-◌, ◌^◌, ℕ, true, false};
ghost use Rattle.plan_nodes.specs.declared.node.NodeKind.TheVariants as KindOf;
ghost use Rattle.plan_nodes.specs.Kinds.{is_source, is_built};

use crate::{AnyOp, op_of};
use na_expr::Expr;
use plan_machine::OpShape;
use plan_nodes::{Node, NodeKind, Operator};
use row_table::{Field, Mark};
use scalar_value::{ColType, Mem, Seq, Text};
use std::alloc::Global;
use std::process::Abort;
use std::test::Fail;

fn op_for(alloc: Global, kind: NodeKind) -> Mem<AnyOp>
    requires no_source { is_source kind ≡ false }
    requires built { is_built kind ≡ true }
    requires within { (offset count : ℕ) → kind ≡ KindOf.Fetch offset count → offset + count ≤ 2 ^ 64 - 1 }
{
    let mut schema = Seq::new(alloc);
    schema.push(Field {
        name: Text::of(alloc, "t")?,
        kind: ColType::Lgl,
    })?;
    let node = Node {
        kind,
        inputs: Seq::of_slice(alloc, &[1])?,
        mark: Mark::Kept,
        schema: schema.copy()?,
    };
    op_of(alloc, &node, &[&schema], 2)
}

/// Whether the operator has this shape, wants to see so many rows, and makes its parts.
fn expect_shape<R: Abort, O: Operator>(
    rt: &R,
    alloc: Global,
    op: &O,
    shape: OpShape,
    wanted: Option<u64>,
) -> Mem<()> {
    assert_eq!(rt; op.shape(), shape);
    assert_eq!(rt; op.wanted(), wanted);
    let _local = op.local(alloc)?;
    let _shared = op.begin(alloc)?;
    Ok(())
}

/// The same of the operator of a node of this kind.
fn expect_op<R: Abort>(
    rt: &R,
    alloc: Global,
    kind: NodeKind,
    shape: OpShape,
    wanted: Option<u64>,
) -> Mem<()>
    requires no_source { is_source kind ≡ false }
    requires built { is_built kind ≡ true }
    requires within { (offset count : ℕ) → kind ≡ KindOf.Fetch offset count → offset + count ≤ 2 ^ 64 - 1 }
{
    let op = op_for(alloc, kind)?;
    expect_shape(rt, alloc, &op, shape, wanted)
}

const STREAMING: OpShape = OpShape {
    folds: false,
    streams: true,
    tails: false,
};

const GATHERING: OpShape = OpShape {
    folds: true,
    streams: false,
    tails: false,
};

const ENDING: OpShape = OpShape {
    folds: true,
    streams: false,
    tails: true,
};

#[test]
fn each_node_has_the_operator_of_its_kind(rt: HostRuntime) -> Result<(), Fail> {
    let alloc = rt.alloc();
    let mut list = Seq::new(alloc);
    list.push(Expr::Col(0))?;
    expect_op(&rt, alloc, NodeKind::Filter(Expr::Col(0)), STREAMING, None)?;
    expect_op(&rt, alloc, NodeKind::Project(list), STREAMING, None)?;
    expect_op(&rt, alloc, NodeKind::Fetch(1, 2), ENDING, Some(3))?;
    expect_op(&rt, alloc, NodeKind::Sink, GATHERING, None)?;
    Ok(())
}
