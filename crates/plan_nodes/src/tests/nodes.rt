//! The marks of nodes of every kind, and copies of a plan.
use crate::node::{Node, NodeKind, Plan, mark_of};
use crate::options::{AggSpec, JoinSpec, LongerSpec, SortKey, WindowCall, WindowSpec};
use agg_rules::{AggCall, AggKind, WindowKind};
use na_expr::Expr;
use row_table::{Field, JoinKind, Mark};
use scalar_value::{ColType, Mem, Seq, Text};
use std::alloc::Global;
use std::test::Fail;

fn full_join(alloc: Global) -> Mem<JoinSpec> {
    Ok(JoinSpec {
        kind: JoinKind::Full,
        left_keys: Seq::of_slice(alloc, &[0])?,
        right_keys: Seq::of_slice(alloc, &[1])?,
        na_match: true,
    })
}

/// The values of the columns 1 and 2 under each other, beside column 0.
fn longer(alloc: Global) -> Mem<LongerSpec> {
    Ok(LongerSpec {
        kept: Seq::of_slice(alloc, &[0])?,
        chosen: Seq::of_slice(alloc, &[1, 2])?,
    })
}

/// For each value of column 0 the sum of column 1.
fn sum_by_first(alloc: Global) -> Mem<AggSpec> {
    let call = AggCall {
        kind: AggKind::Sum,
        arg: 1,
        arg_type: ColType::Int,
        na_rm: true,
    };
    Ok(AggSpec {
        keys: Seq::of_slice(alloc, &[0])?,
        calls: Seq::of_slice(alloc, &[call])?,
    })
}

/// The greatest values of column 2 first.
fn by_third(alloc: Global) -> Mem<Seq<SortKey>> {
    let key = SortKey {
        column: 2,
        descending: true,
    };
    Seq::of_slice(alloc, &[key])
}

/// The value of column 1 two rows before, in each group of column 0.
fn lag_by_first(alloc: Global) -> Mem<WindowSpec> {
    let mut calls = Seq::new(alloc);
    calls.push(WindowCall {
        kind: WindowKind::Lag,
        arg: Expr::Col(1),
        shift: 2,
        descending: false,
    })?;
    Ok(WindowSpec {
        keys: Seq::of_slice(alloc, &[0])?,
        calls,
    })
}

#[test]
fn nodes_have_the_marks_of_their_kinds(rt: HostRuntime) -> Result<(), Fail> {
    let filter = NodeKind::Filter(Expr::Col(0));
    let project = NodeKind::Project(Seq::new(rt.alloc()));
    let longer = NodeKind::Longer(longer(rt.alloc())?);
    let window = NodeKind::Window(lag_by_first(rt.alloc())?);
    let marks = [
        ([Mark::Kept, Mark::Kept].as_slice(), Mark::Kept),
        ([Mark::Kept, Mark::Unordered].as_slice(), Mark::Kept),
        ([Mark::Unordered, Mark::Kept].as_slice(), Mark::Unordered),
        ([Mark::Unordered].as_slice(), Mark::Unordered),
        ([Mark::Kept].as_slice(), Mark::Kept),
        ([].as_slice(), Mark::Unordered),
    ];
    for (inputs, wanted) in marks {
        assert_eq!(rt; mark_of(&filter, inputs), wanted);
        assert_eq!(rt; mark_of(&project, inputs), wanted);
        assert_eq!(rt; mark_of(&longer, inputs), wanted);
        assert_eq!(rt; mark_of(&window, inputs), wanted);
        assert_eq!(rt; mark_of(&NodeKind::Fetch(1, 2), inputs), wanted);
        assert_eq!(rt; mark_of(&NodeKind::Sink, inputs), wanted);
    }
    let join = NodeKind::HashJoin(full_join(rt.alloc())?);
    let sums = NodeKind::Aggregate(sum_by_first(rt.alloc())?);
    let sorted = NodeKind::OrderBy(by_third(rt.alloc())?);
    for inputs in [[Mark::Kept, Mark::Kept], [Mark::Unordered, Mark::Kept]] {
        assert_eq!(rt; mark_of(&join, &inputs), Mark::Unordered);
        assert_eq!(rt; mark_of(&sums, &inputs), Mark::Unordered);
        assert_eq!(rt; mark_of(&sorted, &inputs), Mark::Kept);
    }
    Ok(())
}

fn push_node(plan: &mut Plan, alloc: Global, kind: NodeKind, inputs: &[u32]) -> Mem<()> {
    let mut schema = Seq::new(alloc);
    schema.push(Field {
        name: Text::of(alloc, "id")?,
        kind: ColType::Int,
    })?;
    plan.nodes.push(Node {
        kind,
        inputs: Seq::of_slice(alloc, inputs)?,
        mark: Mark::Unordered,
        schema,
    })
}

fn plan_of(alloc: Global) -> Mem<Plan> {
    let mut values = Seq::new(alloc);
    values.push(Expr::Col(0))?;
    let mut plan = Plan {
        nodes: Seq::new(alloc),
    };
    push_node(
        &mut plan,
        alloc,
        NodeKind::Source(Text::of(alloc, "x")?),
        &[],
    )?;
    push_node(
        &mut plan,
        alloc,
        NodeKind::Source(Text::of(alloc, "y")?),
        &[],
    )?;
    push_node(
        &mut plan,
        alloc,
        NodeKind::HashJoin(full_join(alloc)?),
        &[1, 2],
    )?;
    push_node(&mut plan, alloc, NodeKind::Filter(Expr::Col(0)), &[3])?;
    push_node(&mut plan, alloc, NodeKind::Project(values), &[4])?;
    push_node(&mut plan, alloc, NodeKind::Longer(longer(alloc)?), &[5])?;
    push_node(
        &mut plan,
        alloc,
        NodeKind::Aggregate(sum_by_first(alloc)?),
        &[6],
    )?;
    push_node(&mut plan, alloc, NodeKind::OrderBy(by_third(alloc)?), &[7])?;
    push_node(&mut plan, alloc, NodeKind::Fetch(3, 4), &[8])?;
    push_node(
        &mut plan,
        alloc,
        NodeKind::Window(lag_by_first(alloc)?),
        &[9],
    )?;
    push_node(&mut plan, alloc, NodeKind::Sink, &[10])?;
    Ok(plan)
}

/// The node's kind, and the first number of its options where it has one.
fn kind_of(kind: &NodeKind) -> (&'static str, u64) {
    match kind {
        NodeKind::Source(_) => ("source", 0),
        NodeKind::Filter(_) => ("filter", 0),
        NodeKind::Project(values) => ("project", values.len() as u64),
        NodeKind::Longer(spec) => ("longer", spec.chosen.len() as u64),
        NodeKind::Aggregate(spec) => ("aggregate", first_arg(&spec.calls)),
        NodeKind::HashJoin(spec) => ("hashjoin", first_column(&spec.right_keys)),
        NodeKind::OrderBy(keys) => ("order_by", first_key(keys)),
        NodeKind::Fetch(offset, count) => (
            "fetch",
            (*offset).saturating_mul(10).saturating_add(*count),
        ),
        NodeKind::Window(spec) => ("window", first_shift(&spec.calls)),
        NodeKind::Sink => ("sink", 0),
    }
}

fn first_column(columns: &Seq<u32>) -> u64 {
    match columns.get(0) {
        Some(column) => u64::from(*column),
        None => 0,
    }
}

fn first_arg(calls: &Seq<AggCall>) -> u64 {
    match calls.get(0) {
        Some(call) => u64::from(call.arg),
        None => 0,
    }
}

fn first_key(keys: &Seq<SortKey>) -> u64 {
    match keys.get(0) {
        Some(key) => u64::from(key.column),
        None => 0,
    }
}

fn first_shift(calls: &Seq<WindowCall>) -> u64 {
    match calls.get(0) {
        Some(call) => call.shift,
        None => 0,
    }
}

#[test]
fn plans_are_copied(rt: HostRuntime) -> Result<(), Fail> {
    let plan = plan_of(rt.alloc())?.copy()?;
    let wanted = [
        ("source", 0, [].as_slice()),
        ("source", 0, [].as_slice()),
        ("hashjoin", 1, [1, 2].as_slice()),
        ("filter", 0, [3].as_slice()),
        ("project", 1, [4].as_slice()),
        ("longer", 2, [5].as_slice()),
        ("aggregate", 1, [6].as_slice()),
        ("order_by", 2, [7].as_slice()),
        ("fetch", 34, [8].as_slice()),
        ("window", 2, [9].as_slice()),
        ("sink", 0, [10].as_slice()),
    ];
    assert_eq!(rt; plan.nodes.len(), wanted.len());
    for (node, (name, number, inputs)) in plan.nodes.as_slice().iter().zip(wanted) {
        assert_eq!(rt; kind_of(&node.kind), (name, number));
        assert_eq!(rt; node.inputs.as_slice(), inputs);
        assert_eq!(rt; node.schema.len(), 1);
        assert_eq!(rt; node.mark, Mark::Unordered);
    }
    Ok(())
}
