//! The texts of small plans and runs, worked out by hand.
use crate::{PlanRun, explain_plans, explain_text, report_text};
use na_expr::Expr;
use plan_machine::{Entry, Job};
use plan_nodes::{JoinSpec, Node, NodeKind, Plan};
use row_table::{JoinKind, Mark};
use scalar_value::{Mem, Seq, Text};
use std::alloc::Global;
use std::process::Abort;
use std::test::Fail;

fn push_node(
    plan: &mut Plan,
    alloc: Global,
    kind: NodeKind,
    inputs: &[u32],
    mark: Mark,
) -> Mem<()> {
    plan.nodes.push(Node {
        kind,
        inputs: Seq::of_slice(alloc, inputs)?,
        mark,
        schema: Seq::new(alloc),
    })
}

fn source(alloc: Global, name: &str) -> Mem<NodeKind> {
    Ok(NodeKind::Source(Text::of(alloc, name)?))
}

/// A source, a filter of it, and the sink.
fn filter_plan(alloc: Global) -> Mem<Plan> {
    let mut plan = Plan {
        nodes: Seq::new(alloc),
    };
    push_node(&mut plan, alloc, source(alloc, "v")?, &[], Mark::Kept)?;
    push_node(
        &mut plan,
        alloc,
        NodeKind::Filter(Expr::Col(0)),
        &[1],
        Mark::Kept,
    )?;
    push_node(&mut plan, alloc, NodeKind::Sink, &[2], Mark::Kept)?;
    Ok(plan)
}

fn join(alloc: Global) -> Mem<NodeKind> {
    Ok(NodeKind::HashJoin(JoinSpec {
        kind: JoinKind::Inner,
        left_keys: Seq::of_slice(alloc, &[0])?,
        right_keys: Seq::of_slice(alloc, &[0])?,
        na_match: false,
    }))
}

/// Two sources, their join, a project, and the sink.
fn join_plan(alloc: Global) -> Mem<Plan> {
    let mut plan = Plan {
        nodes: Seq::new(alloc),
    };
    push_node(&mut plan, alloc, source(alloc, "x")?, &[], Mark::Kept)?;
    push_node(&mut plan, alloc, source(alloc, "y")?, &[], Mark::Unordered)?;
    push_node(&mut plan, alloc, join(alloc)?, &[1, 2], Mark::Unordered)?;
    let project = NodeKind::Project(Seq::new(alloc));
    push_node(&mut plan, alloc, project, &[3], Mark::Unordered)?;
    push_node(&mut plan, alloc, NodeKind::Sink, &[4], Mark::Unordered)?;
    Ok(plan)
}

fn run_of(alloc: Global, plan: Plan, history: &[Entry], peaks: &[u32]) -> Mem<PlanRun> {
    Ok(PlanRun {
        plan,
        batch: 1,
        workers: 1,
        pause: 1,
        resume: 0,
        history: Seq::of_slice(alloc, history)?,
        peaks: Seq::of_slice(alloc, peaks)?,
    })
}

fn claim(node: u32, job: Job, batch: u64) -> Entry {
    Entry::Claim {
        worker: 1,
        node,
        job,
        batch,
    }
}

fn delivered() -> Entry {
    Entry::Deliver { worker: 1 }
}

#[test]
fn a_run_is_reported(rt: HostRuntime) -> Result<(), Fail> {
    let history = [
        claim(1, Job::Emit, 0),
        delivered(),
        Entry::Pause { edge: 1 },
        claim(2, Job::Stream, 0),
        delivered(),
        Entry::Resume { edge: 1 },
        claim(1, Job::Emit, 1),
        delivered(),
        Entry::Finish { node: 1 },
        claim(3, Job::Fold, 0),
        delivered(),
        claim(3, Job::Seal, 0),
        delivered(),
        Entry::Finish { node: 3 },
    ];
    let mut runs = Seq::new(rt.alloc());
    runs.push(run_of(rt.alloc(), filter_plan(rt.alloc())?, &history, &[2, 2])?)?;
    let text = report_text(rt.alloc(), runs.as_slice())?;
    let wanted =
        "stage 1\n1 source v kept\n2 filter 1 kept\n3 sink 2 kept\nbatch 1 workers 1 pause 1 resume 0\nclaim 1 1 emit 0\ndeliver 1\npause 1\nclaim 1 2 stream 0\ndeliver 1\nresume 1\nclaim 1 1 emit 1\ndeliver 1\nfinish 1\nclaim 1 3 fold 0\ndeliver 1\nclaim 1 3 seal 0\ndeliver 1\nfinish 3\npeak 1 2\npeak 2 2\n";
    assert_eq!(rt; text.as_str(), wanted);
    Ok(())
}

/// A run of a plan without nodes is reported by its entries and peaks alone.
fn expect_entry<R: Abort>(rt: &R, alloc: Global, entry: Entry, wanted: &str) -> Mem<()> {
    let plan = Plan {
        nodes: Seq::new(alloc),
    };
    let mut runs = Seq::new(alloc);
    runs.push(run_of(alloc, plan, &[entry], &[])?)?;
    let head = "stage 1\nbatch 1 workers 1 pause 1 resume 0\n";
    let text = report_text(alloc, runs.as_slice())?;
    assert_eq!(rt; text.as_str().strip_prefix(head), Some(wanted));
    Ok(())
}

#[test]
fn rarer_entries_have_lines(rt: HostRuntime) -> Result<(), Fail> {
    let alloc = rt.alloc();
    expect_entry(&rt, alloc, Entry::Stop { node: 4 }, "stop 4\n")?;
    expect_entry(&rt, alloc, Entry::Fail { worker: 8 }, "fail 8\n")?;
    expect_entry(&rt, alloc, claim(5, Job::Close, 0), "claim 1 5 close 0\n")?;
    let last = claim(10, Job::Tail, u64::MAX);
    expect_entry(&rt, alloc, last, "claim 1 10 tail 18446744073709551615\n")?;
    Ok(())
}

#[test]
fn plans_have_lines(rt: HostRuntime) -> Result<(), Fail> {
    let alloc = rt.alloc();
    let joined =
        "1 source x kept\n2 source y unordered\n3 hashjoin 1 2 unordered\n4 project 3 unordered\n5 sink 4 unordered\n";
    assert_eq!(rt; explain_text(alloc, &join_plan(alloc)?)?.as_str(), joined);
    let mut runs = Seq::new(alloc);
    runs.push(run_of(alloc, filter_plan(alloc)?, &[], &[])?)?;
    runs.push(run_of(alloc, join_plan(alloc)?, &[], &[])?)?;
    let wanted =
        "stage 1\n1 source v kept\n2 filter 1 kept\n3 sink 2 kept\nstage 2\n1 source x kept\n2 source y unordered\n3 hashjoin 1 2 unordered\n4 project 3 unordered\n5 sink 4 unordered\n";
    assert_eq!(rt; explain_plans(alloc, runs.as_slice())?.as_str(), wanted);
    let none: Seq<PlanRun> = Seq::new(alloc);
    assert_eq!(rt; explain_plans(alloc, none.as_slice())?.as_str(), "");
    Ok(())
}

#[test]
fn stages_are_counted(rt: HostRuntime) -> Result<(), Fail> {
    let alloc = rt.alloc();
    let mut runs = Seq::new(alloc);
    runs.push(run_of(alloc, filter_plan(alloc)?, &[delivered()], &[0, 7])?)?;
    runs.push(run_of(alloc, filter_plan(alloc)?, &[], &[3, 0])?)?;
    let text = report_text(alloc, runs.as_slice())?;
    let wanted =
        "stage 1\n1 source v kept\n2 filter 1 kept\n3 sink 2 kept\nbatch 1 workers 1 pause 1 resume 0\ndeliver 1\npeak 1 0\npeak 2 7\nstage 2\n1 source v kept\n2 filter 1 kept\n3 sink 2 kept\nbatch 1 workers 1 pause 1 resume 0\npeak 1 3\npeak 2 0\n";
    assert_eq!(rt; text.as_str(), wanted);
    Ok(())
}
