//! A plan's nodes as lines.
ghost use Rattle.std.specs.Prelude.{◌≡◌, ◌++◌, ◌+◌, map, decimal, IfOk, OnOk, string_bytes};
ghost use Rattle.std.specs.List.{flat_map};
ghost use Rattle.run_report.specs.PlanTexts.{kind_word, mark_word, input_words, node_line, explain_text, stage_line, plans_text};
ghost use Rattle.run_report.specs.Spaced.{spaced};

use crate::record::PlanRun;
use plan_nodes::{Node, NodeKind, Plan};
use row_table::Mark;
use scalar_value::{Mem, Text};
use std::alloc::Global;

fn kind_word(kind: &NodeKind) -> &'static str
    ensures { result.now ≡ kind_word kind.now }
{
    match kind {
        NodeKind::Source(_) => "source",
        NodeKind::Filter(_) => "filter",
        NodeKind::Project(_) => "project",
        NodeKind::Longer(_) => "longer",
        NodeKind::Aggregate(_) => "aggregate",
        NodeKind::HashJoin(_) => "hashjoin",
        NodeKind::OrderBy(_) => "order_by",
        NodeKind::Fetch(_, _) => "fetch",
        NodeKind::Window(_) => "window",
        NodeKind::Sink => "sink",
    }
}

fn mark_word(mark: Mark) -> &'static str
    ensures { result.now ≡ mark_word mark }
{
    match mark {
        Mark::Kept => "kept",
        Mark::Unordered => "unordered",
    }
}

/// Appends each number behind a space.
fn push_numbers(out: &mut String, numbers: &[u32]) -> Mem<()>
    ensures { OnOk result (string_bytes out.new ≡ string_bytes out.old ++ flat_map spaced (map decimal numbers.now)) }
{
    for number in numbers {
        write!(out, " {number}")?;
    }
    Ok(())
}

/// Appends the name of a source's table, or the numbers of any other node's inputs, each behind a space.
fn push_inputs(out: &mut String, node: &Node) -> Mem<()>
    ensures { OnOk result (string_bytes out.new ≡ string_bytes out.old ++ flat_map spaced (input_words node.now.kind node.now.inputs)) }
{
    match &node.kind {
        NodeKind::Source(name) => {
            let name = name.as_str();
            write!(out, " {name}")?;
            Ok(())
        }
        NodeKind::Filter(_)
        | NodeKind::Project(_)
        | NodeKind::Longer(_)
        | NodeKind::Aggregate(_)
        | NodeKind::HashJoin(_)
        | NodeKind::OrderBy(_)
        | NodeKind::Fetch(_, _)
        | NodeKind::Window(_)
        | NodeKind::Sink => push_numbers(out, node.inputs.as_slice()),
    }
}

/// Appends the line of a node.
fn push_node(out: &mut String, number: usize, node: &Node) -> Mem<()>
    ensures { OnOk result (string_bytes out.new ≡ string_bytes out.old ++ node_line number node.now) }
{
    let kind = kind_word(&node.kind);
    write!(out, "{number} {kind}")?;
    push_inputs(out, node)?;
    let mark = mark_word(node.mark);
    writeln!(out, " {mark}")?;
    Ok(())
}

/// Appends the lines of a plan's nodes.
#[tactic(auto, unfolding(crate::specs::PlanTexts::explain_text))]
pub fn push_nodes(out: &mut String, nodes: &[Node]) -> Mem<()>
    ensures { OnOk result (string_bytes out.new ≡ string_bytes out.old ++ explain_text nodes.now) }
{
    for (place, node) in nodes.iter().enumerate() {
        push_node(out, place + 1, node)?;
    }
    Ok(())
}

/// Appends the line `stage K`.
pub fn push_stage(out: &mut String, number: usize) -> Mem<()>
    ensures { OnOk result (string_bytes out.new ≡ string_bytes out.old ++ stage_line number) }
{
    writeln!(out, "stage {number}")?;
    Ok(())
}

/// Appends the plans of runs, each behind the line of its stage.
#[tactic(auto, unfolding(crate::specs::PlanTexts::plans_text))]
fn push_plans(out: &mut String, runs: &[PlanRun]) -> Mem<()>
    ensures { OnOk result (string_bytes out.new ≡ string_bytes out.old ++ plans_text (map (λ run. run.plan.nodes) runs.now)) }
{
    for (place, run) in runs.iter().enumerate() {
        push_stage(out, place + 1)?;
        push_nodes(out, run.plan.nodes.as_slice())?;
    }
    Ok(())
}

/// The lines of a plan's nodes, one for each, numbered from 1: `1 source v kept`, `3 hashjoin 1 2 unordered`. A line has the
/// node's number, its kind by Acero's name, the name of a source's table or the numbers of the inputs of any other node, the
/// streamed input of a hashjoin first, and whether its rows have an order that is kept. The only error is want of memory.
pub fn explain_text(alloc: Global, plan: &Plan) -> Mem<Text>
    ensures { IfOk result (λ text. text ≡ explain_text plan.now.nodes) }
{
    let mut out = String::new(alloc);
    push_nodes(&mut out, plan.nodes.as_slice())?;
    Ok(Text::of_string(out))
}

/// What `--explain` prints of a command's runs: for each the line `stage K`, with its number from 1, and the lines of its plan's
/// nodes. The only error is want of memory.
pub fn explain_plans(alloc: Global, runs: &[PlanRun]) -> Mem<Text>
    ensures { IfOk result (λ text. text ≡ plans_text (map (λ run. run.plan.nodes) runs.now)) }
{
    let mut out = String::new(alloc);
    push_plans(&mut out, runs)?;
    Ok(Text::of_string(out))
}
